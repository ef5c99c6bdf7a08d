//! What a change is for, in numbers.
ghost use Rattle.std.specs.Prelude.{◌≡◌, Some};
ghost use Rattle.teco_core.specs.Register.{register_of};
ghost use Rattle.teco_ffi.specs.Kinds.{kind_number, name_in, register_name};

use teco_core::Reg;
use teco_store::ChangeKind;

/// Bytes of the text, and the pointer.
pub const SPLICE: u8 = 1;

/// The pointer.
pub const POINT: u8 = 2;

/// The number of a register.
pub const NUMBER: u8 = 3;

/// The text of a register.
pub const TEXT: u8 = 4;

/// The push-down list.
pub const PUSH: u8 = 5;

/// The push-down list, and both parts of a register.
pub const POP: u8 = 6;

/// The place in the input, the end of the output, and whether a form feed ended the page.
pub const PAGES: u8 = 7;

/// The last search text.
pub const SEARCH: u8 = 8;

/// The last search result.
pub const FOUND: u8 = 9;

/// Whether an exit has ended the session.
pub const DONE: u8 = 10;

/// The case mode.
pub const MODE: u8 = 11;

/// The kinds as numbers. The call does nothing.
pub fn kind_values()
    ensures splice { SPLICE ≡ 1 }
    ensures point { POINT ≡ 2 }
    ensures number { NUMBER ≡ 3 }
    ensures text { TEXT ≡ 4 }
    ensures push { PUSH ≡ 5 }
    ensures pop { POP ≡ 6 }
    ensures pages { PAGES ≡ 7 }
    ensures search { SEARCH ≡ 8 }
    ensures found { FOUND ≡ 9 }
    ensures done { DONE ≡ 10 }
    ensures mode { MODE ≡ 11 }
{}

/// The number of a kind.
pub fn number_of_kind(kind: ChangeKind) -> u8
    ensures { result ≡ kind_number kind }
{
    match kind {
        ChangeKind::Splice { .. } => SPLICE,
        ChangeKind::Point => POINT,
        ChangeKind::Number(_) => NUMBER,
        ChangeKind::Text(_) => TEXT,
        ChangeKind::Push => PUSH,
        ChangeKind::Pop(_) => POP,
        ChangeKind::Pages => PAGES,
        ChangeKind::Search => SEARCH,
        ChangeKind::Found => FOUND,
        ChangeKind::Done => DONE,
        ChangeKind::Mode => MODE,
    }
}

/// The byte that names a register, a capital letter or a digit.
pub fn name_of(q: Reg) -> u8
    ensures name { result ≡ register_name q }
    ensures names_it { register_of result ≡ Some q }
{
    let index = q.index() as u8;
    if index < 26 {
        b'A' + index
    } else {
        b'0' + (index - 26)
    }
}

/// The byte that names the register that a kind is for, or 0 where it is for none.
pub fn name_in_kind(kind: ChangeKind) -> u8
    ensures { result ≡ name_in kind }
{
    match kind {
        ChangeKind::Number(q) | ChangeKind::Text(q) | ChangeKind::Pop(q) => name_of(q),
        _ => 0,
    }
}
