//! What a token is, in numbers.
ghost use Rattle.std.specs.Prelude.{◌≡◌, ℕ, List};
ghost use Rattle.teco_scan.specs.Seen.{instruction_in};
ghost use Rattle.teco_ffi.specs.Tokens.{instruction_kind};

use teco_scan::{Bare, Item, TextCommand, TokenKind};

/// A run of digits.
pub const DIGITS: u8 = 1;

/// A value that takes nothing.
pub const VALUE: u8 = 2;

/// An operator, a parenthesis, a comma, or the whole buffer as a pair.
pub const ARITHMETIC: u8 = 3;

/// A value or a command, as the level of the arguments says.
pub const LEVEL: u8 = 4;

/// A command after whose name nothing follows.
pub const COMMAND: u8 = 5;

/// A command on a register.
pub const REGISTER: u8 = 6;

/// The code of the byte that follows.
pub const BYTE: u8 = 7;

/// A command with one text, but for a jump.
pub const ONE_TEXT: u8 = 8;

/// A jump to a tag.
pub const JUMP: u8 = 9;

/// A text for a register.
pub const SET_TEXT: u8 = 10;

/// A search, and the text that replaces what it finds.
pub const REPLACE: u8 = 11;

/// What opens, divides or ends a block, but for a test.
pub const MARK: u8 = 12;

/// A test of a number.
pub const TEST: u8 = 13;

/// A tag.
pub const TAG: u8 = 14;

/// ESC between tokens.
pub const ESCAPE: u8 = 15;

/// The kinds as numbers. The call does nothing.
pub fn token_kind_values()
    ensures digits { DIGITS ≡ 1 }
    ensures value { VALUE ≡ 2 }
    ensures arithmetic { ARITHMETIC ≡ 3 }
    ensures level { LEVEL ≡ 4 }
    ensures command { COMMAND ≡ 5 }
    ensures register { REGISTER ≡ 6 }
    ensures byte { BYTE ≡ 7 }
    ensures one_text { ONE_TEXT ≡ 8 }
    ensures jump { JUMP ≡ 9 }
    ensures set_text { SET_TEXT ≡ 10 }
    ensures replace { REPLACE ≡ 11 }
    ensures mark { MARK ≡ 12 }
    ensures test { TEST ≡ 13 }
    ensures tag { TAG ≡ 14 }
    ensures escape { ESCAPE ≡ 15 }
{}

/// The number of what a token instructs.
pub fn number_of_token(kind: TokenKind) -> u8
    ensures { (text : List ℕ) → result ≡ instruction_kind (instruction_in text kind) }
{
    match kind {
        TokenKind::Item(Item::Digits(_)) => DIGITS,
        TokenKind::Item(Item::Bare(Bare::Quantity(_))) => VALUE,
        TokenKind::Item(Item::Bare(Bare::Arithmetic(_))) => ARITHMETIC,
        TokenKind::Item(Item::Bare(Bare::Level(_))) => LEVEL,
        TokenKind::Item(Item::Bare(Bare::Command(_))) => COMMAND,
        TokenKind::Item(Item::Register(..)) => REGISTER,
        TokenKind::Item(Item::Byte(_)) => BYTE,
        TokenKind::Item(Item::Text(TextCommand::Go, _)) => JUMP,
        TokenKind::Item(Item::Text(..)) => ONE_TEXT,
        TokenKind::Item(Item::SetText(..)) => SET_TEXT,
        TokenKind::Item(Item::Replace(..)) => REPLACE,
        TokenKind::Mark(_) => MARK,
        TokenKind::Test(_) => TEST,
        TokenKind::Tag(_) => TAG,
        TokenKind::Escape => ESCAPE,
    }
}
