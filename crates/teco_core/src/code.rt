//! The codes by which a command string, or an answer, ends.
ghost use Rattle.std.specs.Prelude.{◌≡◌, Some, length};
ghost use Rattle.teco_core.specs.Code.{letters_of, number_of};
ghost use Rattle.teco_core.specs.declared.code.Code.TheVariants.{Mem};

use crate::NoMemory;
use std::fmt;
use thiserror::Error;

/// Why a command string ended before its end, or why a request was refused.
///
/// - `Arg`: wrong argument, or wrong arithmetic.
/// - `Bni`: `>` without its iteration.
/// - `Cpq`: nothing on the push-down list.
/// - `Dtb`: delete past the buffer.
/// - `Ice`: search text not allowed.
/// - `Iia`: insert with argument and text.
/// - `Ill`: no such command.
/// - `Ipa`: `P` with a number of at most 0.
/// - `Iqc`: no such test.
/// - `Iqn`: no such register.
/// - `Isa`: search count not allowed.
/// - `Iss`: no search text yet.
/// - `Mrp`: parenthesis open at a command.
/// - `Nae`: no number before `=`.
/// - `Naq`: no number before a test.
/// - `Nau`: no number before `U`.
/// - `Ovf`: number out of range.
/// - `Dvz`: division by zero.
/// - `Pdo`: too many open or pushed.
/// - `Pop`: place outside the buffer.
/// - `Sni`: `;` without an iteration.
/// - `Srh`: search failed.
/// - `Tag`: no such tag to go to.
/// - `Utc`: text ends inside a command or block.
/// - `Yca`: page would replace a nonempty buffer.
/// - `Big`: a text or the output past its limit.
/// - `Lim`: step limit.
/// - `Mem`: memory refused.
/// - `Tty`: terminal failed.
/// - `Ntu`: nothing to undo.
/// - `Ntr`: nothing to redo.
/// - `End`: session is done.
#[derive(Clone, Copy, Debug, PartialEq, Eq, Error)]
pub enum Code {
    Arg,
    Bni,
    Cpq,
    Dtb,
    Ice,
    Iia,
    Ill,
    Ipa,
    Iqc,
    Iqn,
    Isa,
    Iss,
    Mrp,
    Nae,
    Naq,
    Nau,
    Ovf,
    Dvz,
    Pdo,
    Pop,
    Sni,
    Srh,
    Tag,
    Utc,
    Yca,
    Big,
    Lim,
    Mem,
    Tty,
    Ntu,
    Ntr,
    End,
}

/// The letters of each code, in the order of the codes.
const NAMES: [&str; 32] = [
    "ARG", "BNI", "CPQ", "DTB", "ICE", "IIA", "ILL", "IPA", "IQC", "IQN", "ISA", "ISS", "MRP",
    "NAE", "NAQ", "NAU", "OVF", "DVZ", "PDO", "POP", "SNI", "SRH", "TAG", "UTC", "YCA", "BIG",
    "LIM", "MEM", "TTY", "NTU", "NTR", "END",
];

impl Code {
    /// The number of the code, from 1 to 32.
    pub fn number(self) -> u8
        ensures { result ≡ number_of self }
    {
        self as u8 + 1
    }

    /// The three capital letters that are shown of the code.
    pub fn letters(self) -> [u8; 3]
        ensures { result ≡ letters_of self }
    {
        let mut letters = [0; 3];
        letters.copy_from_slice(self.name().as_bytes());
        letters
    }

    fn name(self) -> &'static str
        ensures letters { result.now ≡ letters_of self }
        ensures three { length result.now ≡ 3 }
    {
        NAMES[self as usize]
    }
}

impl From<NoMemory> for Code {
    ghost from_gives = { λ _ code. code ≡ Mem };

    fn from(_: NoMemory) -> Self {
        Self::Mem
    }
}

impl fmt::Display for Code {
    ghost output = { λ code. Some (letters_of code) };

    fn fmt<W: fmt::Write>(&self, f: &mut fmt::Formatter<W>) -> Result<(), fmt::Error> {
        f.write_str(self.name())
    }
}
