//! Remarks on commands.
ghost use Rattle.std.specs.Prelude.{◌≡◌};
ghost use Rattle.teco_lint.specs.Told.{ends_run, tells_fault};

use crate::forms::Form;
use teco_check::Wrong;
use teco_scan::Span;

/// A fault or what no check looks into, and the text in which it is: a command string, or a text that one puts where code is.
#[derive(Clone, Copy)]
pub struct FaultIn {
    /// The place of the token.
    pub at: usize,
    pub wrong: Wrong,
    pub inside: Span,
}

/// What may be meant otherwise, though it is no fault.
#[derive(Clone, Copy)]
pub enum Hint {
    /// A command comes after `EX` in its list.
    AfterExit,
    /// A `;` is in no iteration of its text.
    LeavesNothing,
    /// A search text has a caret before a letter.
    Caret,
    /// `nO` of TECO-11, which a run refuses by ARG.
    NumberBeforeJump,
    /// A form of a command that this TECO leaves out.
    LeftOut(Form),
    /// A search text that can't be read, by which a run ends with ICE.
    WrongSearchText,
    /// A text is empty, and its ESC is the first of the pair that ends the string.
    EmptyText,
    /// The register of this name is called, and nothing puts a text into it.
    NeverSet(char),
    /// Bytes come after the last pair of ESC.
    NotRun,
    /// The same, and they end with one ESC.
    OneEscape,
    /// No command string has `EX`.
    NoExit,
    /// No command string reads a page.
    NoPage,
}

/// What a remark says.
#[derive(Clone, Copy)]
pub enum What {
    Fault(FaultIn),
    Hint(Hint),
    /// There are more remarks, which are not told.
    More,
}

/// A remark, and its place: how many bytes of the commands are before it.
#[derive(Clone, Copy)]
pub struct Remark {
    pub at: usize,
    pub what: What,
}

/// Whether a run that comes to it ends by its code. What no check looks into may be fine.
pub(crate) fn ends_run(wrong: Wrong) -> bool
    ensures { result ≡ ends_run wrong }
{
    !matches!(wrong, Wrong::Calls | Wrong::Loads | Wrong::InText)
}

/// Whether a remark tells of a fault, and not of what no check looks into.
pub fn tells_fault(remark: &Remark) -> bool
    ensures { result ≡ tells_fault remark.now }
{
    match remark.what {
        What::Fault(fault) => ends_run(fault.wrong),
        _ => false,
    }
}
