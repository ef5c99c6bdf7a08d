//! What an editor has to draw anew, of a change.

use teco_core::Reg;

/// The part of the state that a change is for.
///
/// Of a splice it tells what a turn does now: an undo, where the string is not undone, and else a redo. Once the change is turned, the
/// bytes that came are those that go.
#[derive(Clone, Copy, PartialEq, Eq)]
pub enum ChangeKind {
    /// At the place `at` of the text `gone` bytes go and `came` others come. The pointer moves too.
    Splice { at: usize, gone: usize, came: usize },
    /// The pointer.
    Point,
    /// The number of a register.
    Number(Reg),
    /// The text of a register.
    Text(Reg),
    /// The push-down list.
    Push,
    /// The push-down list, and both parts of a register.
    Pop(Reg),
    /// The place in the input, the end of the output, and whether a form feed ended the page.
    Pages,
    /// The last search text.
    Search,
    /// The last search result.
    Found,
    /// Whether an exit has ended the session.
    Done,
    /// The case mode.
    Mode,
}
