//! What a step leads to.
use teco_core::{Code, Reg};
use teco_scan::Modifiers;

/// What is left of a token that takes several steps: so many pages or occurrences, and whether a search is next.
#[derive(Clone, Copy)]
pub struct Work {
    pub left: i32,
    pub search: bool,
}

/// Where a step of a token comes: what is left of the token after an earlier step; whether an iteration of the same text is open; and
/// whether a `;` without modifiers comes next.
#[derive(Clone, Copy)]
pub struct Context {
    pub work: Option<Work>,
    pub inside: bool,
    pub before: bool,
}

/// What a step depends on beside its operands: the modifiers of the token, and its context.
#[derive(Clone, Copy)]
pub struct Setting {
    pub modifiers: Modifiers,
    pub work: Option<Work>,
    pub inside: bool,
    pub before: bool,
}

/// What a step leads to.
#[derive(Clone, Copy)]
pub enum Next {
    /// The string goes on.
    On,
    /// The innermost iteration is left.
    Leave,
    /// A jump to the tag that the token names.
    Go,
    /// The text of this register is run.
    Call(Reg),
    /// The session is done.
    Out,
    /// The same token has a further step.
    Again(Work),
    /// The string ends by this code.
    Error(Code),
}
