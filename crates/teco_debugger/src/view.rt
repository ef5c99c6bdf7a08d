//! Views of where a walk stands.

/// What is shown of where a walk stands.
#[derive(Clone, Copy)]
pub enum View {
    /// The step, the place and the token, in a line.
    Step,
    /// All that is open there, too.
    Where,
    /// So many lines before and after that of the step.
    Around(u64),
    /// What was typed so far.
    Typed,
}
