//! What a run touches, as one value.

/// What a run touches. Its commands come from standard input, if its line names no other place. The number of its process is for the
/// names of drafts.
#[derive(Drop)]
pub struct Host<S, A, T, D> {
    pub commands: S,
    pub alarm: A,
    pub terminal: T,
    pub disk: D,
    pub process: u32,
}
