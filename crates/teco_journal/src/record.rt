//! What a line of the file tells.

/// What one request did to a session. A request that was refused did nothing, and has no record.
#[derive(Drop)]
pub enum Record {
    /// A command string took so many steps, however it ended.
    Run { steps: u64, text: Vec<u8> },
    /// The last string that was not undone was undone.
    Undo,
    /// The first undone string was done again.
    Redo,
    /// The last string that was not undone was cut after so many steps.
    Rewind(u64),
    /// The undone strings were dropped.
    Forget,
}
