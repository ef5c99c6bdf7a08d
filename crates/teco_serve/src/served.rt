//! How a serving ends.

/// How a serving ends.
#[derive(Clone, Copy, PartialEq)]
pub enum Served {
    /// A command string exited.
    Exit,
    /// The stream ended.
    EndOfCommands,
    /// A read failed.
    ReadFault,
    /// A put failed.
    ShowFault,
    /// Memory was refused to the stream.
    NoMemory,
}
