//! An exit, and what is answered after it.

/// A session that has exited, and has written its input, runs nothing until the exit is undone.
pub(super) const SCRIPTS: &str = "
    over a => 1\r\n
    YEX\x1b => => a
    1=\x1b => END => a
    { =>
    1=\x1b =>
    } => NTR
    ";
