//! The limits of the language, in one place.
ghost use Rattle.std.specs.Prelude.{◌≡◌};

/// The most parentheses that may be open.
pub const PARENTHESIS_LIMIT: usize = 16;

/// The most macro calls that may be open.
pub const CALL_LIMIT: usize = 32;

/// The most blocks that may be open in one text.
pub const BLOCK_LIMIT: usize = 64;

/// The most values on the push-down list.
pub const PUSHED_LIMIT: usize = 64;

/// The most bytes of the buffer, of each register's text and of the last search text.
pub const TEXT_LIMIT: usize = 1 << 24;

/// The most bytes of the input, and of the output.
pub const FILE_LIMIT: usize = 1 << 30;

/// The most strings that a session with a bounded history can be asked to keep.
pub const DEPTH_LIMIT: usize = 100_000;

/// The limits as numbers. The call does nothing.
pub fn limit_values()
    ensures parentheses { PARENTHESIS_LIMIT ≡ 16 }
    ensures calls { CALL_LIMIT ≡ 32 }
    ensures blocks { BLOCK_LIMIT ≡ 64 }
    ensures pushed { PUSHED_LIMIT ≡ 64 }
    ensures text { TEXT_LIMIT ≡ 16777216 }
    ensures file { FILE_LIMIT ≡ 1073741824 }
    ensures depth { DEPTH_LIMIT ≡ 100000 }
{}
