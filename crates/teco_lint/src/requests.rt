//! Command strings that ask for an undo, a redo or a rewind.
ghost use Rattle.std.specs.Prelude.{◌≡◌};
ghost use Rattle.teco_lint.specs.Strings.{is_request};

use teco_scan::{ends_in_escape, move_asked};

/// Whether a command string asks for an undo, a redo or a rewind.
pub fn is_request(string: &[u8]) -> bool
    ensures { result ≡ is_request string.now }
{
    ends_in_escape(string) && move_asked(string).is_some()
}
