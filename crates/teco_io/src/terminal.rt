//! Terminals.
ghost use Rattle.teco_io.specs.Terminal.{Puts, Screen};

use teco_core::Code;
use thiserror::Error;

/// A put failed. The terminal's count of failures rose too.
#[derive(Debug, Drop, Error)]
#[error("cannot show")]
pub struct TerminalFault;

impl From<TerminalFault> for Code {
    ghost use Rattle.std.specs.Prelude.{◌≡◌};
    ghost use Rattle.teco_core.specs.declared.code.Code.TheVariants.{Tty};

    ghost from_gives = { λ _ code. code ≡ Tty };

    fn from(_: TerminalFault) -> Self {
        Code::Tty
    }
}

/// What the typed bytes are put on.
pub trait Terminal {
    // what is seen of it
    ghost screen: { Self → Screen };

    /// Shows the bytes. Where it fails, a beginning of them is shown, and the count of failures rises by one.
    ///
    /// A step that types nothing puts nothing. One that types may put twice: `T` and `V` put each half of the text by itself.
    fn put(&mut self, bytes: &[u8]) -> Result<(), TerminalFault>
        ensures { Puts (screen self.old) (screen self.new) bytes.now result };
}
