//! Reading the input.
ghost use Rattle.std.specs.Prelude.{◌≤◌, false, IfOk, IfErr, vec_len};
ghost use Rattle.teco_io.specs.Input.{IsFaultOf};
ghost use Rattle.teco_io.specs.Source.{Gives, HasEnded};

use crate::source::{Source, SourceFault};
use std::alloc::Global;
use teco_core::NoMemory;
use thiserror::Error;

/// The most bytes of a piece.
const PIECE: usize = 1 << 16;

/// Why there is no input.
#[derive(Clone, Copy, Debug, Drop, Error)]
pub enum InputFault {
    /// A read failed.
    #[error("cannot read")]
    Read,
    /// The source gave more bytes than may be.
    #[error("too large")]
    TooLarge,
    /// Memory was refused for bytes that the source gave.
    #[error("no memory")]
    Memory,
}

impl From<SourceFault> for InputFault {
    ghost use Rattle.std.specs.Prelude.{◌≡◌};
    ghost use Rattle.teco_io.specs.declared.input.InputFault.TheVariants.{Read};

    ghost from_gives = { λ _ fault. fault ≡ Read };

    fn from(_: SourceFault) -> InputFault {
        InputFault::Read
    }
}

impl From<NoMemory> for InputFault {
    ghost use Rattle.std.specs.Prelude.{◌≡◌};
    ghost use Rattle.teco_io.specs.declared.input.InputFault.TheVariants.{Memory};

    ghost from_gives = { λ _ fault. fault ≡ Memory };

    fn from(_: NoMemory) -> InputFault {
        InputFault::Memory
    }
}

/// Reads the source to its end, and gives all the bytes, which are at most `max`. After more bytes it reads no further.
// Out of line, so that its piece is on the stack for this call alone.
#[inline(never)]
pub fn read_input<S: Source>(
    alloc: Global,
    source: &mut S,
    max: usize,
) -> Result<Vec<u8>, InputFault>
    ensures all { IfOk result
        (λ input. Gives S.coming S.bound S.failures source.old source.new input.items false) }
    ensures ended { IfOk result (λ _. HasEnded (S.coming source.new) (S.ended source.new)) }
    ensures most { IfOk result (λ input. vec_len input ≤ max) }
    ensures fault { IfErr result (IsFaultOf max (Gives S.coming S.bound S.failures source.old source.new)) }
{
    let mut input = Vec::new(alloc);
    let mut piece = [0; PIECE];
    'pieces: loop {
        let Ok(n) = source.read(&mut piece) else {
            return Err(InputFault::Read);
        };
        if n == 0 {
            return Ok(input);
        }
        if n > max - input.len() {
            return Err(InputFault::TooLarge);
        }
        let Ok(()) = input.extend_from_slice(&piece[..n]) else {
            return Err(InputFault::Memory);
        };
    }
}
