//! What a source of command strings stands for.
ghost use Rattle.std.specs.Prelude.{◌≡◌, ◌⊎◌, ◌≤◌, length};
ghost use Rattle.teco_core.specs.Code.{number_of};
ghost use Rattle.teco_core.specs.declared.code.Code.TheVariants.{Mem};
ghost use Rattle.teco_ffi.specs.Sources.{IsCaretTold, IsNoSourceTold, IsSourceTold};

use crate::answers::CARET;
use crate::room::copy_front;
use std::alloc::Global;
use teco_core::Code;
use teco_messages::spot_of;
use teco_source::{ReaderFault, commands};

/// What is told of a source.
#[repr(C)]
pub struct ToldSource {
    /// How many bytes it stands for.
    pub made: usize,
    /// The line and the column of the caret by which it can't be read, from 1; or 0.
    pub line: u64,
    pub column: u64,
}

/// Tells the bytes that a source stands for, as `teco_source` of the library for C does. 0, or CARET where a caret stands before what it
/// can't stand before, or the number of MEM.
pub fn tell_source(alloc: Global, source: &[u8], room: &mut [u8], told: &mut ToldSource) -> u8
    ensures read { result ≡ 0 → IsSourceTold source.now room.old room.new told.new }
    ensures caret { result ≡ CARET → IsCaretTold source.now told.new × (room.new ≡ room.old) }
    ensures memory { result ≡ number_of Mem → IsNoSourceTold told.new × (room.new ≡ room.old) }
    ensures else_memory { (result ≡ 0) ⊎ (result ≡ CARET) ⊎ (result ≡ number_of Mem) }
    ensures within { told.new.made ≤ length source.now }
{
    told.made = 0;
    told.line = 0;
    told.column = 0;
    match commands(alloc, source) {
        Err(ReaderFault::Memory) => Code::Mem.number(),
        Err(ReaderFault::Caret(place)) => {
            let spot = spot_of(source, place);
            told.line = spot.line;
            told.column = spot.column;
            CARET
        }
        Ok(bytes) => {
            told.made = bytes.len();
            copy_front(room, bytes.as_slice());
            0
        }
    }
}
