//! The call that reads a source.
ghost use Rattle.std.specs.Prelude.{◌≡◌, ◌⊎◌, ◌≤◌, length};
ghost use Rattle.teco_core.specs.Code.{number_of};
ghost use Rattle.teco_core.specs.declared.code.Code.TheVariants.{Mem};
ghost use Rattle.teco_ffi.specs.Sources.{IsCaretTold, IsNoSourceTold, IsSourceTold};

use crate::answers::CARET;
use std::alloc::Global;
use teco_ffi::sources::{ToldSource, tell_source};

/// Copies the bytes that a source stands for into the room, as much as there is room for, and tells how many they are.
///
/// 0, or CARET where a caret stands before what it can't stand before, whose line and column are told, or the number of MEM.
#[unsafe(no_mangle)]
pub extern "C" fn teco_source(
    alloc: Global,
    source: &[u8],
    room: &mut [u8],
    told: &mut ToldSource,
) -> u8
    ensures read { result ≡ 0 → IsSourceTold source.now room.old room.new told.new }
    ensures caret { result ≡ CARET → IsCaretTold source.now told.new × (room.new ≡ room.old) }
    ensures memory { result ≡ number_of Mem → IsNoSourceTold told.new × (room.new ≡ room.old) }
    ensures else_memory { (result ≡ 0) ⊎ (result ≡ CARET) ⊎ (result ≡ number_of Mem) }
    ensures within { told.new.made ≤ length source.now }
{
    tell_source(alloc, source, room, told)
}
