//! The calls that make, ask and end a stopper.
ghost use Rattle.std.specs.Prelude.{◌≡◌, ◌≢◌, ◌⊎◌, None, IsSome, Option};
ghost use Rattle.teco_core.specs.Code.{number_of};
ghost use Rattle.teco_core.specs.declared.code.Code.TheVariants.{Mem};
ghost use Rattle.teco_ffi.specs.Stops.{Hears};

use crate::answers::CLOSED;
use crate::stopper::Stopper;
use std::alloc::Global;
use teco_core::Code;
use teco_ffi::flag::Flag;

/// Opens a stopper: a flag that is not set, with two handles. What was open in them is closed then.
///
/// 0, or the number of MEM where memory is refused: then nothing changes.
#[unsafe(no_mangle)]
pub extern "C" fn teco_stopper_open(alloc: Global, here: &mut Stopper, there: &mut Stopper) -> u8
    ensures opened { result ≡ 0 → IsSome here.new.value × IsSome there.new.value }
    ensures refused { result ≢ 0 → (here.new.value ≡ here.old.value) × (there.new.value ≡ there.old.value) }
    ensures else_memory { (result ≡ 0) ⊎ (result ≡ number_of Mem) }
{
    match Flag::pair(alloc) {
        Err(_) => Code::Mem.number(),
        Ok((mine, other)) => {
            here.open(mine);
            there.open(other);
            0
        }
    }
}

/// Closes one handle of a stopper, and frees what it held. A closed one is let be.
#[unsafe(no_mangle)]
pub extern "C" fn teco_stopper_close(alloc: Global, stopper: &mut Stopper)
    ensures { stopper.new.value ≡ None }
{
    stopper.close(alloc);
}

/// Asks the runs that have this stopper to stop, or takes that back where `asked` is 0. It stays so until the next such call. Takes no
/// memory, and waits for nobody.
#[unsafe(no_mangle)]
pub extern "C" fn teco_stop(stopper: &mut Stopper, asked: u8) -> u8
    ensures told { Hears stopper.old.value result }
    ensures same { stopper.new ≡ stopper.old }
{
    let Some(flag) = stopper.look() else {
        return CLOSED;
    };
    flag.set(asked != 0);
    0
}
