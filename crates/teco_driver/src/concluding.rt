//! What is told of how a run ends, and with which status.
ghost use Rattle.std.specs.Prelude.{◌≡◌, codes};
ghost use Rattle.teco_driver.specs.Run.{Concludes};
ghost use Rattle.teco_fs.specs.Refusing.{Tells};
ghost use Rattle.teco_serve.specs.Ending.{said};

use std::alloc::Global;
use teco_cli::Line;
use teco_core::NoMemory;
use teco_io::Terminal;
use teco_serve::{Fate, ending_of, status_of};

/// What is told where memory is refused to the program.
pub const NO_MEMORY: &[u8] = b"teco: no memory\n";

/// Tells that there is no memory, and gives the status.
pub fn no_memory<E: Terminal>(errors: &mut E) -> u8
    ensures status { result ≡ 1 }
    ensures told { Tells (E.screen errors.old) (E.screen errors.new) (said (codes "no memory")) }
{
    let _ = errors.put(NO_MEMORY);
    1
}

/// Tells how the run over this input of the line ends, and gives the status.
pub fn conclude<E: Terminal>(
    alloc: Global,
    line: &Line,
    name: &str,
    fate: Fate,
    errors: &mut E,
) -> u8
    ensures { Concludes line.now name.now fate (E.screen errors.old) (E.screen errors.new) result }
{
    match ending_of(alloc, line, name, fate) {
        Ok((status, text)) => {
            let _ = errors.put(text.as_bytes());
            status
        }
        Err(NoMemory) => {
            let _ = no_memory(errors);
            status_of(fate)
        }
    }
}
