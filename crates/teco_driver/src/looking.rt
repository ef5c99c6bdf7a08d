//! A look at commands before they are run.
ghost use Rattle.std.specs.Prelude.{◌≡◌, IfNone, IfSome};
ghost use Rattle.teco_driver.specs.Checks.{AreRejected, MayRun, are_bytes};

use crate::verdict::verdict_on;
use crate::{ReadSources, no_memory};
use std::alloc::Global;
use teco_cli::{Commands, Line};
use teco_core::NoMemory;
use teco_io::Terminal;

/// Whether the commands are bytes as they are, of standard input or a file.
fn are_bytes(commands: &Commands) -> bool
    ensures { result ≡ are_bytes commands.now }
{
    matches!(commands, Commands::StandardInput | Commands::Bytes(_))
}

/// Looks at the commands of sources, which are had whole, and at the texts that the line puts where code is. If one is misspelt, tells its
/// faults and gives the status.
///
/// Commands as they are, of standard input or a file, are not looked at. They may be a record, which has each fault that was typed.
pub(crate) fn status_if_misspelt<E: Terminal>(
    alloc: Global,
    line: &Line,
    parts: &ReadSources,
    bytes: &[u8],
    errors: &mut E,
) -> Option<u8>
    ensures rejected { IfSome result (AreRejected line.now bytes.now (E.screen errors.old) (E.screen errors.new)) }
    ensures may_run { IfNone result (MayRun line.now bytes.now) }
    ensures silent { IfNone result (errors.new ≡ errors.old) }
{
    if are_bytes(&line.commands) {
        return None;
    }
    let Ok(verdict) = verdict_on(alloc, line, parts, bytes, false) else {
        return Some(no_memory(errors));
    };
    if verdict.is_misspelt {
        let _ = errors.put(verdict.lines.as_bytes());
        return Some(3);
    }
    None
}
