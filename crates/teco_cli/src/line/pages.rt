//! The commands that run strings on every page.
ghost use Rattle.std.specs.Prelude.{◌≡◌, IfOk};
ghost use Rattle.teco_cli.specs.CommandLine.{on_pages, without_last_escapes};

use std::alloc::Global;
use teco_core::{ESC, NoMemory};

/// The bytes before the ESCs at the end.
fn before_escapes(bytes: &[u8]) -> &[u8]
    ensures { result.now ≡ without_last_escapes bytes.now }
{
    let mut end = bytes.len();
    while end > 0 && bytes[end - 1] == ESC {
        end -= 1;
    }
    &bytes[..end]
}

/// The commands that run these strings on every page, and then exit. The space and the ESC after them drop what the last command gave.
pub fn commands_on_pages(alloc: Global, strings: &[u8]) -> Result<Vec<u8>, NoMemory>
    ensures { IfOk result (λ commands. commands.items ≡ on_pages strings.now) }
{
    let mut commands = Vec::from_slice(alloc, b"Y<")?;
    commands.extend_from_slice(before_escapes(strings))?;
    commands.extend_from_slice(b"\x1b \x1b-1-^N;P>EX\x1b\x1b")?;
    Ok(commands)
}
