//! Where in its source a byte of the commands begins.
ghost use Rattle.std.specs.Prelude.{◌≡◌, ◌∷◌, ◌++◌, IfOk, OnOk};
ghost use Rattle.std.specs.String.{string_bytes};
ghost use Rattle.teco_driver.specs.Places.{place_in, spot_in_source, place_told, byte_places};
ghost use Rattle.teco_source.specs.Places.{places_of as places_in_source};

use crate::{ReadSource, source_name};
use std::alloc::Global;
use teco_cli::Commands;
use teco_core::NoMemory;
use teco_messages::show_spot;
use teco_source::beginnings;

/// For each byte of the commands for every page, where in their source it begins: two come before those of the source.
fn places_on_pages(alloc: Global, source: &[u8]) -> Result<Vec<usize>, NoMemory>
    ensures { IfOk result (λ places. places.items ≡ 0 ∷ 0 ∷ places_in_source source.now) }
{
    let mut places = vec![in alloc; 0; 2]?;
    places.extend_from_slice(beginnings(alloc, source)?.as_slice())?;
    Ok(places)
}

/// For each byte of the commands of a source, where it begins there.
pub(crate) fn byte_places(
    alloc: Global,
    commands: &Commands,
    source: &[u8],
) -> Result<Vec<usize>, NoMemory>
    ensures { IfOk result (λ places. places.items ≡ byte_places commands.now source.now) }
{
    match commands {
        Commands::Pages(_) => places_on_pages(alloc, source),
        Commands::StandardInput | Commands::Sources(..) | Commands::Bytes(_) => {
            beginnings(alloc, source)
        }
    }
}

/// The place of the source at which the byte at a place of its commands begins, by the places of all; the end of the source where it has
/// no such byte.
fn place_in(places: &[usize], source: &[u8], at: usize) -> usize
    ensures { result ≡ place_in places.now source.now at }
{
    match places.get(at) {
        Some(place) => *place,
        None => source.len(),
    }
}

/// Puts the name of a source, and the line and the column of the byte at a place of its commands.
fn put_spot_in_source(
    alloc: Global,
    out: &mut String,
    commands: &Commands,
    part: &ReadSource,
    at: usize,
) -> Result<(), NoMemory>
    ensures { OnOk result (string_bytes out.new ≡ string_bytes out.old ++ spot_in_source commands.now part.now at) }
{
    let source = part.source.as_slice();
    let places = byte_places(alloc, commands, source)?;
    out.push_str(source_name(commands, part.at))?;
    out.push_str(":")?;
    show_spot(out, source, place_in(places.as_slice(), source, at))
}

/// Puts the name of the source, and the line and the column there, of the byte at a place of all commands; nothing where no source has it.
pub(crate) fn put_place(
    alloc: Global,
    out: &mut String,
    commands: &Commands,
    parts: &[ReadSource],
    at: usize,
) -> Result<(), NoMemory>
    ensures { OnOk result (string_bytes out.new ≡ string_bytes out.old ++ place_told commands.now parts.now 0 at) }
{
    let mut from = 0;
    for part in parts {
        if at < part.to {
            return put_spot_in_source(alloc, out, commands, part, at.saturating_sub(from));
        }
        from = part.to;
    }
    Ok(())
}
