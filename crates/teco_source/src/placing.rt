//! Where in a source the bytes begin that it stands for.
ghost use Rattle.std.specs.Prelude.{◌≡◌, IfOk};
ghost use Rattle.teco_source.specs.Places.{places_of};

use crate::reader::Reader;
use std::alloc::Global;
use teco_core::NoMemory;

/// For each byte that a source stands for, the place at which it begins in the source. Blanks at the end have places too.
pub fn beginnings(alloc: Global, source: &[u8]) -> Result<Vec<usize>, NoMemory>
    ensures begin { IfOk result (λ places. places.items ≡ places_of source.now) }
{
    let mut reader = Reader::new(alloc);
    let mut places = Vec::new(alloc);
    for (at, byte) in source.iter().enumerate() {
        reader.step(*byte)?;
        places.resize(reader.bytes_begun(), at)?;
    }
    Ok(places)
}
