//! Reading the input.
ghost use Rattle.std.specs.Prelude.{IfErr, IfOk};
ghost use Rattle.tecol_driver.specs.Keeping.{FailsToStream, LacksInput};
ghost use Rattle.teco_fs.specs.Reading.{IsInput, IsStreamed};
ghost use Rattle.teco_fs.specs.Seen.{KeepsDisk, disk_seen};

use crate::fate::{TecolFate, no_input};
use std::alloc::Global;
use teco_core::FILE_LIMIT;
use teco_fs::Disk;
use teco_io::{Source, read_input};

/// Reads a file whole.
pub fn input_of_file<D: Disk>(alloc: Global, name: &str, disk: &mut D) -> Result<Vec<u8>, TecolFate>
    ensures input { IfOk result (λ input. IsInput (D.seen disk.old).files name.now input.items) }
    ensures fault { let seen = disk_seen D.Disk D.Input.Source in
        IfErr result (LacksInput (seen disk.old) (seen disk.new) name.now) }
    ensures keeps { let seen = disk_seen D.Disk D.Input.Source in
        KeepsDisk (seen disk.old) (seen disk.new) }
{
    match disk.open(name) {
        Ok(mut source) => input_of_stream(alloc, &mut source),
        Err(error) => Err(no_input(error)),
    }
}

/// Reads standard input to its end.
pub fn input_of_stream<S: Source>(alloc: Global, stream: &mut S) -> Result<Vec<u8>, TecolFate>
    ensures input { IfOk result (λ input. IsStreamed S.Source
        stream.old stream.new input.items) }
    ensures fault { IfErr result (FailsToStream S.Source
        stream.old stream.new) }
{
    read_input(alloc, stream, FILE_LIMIT).map_err(TecolFate::from)
}
