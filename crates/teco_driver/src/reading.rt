//! An input is read: a file, also one that is to be edited in place, or standard input.
ghost use Rattle.std.specs.Prelude.{◌≡◌, ◌≤◌, IfErr, IfOk, false, true, vec_len};
ghost use Rattle.teco_core.specs.declared.limits.TheConstants.{FILE_LIMIT};
ghost use Rattle.teco_cli.specs.StreamNames.{is_standard_input};
ghost use Rattle.teco_driver.specs.Run.{FailsToStream, Lacks, LacksInput, input_from, named_input, standard_input};
ghost use Rattle.teco_fs.specs.Reading.{IsInput, IsStreamed};
ghost use Rattle.teco_fs.specs.Seen.{KeepsDisk, disk_seen};

use crate::fates::no_input;
use crate::is_streamed;
use std::alloc::Global;
use teco_cli::{Line, is_standard_input};
use teco_core::FILE_LIMIT;
use teco_fs::Disk;
use teco_io::{Source, read_input};
use teco_serve::Fate;

/// Reads a file whole.
pub fn input_of_file<D: Disk>(alloc: Global, name: &str, disk: &mut D) -> Result<Vec<u8>, Fate>
    ensures input { IfOk result (λ input. IsInput (D.seen disk.old).files name.now input.items) }
    ensures small { IfOk result (λ input. vec_len input ≤ FILE_LIMIT) }
    ensures fault { let seen = disk_seen D.Disk D.Input.Source in
        IfErr result (LacksInput (seen disk.old) (seen disk.new) name.now) }
    ensures keeps { let seen = disk_seen D.Disk D.Input.Source in KeepsDisk (seen disk.old) (seen disk.new) }
{
    let mut source = match disk.open(name) {
        Ok(source) => source,
        Err(error) => return Err(no_input(error)),
    };
    match read_input(alloc, &mut source, FILE_LIMIT) {
        Ok(input) => Ok(input),
        Err(fault) => Err(Fate::from(fault)),
    }
}

/// Reads a regular file whole, which is to be edited in place. If it `waits`, it first waits for other runs that do so with the file.
fn input_in_place<D: Disk>(
    alloc: Global,
    name: &str,
    waits: bool,
    disk: &mut D,
) -> Result<Vec<u8>, Fate>
    ensures input { IfOk result (λ input. IsInput (D.seen disk.old).files name.now input.items) }
    ensures small { IfOk result (λ input. vec_len input ≤ FILE_LIMIT) }
    ensures fault { let seen = disk_seen D.Disk D.Input.Source in
        IfErr result (Lacks true (named_input (seen disk.old) (seen disk.new) name.now)) }
    ensures keeps { let seen = disk_seen D.Disk D.Input.Source in KeepsDisk (seen disk.old) (seen disk.new) }
{
    let mut source = match disk.open_to_replace(name, waits) {
        Ok(Some(source)) => source,
        Ok(None) => return Err(Fate::NotRegular),
        Err(error) => return Err(no_input(error)),
    };
    match read_input(alloc, &mut source, FILE_LIMIT) {
        Ok(input) => Ok(input),
        Err(fault) => Err(Fate::from(fault)),
    }
}

/// Reads an input of the line whole, which is a file. A run waits for others that edit the file in place only if it has its commands
/// already: one that awaits them may take hours.
pub fn input_of<D: Disk>(
    alloc: Global,
    line: &Line,
    name: &str,
    disk: &mut D,
) -> Result<Vec<u8>, Fate>
    ensures input { IfOk result (λ input. IsInput (D.seen disk.old).files name.now input.items) }
    ensures small { IfOk result (λ input. vec_len input ≤ FILE_LIMIT) }
    ensures fault { let seen = disk_seen D.Disk D.Input.Source in
        IfErr result (Lacks line.now.in_place (named_input (seen disk.old) (seen disk.new) name.now)) }
    ensures keeps { let seen = disk_seen D.Disk D.Input.Source in KeepsDisk (seen disk.old) (seen disk.new) }
{
    if line.in_place {
        return input_in_place(alloc, name, !is_streamed(line), disk);
    }
    input_of_file(alloc, name, disk)
}

/// Reads standard input to its end.
pub fn input_of_stream<S: Source>(alloc: Global, source: &mut S) -> Result<Vec<u8>, Fate>
    ensures input { IfOk result (λ input. IsStreamed S.Source
        source.old source.new input.items) }
    ensures small { IfOk result (λ input. vec_len input ≤ FILE_LIMIT) }
    ensures fault { IfErr result (FailsToStream S.Source
        source.old source.new) }
{
    match read_input(alloc, source, FILE_LIMIT) {
        Ok(input) => Ok(input),
        Err(fault) => Err(Fate::from(fault)),
    }
}

/// Reads an input of the line whole, standard input or a file.
pub fn input_at<S: Source, D: Disk>(
    alloc: Global,
    line: &Line,
    name: &str,
    stream: &mut S,
    disk: &mut D,
) -> Result<Vec<u8>, Fate>
    ensures input { let seen = disk_seen D.Disk D.Input.Source in
        IfOk result (λ input. (input_from (is_standard_input name.now) (standard_input S.Source stream.old stream.new)
        (named_input (seen disk.old) (seen disk.new) name.now)).is_input input.items) }
    ensures small { IfOk result (λ input. vec_len input ≤ FILE_LIMIT) }
    ensures fault { let seen = disk_seen D.Disk D.Input.Source in
        IfErr result (Lacks line.now.in_place (input_from (is_standard_input name.now)
        (standard_input S.Source stream.old stream.new) (named_input (seen disk.old) (seen disk.new) name.now))) }
    ensures keeps { let seen = disk_seen D.Disk D.Input.Source in KeepsDisk (seen disk.old) (seen disk.new) }
    ensures still { is_standard_input name.now ≡ false → stream.new ≡ stream.old }
{
    if is_standard_input(name) {
        return input_of_stream(alloc, stream);
    }
    input_of(alloc, line, name, disk)
}
