//! A file is read whole.
ghost use Rattle.std.specs.IoError.{error_kind};
ghost use Rattle.std.specs.Prelude.{◌≡◌, ◌≤◌, IfErr, IfOk, vec_len};
ghost use Rattle.teco_core.specs.declared.limits.TheConstants.{FILE_LIMIT};
ghost use Rattle.teco_fs.specs.Reading.{IsInput, IsReadError, kind_of_fault};
ghost use Rattle.teco_fs.specs.Seen.{KeepsDisk, disk_seen};

use crate::Disk;
use std::alloc::Global;
use std::io;
use std::io::ErrorKind;
use teco_core::FILE_LIMIT;
use teco_io::{InputFault, read_input};

/// A fault of a reading as an error of the system.
fn error_of(fault: InputFault) -> io::Error
    ensures kind { error_kind result ≡ kind_of_fault fault }
{
    io::Error::from(match fault {
        InputFault::Read => ErrorKind::Other,
        InputFault::TooLarge => ErrorKind::FileTooLarge,
        InputFault::Memory => ErrorKind::OutOfMemory,
    })
}

/// Reads a file whole. [`Disk::is_as_read`] still speaks of the one that was opened to be read.
pub fn read_whole<D: Disk>(alloc: Global, name: &str, disk: &mut D) -> io::Result<Vec<u8>>
    ensures input { IfOk result (λ input. IsInput (D.seen disk.old).files name.now input.items) }
    ensures small { IfOk result (λ input. vec_len input ≤ FILE_LIMIT) }
    ensures error { let seen = disk_seen D.Disk D.Input.Source in
        IfErr result (IsReadError (seen disk.old) (seen disk.new) name.now) }
    ensures keeps { let seen = disk_seen D.Disk D.Input.Source in KeepsDisk (seen disk.old) (seen disk.new) }
{
    let mut source = disk.reopen(name)?;
    match read_input(alloc, &mut source, FILE_LIMIT) {
        Ok(input) => Ok(input),
        Err(fault) => Err(error_of(fault)),
    }
}
