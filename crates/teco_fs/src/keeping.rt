//! The old bytes of a file that is to be written over.
ghost use Rattle.std.specs.Prelude.{◌≡◌, ◌++◌, IfErr, OnErr, OnOk};
ghost use Rattle.teco_fs.specs.State.{FilesChange, FilesPass};
ghost use Rattle.teco_fs.specs.Writing.{AddsDrafts, IsKeeping, IsWriteError, Keeps};

use crate::Disk;
use crate::output::{DRAFTS, draft_name};
use std::alloc::Global;
use std::io;
use std::io::ErrorKind;

/// Keeps what a file has under its name with the suffix after it, by the first temporary name that is free. What had that name before is
/// gone. The number is for the temporary name.
pub fn keep_file<D: Disk>(
    alloc: Global,
    disk: &mut D,
    file: &str,
    number: u32,
    suffix: &str,
) -> io::Result<()>
    ensures ok { OnOk result (FilesChange (D.seen disk.old) (D.seen disk.new) (Keeps file.now (file.now ++ suffix.now))) }
    ensures err { OnErr result (FilesChange (D.seen disk.old) (D.seen disk.new) (AddsDrafts file.now)) }
    ensures streams { (D.seen disk.new).streams ≡ (D.seen disk.old).streams }
    ensures moments { FilesPass (D.seen disk.old) (D.seen disk.new) (IsKeeping file.now (file.now ++ suffix.now)) }
    ensures error { IfErr result (IsWriteError (D.seen disk.new).gave) }
{
    let backup = format!(in alloc; "{file}{suffix}")?;
    'drafts: for draft_number in number..number.saturating_add(DRAFTS) {
        let draft = draft_name(alloc, file, draft_number)?;
        match disk.keep(file, draft.as_str(), backup.as_str()) {
            Err(error) if error.kind() == ErrorKind::AlreadyExists => {}
            done => return done,
        }
    }
    Err(io::Error::from(ErrorKind::AlreadyExists))
}
