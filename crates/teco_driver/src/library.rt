//! The files of `--file` are looked for in the folders of `$TECO_LIBRARY`.
ghost use Rattle.std.specs.IoError.{error_kind};
ghost use Rattle.std.specs.Prelude.{◌≡◌, IfOk, OnOk, false, map, true};
ghost use Rattle.std.specs.String.{string_bytes};
ghost use Rattle.teco_cli.specs.Conflict.{has_slash as has_a_slash};
ghost use Rattle.teco_cli.specs.StreamNames.{is_standard_input as names_standard_input};
ghost use Rattle.teco_driver.specs.Library.{AreFound, FindsFiles, IsAbsent, IsFirst, IsFound, IsPassed, IsThere, is_absence as says_absent, names_in, stands as is_final};
ghost use Rattle.teco_fs.specs.Reasons.{reason_of};
ghost use Rattle.teco_fs.specs.Seen.{KeepsDisk, disk_seen};

use std::alloc::Global;
use std::io;
use teco_cli::{Commands, is_standard_input};
use teco_core::NoMemory;
use teco_fs::{Disk, Reason, reason_of};

/// Whether an error says that there is no file of a name.
fn is_absence(error: io::Error) -> bool
    ensures { result ≡ says_absent (reason_of (error_kind error)) }
{
    matches!(reason_of(error), Reason::Missing | Reason::InNoFolder)
}

/// Whether the disk has this name, or doesn't tell. A pipe is not opened.
fn is_there<D: Disk>(name: &str, disk: &mut D) -> bool
    ensures there { let seen = disk_seen D.Disk D.Input.Source in
        result ≡ true → IsThere seen name.now disk.old disk.new }
    ensures absent { let seen = disk_seen D.Disk D.Input.Source in
        result ≡ false → IsAbsent seen disk.old disk.new }
{
    match disk.open_to_replace(name, false) {
        Ok(_) => true,
        Err(error) => !is_absence(error),
    }
}

/// Whether a file has this name: it is not standard input's, and the disk has it or doesn't tell.
fn is_file<D: Disk>(name: &str, disk: &mut D) -> bool
    ensures there { let seen = disk_seen D.Disk D.Input.Source in
        result ≡ true → (names_standard_input name.now ≡ false) × IsThere seen name.now disk.old disk.new }
    ensures passed { let seen = disk_seen D.Disk D.Input.Source in
        result ≡ false → IsPassed seen name.now disk.old disk.new }
    ensures kept { let seen = disk_seen D.Disk D.Input.Source in KeepsDisk (seen disk.old) (seen disk.new) }
{
    !is_standard_input(name) && is_there(name, disk)
}

fn has_slash(name: &[u8]) -> bool
    ensures { result ≡ has_a_slash name.now }
{
    name.iter().any(|byte| *byte == b'/')
}

/// Whether the name is not looked for.
fn stands(name: &str) -> bool
    ensures { result ≡ is_final name.now }
{
    has_slash(name.as_bytes()) || is_standard_input(name)
}

/// The name of a file in the first of these folders that has it; its own name, if none has.
fn file_in<D: Disk>(
    alloc: Global,
    folders: &[String],
    name: &str,
    disk: &mut D,
) -> Result<String, NoMemory>
    ensures first { let seen = disk_seen D.Disk D.Input.Source in
        IfOk result (λ file. IsFirst seen name.now (names_in (map string_bytes folders.now) name.now) disk.old disk.new (string_bytes file)) }
    ensures kept { let seen = disk_seen D.Disk D.Input.Source in KeepsDisk (seen disk.old) (seen disk.new) }
{
    for folder in folders {
        let path = format!(in alloc; "{folder}/{name}")?;
        if is_file(path.as_str(), disk) {
            return Ok(path);
        }
    }
    Ok(String::from_str(alloc, name)?)
}

/// The name of the file that is found for this name.
fn file_of<D: Disk>(
    alloc: Global,
    folders: &[String],
    name: &str,
    disk: &mut D,
) -> Result<String, NoMemory>
    ensures found { let seen = disk_seen D.Disk D.Input.Source in
        IfOk result (λ file. IsFound seen (map string_bytes folders.now) name.now disk.old disk.new (string_bytes file)) }
    ensures kept { let seen = disk_seen D.Disk D.Input.Source in KeepsDisk (seen disk.old) (seen disk.new) }
{
    if stands(name) {
        return Ok(String::from_str(alloc, name)?);
    }
    if is_file(name, disk) {
        return Ok(String::from_str(alloc, name)?);
    }
    file_in(alloc, folders, name, disk)
}

/// The names of the files that are found for these names.
fn files_of<D: Disk>(
    alloc: Global,
    folders: &[String],
    names: &[String],
    disk: &mut D,
) -> Result<Vec<String>, NoMemory>
    ensures found { let seen = disk_seen D.Disk D.Input.Source in
        IfOk result (λ files. AreFound seen (map string_bytes folders.now) names.now disk.old disk.new files.items) }
    ensures kept { let seen = disk_seen D.Disk D.Input.Source in KeepsDisk (seen disk.old) (seen disk.new) }
{
    let mut files = Vec::new(alloc);
    for name in names {
        let file = file_of(alloc, folders, name.as_str(), disk)?;
        files.push(file)?;
    }
    Ok(files)
}

/// Looks for the files of `--file` in these folders, and names those that are found.
pub fn find_files<D: Disk>(
    alloc: Global,
    folders: &[String],
    commands: &mut Commands,
    disk: &mut D,
) -> Result<(), NoMemory>
    ensures found { let seen = disk_seen D.Disk D.Input.Source in
        OnOk result (FindsFiles seen (map string_bytes folders.now) commands.old disk.old disk.new commands.new) }
    ensures kept { let seen = disk_seen D.Disk D.Input.Source in KeepsDisk (seen disk.old) (seen disk.new) }
{
    if folders.is_empty() {
        return Ok(());
    }
    if let Commands::Sources(names, _) = commands {
        *names = files_of(alloc, folders, names, disk)?;
    }
    Ok(())
}
