//! Files of the system: how an output is written whole, what a disk tells of a file, where an output goes by what its file is, and whose
//! it is then. And what a disk in memory gave to a device.
use crate::tests::assert_of;
use crate::tests::bytes::{are, are_there, first_of, is};
use crate::tests::rows::{LINE, halves_at, is_row};
use std::alloc::Global;
use std::fs::{FileTimes, Files, OpenFile, Permissions};
use std::io::{ErrorKind, Read};
use std::os::fd::AsRawFd;
use std::os::unix::fs::{MetadataExt, PermissionsExt};
use std::time::SystemTime;
use std::{fs, io};
use teco_fs::{
    Disk, FileDisk, MemoryDisk, RefusedCall, Written, has_bytes, keep_file, write_output,
};
use teco_store::Slices;

mod script;

/// Whether an output of these bytes is written. What was read under this name, if a name is given, has to be what it was.
fn writes_over<D: Disk>(
    alloc: Global,
    disk: &mut D,
    name: &str,
    read: Option<&str>,
    bytes: &str,
) -> bool {
    let output = Slices::of(bytes.as_bytes());
    matches!(
        write_output(alloc, disk, name, 7, read, output),
        Ok(Written::Whole(_)),
    )
}

fn writes<D: Disk>(alloc: Global, disk: &mut D, name: &str, bytes: &str) -> bool {
    writes_over(alloc, disk, name, None, bytes)
}

/// Whether this is a regular file, which can be opened to be replaced.
fn can_be_replaced<D: Disk>(disk: &mut D, name: &str) -> bool {
    matches!(disk.open_to_replace(name, true), Ok(Some(_)))
}

/// Whether a file is told to be as it was read, or not to be so.
fn is_as_read<D: Disk>(disk: &mut D, name: &str, wanted: bool) -> bool {
    match disk.is_as_read(name) {
        Ok(same) => same == wanted,
        Err(_) => false,
    }
}

/// Octal digits as permissions.
fn mode_of(digits: &str) -> u32 {
    u32::from_str_radix(digits, 8).unwrap_or(0)
}

/// Whether a name is a link, a device or nothing, or a file whose owner is kept, or one with these permissions. Only root has a file that
/// was given away, and would own the one that replaces it.
pub(super) fn is_a(rt: &impl Files, name: &str, kind: &str) -> bool {
    let Ok(file) = rt.symlink_metadata(name) else {
        return is(kind, "gone");
    };
    match first_of(kind) {
        b'l' => file.is_symlink(),
        b'd' => !file.is_file() && !file.is_dir() && !file.is_symlink(),
        b'k' => file.uid() != 0 && (file.uid() == 1234) == (file.gid() == 4321),
        _ => file.mode() & 0o7777 == mode_of(kind),
    }
}

/// Whether an output is written to the name of a descriptor of the process, to which a link is made then.
fn puts_there<R: Files + AllocGlobal, D: Disk>(
    rt: &R,
    disk: &mut D,
    number: i32,
    link: &str,
    bytes: &str,
) -> bool {
    match format!(in rt.alloc(); "/proc/self/fd/{number}") {
        Ok(name) => writes(rt.alloc(), disk, &name, bytes) && rt.symlink(&name, link).is_ok(),
        Err(_) => false,
    }
}

/// A pipe is a stream, by its name among the descriptors and by a link to that.
fn leads_to_a_pipe<R: Files + AllocGlobal, D: Disk>(rt: &R, disk: &mut D, link: &str) -> bool {
    let Ok((mut reader, writer)) = rt.pipe() else {
        return false;
    };
    let mut read = [0; 8];
    puts_there(rt, disk, writer.as_raw_fd(), link, "abcd")
        && writes(rt.alloc(), disk, link, "efgh")
        && reader.read_exact(&mut read).is_ok()
        && are(&read, b"abcdefgh")
}

/// A name among the descriptors that leads to a file is refused, and the file stays as it is.
fn is_refused_by_its_descriptor<R: Files + AllocGlobal, D: Disk>(
    rt: &R,
    disk: &mut D,
    name: &str,
) -> bool
where
    R::File: AsRawFd,
{
    match fs::open(rt, name) {
        Ok(file) => {
            !puts_there(rt, disk, file.as_raw_fd(), "teco_test/descriptor", "new")
                && failed_by(disk.why(), "ResourceBusy")
        }
        Err(_) => false,
    }
}

/// Gives a file a time that is long past, so that whatever is written to it then has another one.
fn ages<R: Files>(rt: &R, name: &str) -> bool {
    let past = FileTimes::new().set_modified(SystemTime::UNIX_EPOCH);
    match fs::open(rt, name) {
        Ok(file) => file.set_times(past).is_ok(),
        Err(_) => false,
    }
}

/// Whether the last call of a disk that failed did so by this.
pub(super) fn failed_by(why: Option<ErrorKind>, kind: &str) -> bool {
    let told = match why {
        None => "nothing",
        Some(ErrorKind::NotFound) => "NotFound",
        Some(ErrorKind::NotADirectory) => "NotADirectory",
        Some(ErrorKind::IsADirectory) => "IsADirectory",
        Some(ErrorKind::ResourceBusy) => "ResourceBusy",
        Some(ErrorKind::StorageFull) => "StorageFull",
        Some(_) => "another",
    };
    is(told, kind)
}

/// If standard output goes to a file, that is not replaced, by whichever name.
fn is_standard_output<R: Files + AllocGlobal, D: Disk>(rt: &R, disk: &mut D, name: &str) -> bool {
    let is_file = match rt.metadata(name) {
        Ok(file) => file.is_file(),
        Err(_) => false,
    };
    !is_file || disk.target_of(name).is_err() && failed_by(disk.why(), "ResourceBusy")
}

/// What a disk answers to a line of the script, by the first letter of its verb.
fn asked<D: Disk>(alloc: Global, disk: &mut D, verb: u8, name: &str, value: &str) -> bool {
    match verb {
        b'o' => disk.open(name).is_ok(),
        b't' => disk.target_of(name).is_ok(),
        b'w' => writes(alloc, disk, name, value),
        b's' => is_as_read(disk, name, value.is_empty()),
        b'f' => writes_over(alloc, disk, name, Some(name), value),
        b'v' => can_be_replaced(disk, name),
        b'k' => keep_file(alloc, disk, name, 7, value).is_ok(),
        b'y' => has_bytes(name, Slices::of(value.as_bytes()), disk),
        _ => failed_by(disk.why(), name),
    }
}

/// Does what a line of the script says to the files of the system, by the first letter of its verb.
fn done<R: Files + AllocGlobal>(rt: &R, verb: u8, name: &str, value: &str) -> io::Result<()> {
    match verb {
        b'n' => rt.create_dir(name),
        b'u' => rt.remove_dir_all(rt.alloc(), name),
        b'm' => fs::write(rt, name, value.as_bytes()),
        b'r' => rt.remove_file(name),
        b'l' => rt.symlink(value, name),
        b'c' => rt.set_permissions(name, Permissions::from_mode(mode_of(value))),
        b'g' => rt.chown(name, Some(1234), Some(4321)),
        _ => Err(io::Error::from(ErrorKind::Other)),
    }
}

/// Whether two names are those of one file.
fn are_one(rt: &impl Files, name: &str, other: &str) -> bool {
    match (rt.symlink_metadata(name), rt.symlink_metadata(other)) {
        (Ok(one), Ok(two)) => one.dev() == two.dev() && one.ino() == two.ino(),
        _ => false,
    }
}

/// Whether a file has these bytes.
pub(super) fn reads_so<R: Files + AllocGlobal>(rt: &R, name: &str, bytes: &str) -> bool {
    match fs::read(rt, name) {
        Ok(read) => are(&read, bytes.as_bytes()),
        Err(_) => false,
    }
}

/// Whether a line of the script holds on a disk: a verb, which its first letter tells, a name and a value, or the same with a `not` before
/// them.
fn line_holds<R: Files + AllocGlobal, D: Disk>(rt: &R, disk: &mut D, line: &str) -> bool
where
    R::File: AsRawFd,
{
    let (call, wanted) = match line.strip_prefix("not ") {
        Some(call) => (call, false),
        None => (line, true),
    };
    let (verb, rest) = halves_at(call, " ");
    let (name, value) = halves_at(rest, " ");
    let held = match first_of(verb) {
        b'h' => reads_so(rt, name, value),
        b'i' => is_a(rt, name, value),
        b'p' => leads_to_a_pipe(rt, disk, name),
        b'd' => is_refused_by_its_descriptor(rt, disk, name),
        b'a' => ages(rt, name),
        b'b' => is_standard_output(rt, disk, name),
        b'j' => are_one(rt, name, value),
        verb @ (b'o' | b't' | b'w' | b's' | b'f' | b'v' | b'k' | b'y' | b'e') => asked(
            rt.alloc(),
            disk,
            verb,
            name,
            value,
        ),
        verb if wanted => done(rt, verb, name, value).is_ok() || value.starts_with("if "),
        _ => true,
    };
    held == wanted
}

/// The first line of the script that does not hold on a disk, or where it says so on another, which opens no file, as one of another
/// program; empty where all do.
fn fails_at<R: Files + AllocGlobal, D: Disk>(rt: &R, disk: &mut D, other: &mut D) -> &'static str
where
    R::File: AsRawFd,
{
    for line in script::LINES.split(LINE) {
        let held = match line.strip_prefix("other ") {
            Some(line) => line_holds(rt, other, line),
            None => !is_row(line) || line_holds(rt, disk, line),
        };
        if !held {
            return line;
        }
    }
    ""
}

/// The same on disks of its own.
fn first_failure(rt: &HostRuntime) -> &'static str {
    fails_at(rt, &mut FileDisk::new(rt), &mut FileDisk::new(rt))
}

/// Where memory was refused, the script holds the second time.
#[test]
fn writes_whole_files_and_tells_what_a_file_is(rt: HostRuntime) {
    let mut failed = first_failure(&rt);
    if !failed.is_empty() {
        failed = first_failure(&rt);
    }
    assert_of(&rt, failed, failed.is_empty());
}

/// What a disk in memory refuses, and what a device of it was given of two outputs: of each that is refused the first half. No file is
/// made. A file is as it was read, unless the disk is to tell of a change.
static DEVICES: [(RefusedCall, &str); 3] = [
    (RefusedCall::Nothing, "abcdefgh"),
    (RefusedCall::Write, "abef"),
    (RefusedCall::Changed, "abcdefgh"),
];

fn gives_a_device(alloc: Global, refused: RefusedCall, given: &str) -> bool {
    let mut disk = MemoryDisk::new(alloc, refused);
    let is_full = matches!(refused, RefusedCall::Write);
    disk.put_device("dev").is_ok()
        && writes(alloc, &mut disk, "dev", "abcd") != is_full
        && writes(alloc, &mut disk, "dev", "efgh") != is_full
        && failed_by(disk.why(), "StorageFull") == is_full
        && are_there(disk.given("dev"), given.as_bytes())
        && disk.has_only(&[])
        && is_as_read(&mut disk, "in", !matches!(refused, RefusedCall::Changed))
}

/// Where memory was refused, a second time.
#[test]
fn tells_what_a_device_was_given(rt: HostRuntime) {
    for (refused, given) in &DEVICES {
        let held = gives_a_device(rt.alloc(), *refused, given)
            || gives_a_device(rt.alloc(), *refused, given);
        assert_of(&rt, given, held);
    }
}
