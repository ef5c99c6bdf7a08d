//! Whose the new files are, and who may read and write them. What is changed is the file that was opened, and not what has its name.
use crate::unkept::Unkept;
use std::fs::{Files, Metadata, OpenFile, OpenOptions, Permissions};
use std::io;
use std::io::ErrorKind;
use std::os::fd::AsFd;
use std::os::unix::fs::{MetadataExt, OpenOptionsExt, PermissionsExt, fchown};

/// The permissions of a file that is for its owner alone.
pub const PRIVATE: u32 = 0o600;

/// Opens a new file with these permissions, as far as the process gives them to new files. What has the name already, a link too, is left
/// as it is, and the call fails.
pub fn open_new<R: Files>(rt: &R, name: &str, mode: u32) -> io::Result<R::File> {
    OpenOptions::new()
        .write(true)
        .create_new(true)
        .mode(mode)
        .open(rt, name)
}

/// Opens a regular file to be written after what it has. Where none has the name one is made, for its owner alone. It is opened to be read
/// too, since a pipe would wait for its reader.
pub fn open_extended<R: Files>(rt: &R, name: &str) -> io::Result<R::File> {
    let file = OpenOptions::new()
        .read(true)
        .append(true)
        .create(true)
        .mode(PRIVATE)
        .open(rt, name)?;
    if !file.metadata()?.is_file() {
        return Err(io::Error::from(ErrorKind::Unsupported));
    }
    Ok(file)
}

/// Cuts off what a file has after its first bytes, of which this many stay.
pub fn cut<F: OpenFile>(file: &F, length: u64) -> io::Result<()> {
    if file.metadata()?.len() <= length {
        return Ok(());
    }
    file.set_len(length)
}

/// The permissions of a file whose group could not be kept: the other group may do what everyone may.
fn without_group(mode: u32) -> u32 {
    (mode & 0o707) | ((mode & 0o7) << 3)
}

/// Gives a file the group, the owner and the permissions of another, as far as the system lets us, and says what it couldn't keep. The
/// permissions come last, so that nobody may meanwhile do more than in the end.
pub fn make_like<F: OpenFile + AsFd>(file: &F, old: &Metadata) -> Option<Unkept> {
    let has_both = fchown(file, Some(old.uid()), Some(old.gid())).is_ok();
    let has_group = has_both || fchown(file, None, Some(old.gid())).is_ok();
    let has_owner = has_both || fchown(file, Some(old.uid()), None).is_ok();
    let mode = match (has_owner, has_group) {
        (true, true) => old.mode() & 0o7777,
        (false, true) => old.mode() & 0o777,
        (_, false) => without_group(old.mode()),
    };
    let has_mode = file.set_permissions(Permissions::from_mode(mode)).is_ok();
    match (has_owner, has_group, has_mode) {
        (false, _, _) => Some(Unkept::Owner),
        (true, false, _) => Some(Unkept::Group),
        (true, true, false) => Some(Unkept::Permissions),
        (true, true, true) => None,
    }
}
