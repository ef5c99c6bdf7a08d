//! Another name for a file, under which its bytes stay when it is replaced.
use crate::draft::{PRIVATE, make_like, open_new};
use crate::target::is_same_file;
use std::fs::{Files, Metadata, OpenFile};
use std::io::{ErrorKind, Read, Write};
use std::os::fd::AsFd;
use std::{fs, io};

/// Copies the rest of a file into a new one, makes that like it, and waits until it outlasts a crash.
fn copy_whole<F: OpenFile + Read + Write + AsFd>(from: &mut F, to: &mut F) -> io::Result<()> {
    let about = from.metadata()?;
    io::copy(from, to)?;
    let _ = make_like(to, &about);
    to.sync_all()
}

/// Copies a file to a new one of this name, which is for its owner alone until it is like the file. If that fails, the new one is removed.
fn copy_to<R: Files>(rt: &R, file: &str, name: &str) -> io::Result<()>
where
    R::File: AsFd,
{
    let mut from = fs::open(rt, file)?;
    let mut to = open_new(rt, name, PRIVATE)?;
    let copied = copy_whole(&mut from, &mut to);
    if copied.is_err() {
        let _ = fs::remove_file(rt, name);
    }
    copied
}

/// Gives a file this name too, which nothing may have. Where the system makes no link, a copy gets the name.
fn link<R: Files>(rt: &R, file: &str, name: &str) -> io::Result<()>
where
    R::File: AsFd,
{
    match fs::hard_link(rt, file, name) {
        Err(error) if error.kind() != ErrorKind::AlreadyExists => copy_to(rt, file, name),
        done => done,
    }
}

/// Whether a name is one of the file's own. A symbolic link that leads to the file isn't.
fn is_name_of<R: Files>(rt: &R, name: &str, file: &Metadata) -> bool {
    matches!(fs::symlink_metadata(rt, name), Ok(there) if is_same_file(&there, file))
}

/// Gives a file, of which this is known, the name of a backup too. It has the temporary name first, which then becomes the other in one
/// moment. A rename of one name of a file to another would leave both, so nothing is done if the file has the name already.
pub fn link_over<R: Files>(
    rt: &R,
    file: &str,
    about: &Metadata,
    temporary: &str,
    backup: &str,
) -> io::Result<()>
where
    R::File: AsFd,
{
    if is_name_of(rt, backup, about) {
        return Ok(());
    }
    link(rt, file, temporary)?;
    let renamed = fs::rename(rt, temporary, backup);
    if renamed.is_err() {
        let _ = fs::remove_file(rt, temporary);
    }
    renamed
}
