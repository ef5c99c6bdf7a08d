//! Runs that wait for each other.
use crate::target::{is_same_file, known};
use std::fs::{File, Files, Metadata, OpenFile, TryLockError};
use std::io::ErrorKind;
use std::{fs, io};

/// How often a file is waited for that another run has replaced meanwhile.
const TURNS: u32 = 1000;

/// A file that one run can hold while others wait for it.
pub trait Lock {
    /// Waits until no other run holds the file, and holds it until this is closed.
    fn lock(&self) -> io::Result<()>;

    /// Holds the file until this is closed, unless another run holds it.
    fn try_lock(&self) -> Result<(), TryLockError>;
}

impl Lock for File {
    fn lock(&self) -> io::Result<()> {
        File::lock(self)
    }

    fn try_lock(&self) -> Result<(), TryLockError> {
        File::try_lock(self)
    }
}

/// Opens a file to be read, and tells what it is. A folder can't be read.
pub fn open_known<R: Files>(rt: &R, name: &str) -> io::Result<(R::File, Metadata)> {
    let file = fs::open(rt, name)?;
    let about = file.metadata()?;
    if about.is_dir() {
        return Err(io::Error::from(ErrorKind::IsADirectory));
    }
    Ok((file, about))
}

/// Opens the file of this name to be read once no other run holds it, holds it until it is closed, and tells what it is. A run that was
/// waited for may have put another file in its place, which is then waited for. Nothing is held where files of that kind can't be.
pub fn open_held<R: Files>(rt: &R, name: &str) -> io::Result<(R::File, Metadata)>
where
    R::File: Lock,
{
    for _ in 0..TURNS {
        let file = fs::open(rt, name)?;
        if file.lock().is_err() {
            break;
        }
        let held = file.metadata()?;
        if matches!(known(rt, name)?, Some(now) if is_same_file(&now, &held)) {
            return Ok((file, held));
        }
    }
    open_known(rt, name)
}

/// Holds a file that was opened under this name. It is an error if another run holds it, or has given the name to another file since. Nothing
/// is held where files of that kind can't be.
pub fn hold_opened<R: Files>(rt: &R, name: &str, file: &R::File) -> io::Result<()>
where
    R::File: Lock,
{
    let opened = file.metadata()?;
    match file.try_lock() {
        Ok(()) | Err(TryLockError::Error(_)) => {}
        Err(TryLockError::WouldBlock) => return Err(io::Error::from(ErrorKind::ResourceBusy)),
    }
    match known(rt, name)? {
        Some(now) if is_same_file(&now, &opened) => Ok(()),
        _ => Err(io::Error::from(ErrorKind::ResourceBusy)),
    }
}
