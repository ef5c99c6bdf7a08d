//! Why a file or a stream can't be read or written.
ghost use Rattle.std.specs.IoError.{error_kind};
ghost use Rattle.std.specs.Prelude.{◌≡◌, ◌≢◌};
ghost use Rattle.std.specs.declared.io.ErrorKind.TheVariants as io_kind;
ghost use Rattle.teco_fs.specs.Reasons.{reason_of, reason_words};

use std::io;
use std::io::ErrorKind;

/// Why a file or a stream can't be read or written.
#[derive(Clone, Copy)]
pub enum Reason {
    /// There is no such file or folder.
    Missing,
    /// Permission is denied.
    Denied,
    /// It is a folder.
    IsFolder,
    /// A part of its path is no folder.
    InNoFolder,
    /// There is no room on the disk.
    NoRoom,
    /// The file system is read only.
    ReadOnly,
    /// Its links lead in a circle.
    Circle,
    /// Its name is too long.
    LongName,
    /// It is in use.
    InUse,
    /// It is larger than it may be.
    TooLarge,
    /// Who read it has left.
    Unread,
    /// The system refused it for a reason that has no name here.
    Refused,
    /// A read failed of what was opened, which doesn't tell why.
    ReadFailed,
    /// A write failed to what was open, which doesn't tell why.
    WriteFailed,
}

/// The reason of an error of the system.
pub fn reason_of(error: io::Error) -> Reason
    ensures { result ≡ reason_of (error_kind error) }
{
    match error.kind() {
        ErrorKind::NotFound => Reason::Missing,
        ErrorKind::PermissionDenied => Reason::Denied,
        ErrorKind::IsADirectory => Reason::IsFolder,
        ErrorKind::NotADirectory => Reason::InNoFolder,
        ErrorKind::StorageFull | ErrorKind::QuotaExceeded => Reason::NoRoom,
        ErrorKind::ReadOnlyFilesystem => Reason::ReadOnly,
        ErrorKind::FilesystemLoop => Reason::Circle,
        ErrorKind::InvalidFilename => Reason::LongName,
        ErrorKind::ResourceBusy => Reason::InUse,
        ErrorKind::FileTooLarge => Reason::TooLarge,
        ErrorKind::BrokenPipe => Reason::Unread,
        _ => Reason::Refused,
    }
}

impl Reason {
    /// It in words.
    pub fn words(self) -> &'static str
        ensures { result.now ≡ reason_words self }
    {
        match self {
            Reason::Missing => "there is no such file or folder",
            Reason::Denied => "permission is denied",
            Reason::IsFolder => "it is a folder",
            Reason::InNoFolder => "a part of its path is no folder",
            Reason::NoRoom => "there is no room on the disk",
            Reason::ReadOnly => "the file system is read only",
            Reason::Circle => "its links lead in a circle",
            Reason::LongName => "its name is too long",
            Reason::InUse => "it is in use",
            Reason::TooLarge => "it is too large",
            Reason::Unread => "its reader has left",
            Reason::Refused => "the system refused it",
            Reason::ReadFailed => "a read failed",
            Reason::WriteFailed => "a write failed",
        }
    }
}

/// What an error of the system comes to: to the one where it is want of memory, otherwise to the other.
pub fn unless_memory<F: Drop>(error: io::Error, wanted: F, other: F) -> F
    ensures memory { error_kind error ≡ io_kind.OutOfMemory → result ≡ wanted }
    ensures other { error_kind error ≢ io_kind.OutOfMemory → result ≡ other }
{
    match error.kind() {
        ErrorKind::OutOfMemory => wanted,
        _ => other,
    }
}
