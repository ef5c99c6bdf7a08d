//! What has the name of the output file.
use std::fs::{Files, Metadata, OpenFile, OpenOptions};
use std::io::{ErrorKind, Write};
use std::os::unix::fs::{FileTypeExt, MetadataExt};
use std::path::Path;
use std::{fs, io};
use teco_store::Slices;

/// How many links are followed, one after another. The system gives up after as many.
const LINKS: u32 = 40;

/// The names of the program's own standard output, of which a system has one at least.
const STANDARD_OUTPUT: [&str; 2] = ["/proc/self/fd/1", "/dev/fd/1"];

/// The folder of the process's own descriptors, each a link to what it leads to.
const DESCRIPTORS: &str = "/proc/self/fd";

/// Where the output goes.
#[derive(Drop)]
pub enum Target {
    /// To a file of this name.
    File(String),
    /// To a device, a pipe or a socket.
    Stream,
}

/// Whether both tell of the same file, whatever its names are.
pub fn is_same_file(one: &Metadata, other: &Metadata) -> bool {
    one.dev() == other.dev() && one.ino() == other.ino()
}

/// What the program's own standard output goes to, if the system has a name for it.
fn standard_output<R: Files>(rt: &R) -> Option<Metadata> {
    for name in STANDARD_OUTPUT.iter() {
        if let Ok(output) = fs::metadata(rt, *name) {
            return Some(output);
        }
    }
    None
}

/// Whether a file is the one that the program's own standard output goes to. That stays the same, and so is looked at once.
fn is_standard_output<R: Files>(rt: &R, file: &Metadata, standard: &mut Option<Metadata>) -> bool {
    if standard.is_none() {
        *standard = standard_output(rt);
    }
    matches!(standard, Some(output) if is_same_file(output, file))
}

/// Whether a link is one that the system makes for a descriptor of a process: all of these lie on one file system.
fn is_descriptor<R: Files>(rt: &R, link: &str) -> io::Result<bool> {
    match known(rt, DESCRIPTORS)? {
        Some(folder) => Ok(fs::symlink_metadata(rt, link)?.dev() == folder.dev()),
        None => Ok(false),
    }
}

/// The name at the end of the links that begin at this one; the name itself, if it is no link. There may be no file of it. A name that
/// leads to a descriptor is refused: a file that replaced the descriptor's would not be the one that its other holders write to.
pub fn end_of_links<R: Files + AllocGlobal>(rt: &R, name: &str) -> io::Result<String> {
    let mut end = String::from_str(rt.alloc(), name)?;
    for _ in 0..LINKS {
        match fs::read_link(rt, end.as_str()) {
            Ok(next) => {
                if is_descriptor(rt, end.as_str())? {
                    return Err(io::Error::from(ErrorKind::ResourceBusy));
                }
                let path = Path::new(end.as_str()).with_file_name(rt.alloc(), next.as_str())?;
                end = path.into_string();
            }
            Err(error) => {
                return match error.kind() {
                    // what is there is no link, or nothing is there
                    ErrorKind::InvalidInput | ErrorKind::NotFound => Ok(end),
                    _ => Err(error),
                };
            }
        }
    }
    Err(io::Error::from(ErrorKind::FilesystemLoop))
}

/// What is known of a file, if the look at it found one.
fn if_there(looked: io::Result<Metadata>) -> io::Result<Option<Metadata>> {
    match looked {
        Ok(about) => Ok(Some(about)),
        Err(error) => match error.kind() {
            ErrorKind::NotFound => Ok(None),
            _ => Err(error),
        },
    }
}

/// What is known of the file of this name, if it is there.
pub fn known<R: Files>(rt: &R, name: &str) -> io::Result<Option<Metadata>> {
    if_there(fs::metadata(rt, name))
}

/// Whether it is a file, and no stream. A folder is refused, and a disk: it has no end after which something could be put.
fn is_file(about: &Metadata) -> io::Result<bool> {
    if about.is_dir() {
        return Err(io::Error::from(ErrorKind::IsADirectory));
    }
    if about.file_type().is_block_device() {
        return Err(io::Error::from(ErrorKind::Unsupported));
    }
    Ok(about.is_file())
}

/// Sees that a file may be written. The file that standard output goes to is refused: replaced, it would lose what the program and its
/// caller have put there.
fn see_writable<R: Files>(
    rt: &R,
    name: &str,
    about: &Metadata,
    standard: &mut Option<Metadata>,
) -> io::Result<()> {
    let _file = OpenOptions::new().append(true).open(rt, name)?;
    if is_standard_output(rt, about, standard) {
        return Err(io::Error::from(ErrorKind::ResourceBusy));
    }
    Ok(())
}

/// Where the output of this name goes. What the file is tells that, and not where its name lies. A file has to be one that may be
/// written; what is known of it is put into `replaced`, which is nothing where no file is there. What the program's own
/// standard output goes to is put into `standard`, once it was asked for.
///
/// Links are followed to their end, so that they stay what they are. A link that leads to nothing makes the file that it leads
/// to, as `> link` does in a shell. The links are those that the system followed just before: one that it doesn't follow, as
/// another user's in /tmp, is an error.
pub fn target_of<R: Files + AllocGlobal>(
    rt: &R,
    name: &str,
    standard: &mut Option<Metadata>,
    replaced: &mut Option<Metadata>,
) -> io::Result<Target> {
    *replaced = None;
    let itself = if_there(fs::symlink_metadata(rt, name))?;
    let is_link = matches!(&itself, Some(about) if about.is_symlink());
    let there = if is_link { known(rt, name)? } else { itself };
    if let Some(about) = &there {
        if !is_file(about)? {
            return Ok(Target::Stream);
        }
    }
    let end = if is_link {
        end_of_links(rt, name)?
    } else {
        String::from_str(rt.alloc(), name)?
    };
    if let Some(about) = &there {
        see_writable(rt, end.as_str(), about, standard)?;
    }
    *replaced = there;
    Ok(Target::File(end))
}

/// Writes the bytes after what a device, a pipe or a socket has.
pub fn append<R: Files>(rt: &R, name: &str, bytes: Slices<'_>) -> io::Result<()> {
    let mut stream = OpenOptions::new().append(true).open(rt, name)?;
    let mut left = bytes;
    while let Some((slice, others)) = left.split_first() {
        stream.write_all(slice)?;
        left = others;
    }
    Ok(())
}
