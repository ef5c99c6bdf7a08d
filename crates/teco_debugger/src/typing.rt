//! Whether commands are typed at a terminal.
use std::fs::{self, Files};
use std::os::unix::fs::{FileTypeExt, MetadataExt};

/// Whether standard input is a terminal: a device of a number that Linux has for consoles and serial lines, or for terminals that other
/// programs draw.
pub fn is_typed<R: Files>(rt: &R) -> bool {
    match fs::metadata(rt, "/dev/stdin") {
        Ok(about) => {
            let major = (about.rdev() >> 8) & 0xfff;
            about.file_type().is_char_device() && matches!(major, 4 | 5 | 136..=143)
        }
        Err(_) => false,
    }
}
