//! The descriptors of standard input, standard output and standard error.
use std::fs::{Files, OpenOptions};
use std::mem::ManuallyDrop;
use std::os::fd::AsRawFd;

/// What a closed descriptor is opened on.
const NOTHING: &str = "/dev/null";

/// Opens those of the descriptors 0 to 2 that are closed, so that no file that is opened later takes their place. They stay as useless as
/// closed ones: 0 can't be read, and 1 and 2 can't be written to.
pub fn hold_standard_streams<R: Files>(rt: &R)
where
    R::File: AsRawFd,
{
    for number in 0..3 {
        let is_input = number == 0;
        let opened = OpenOptions::new()
            .read(!is_input)
            .write(is_input)
            .open(rt, NOTHING);
        if let Ok(file) = opened
            && file.as_raw_fd() == number
        {
            // A descriptor that is held stays open until the process ends.
            let _held = ManuallyDrop::new(file);
        }
    }
}
