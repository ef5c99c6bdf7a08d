//! What no clause says of the crates below: that calls succeed where memory is ample, what is left where it is refused, and rows of
//! commands with what they do. A row that is refused memory is tried a second time.
use std::process::Abort;

pub(crate) mod bytes;
mod calls;
pub(crate) mod commands;
mod driver;
pub(crate) mod exec;
mod gap;
mod io;
mod journal;
mod laws;
mod line_commands;
mod recorder;
mod replay;
pub(crate) mod rows;
pub(crate) mod scan;
pub(crate) mod search;
pub(crate) mod session;
pub(crate) mod step;
pub(crate) mod store;
pub(crate) mod tecol;
mod undo;

/// Ends the test where what is said of a text does not hold.
pub(crate) fn assert_of(rt: &impl Abort, text: &str, holds: bool) {
    assert!(rt; holds, "{text:?}");
}
