//! How a command string is to be run, and how it was.
use crate::outcome::Outcome;

/// How far a command string may run: for how many steps at most, and who may ask it to stop. Where nobody asks, that is
/// [`crate::Never`], which costs nothing.
#[derive(Drop)]
pub struct Options<'a, S> {
    pub limit: u64,
    pub stop: &'a mut S,
}

/// How a command string was run: how it ended, and who was told where it last stood.
#[derive(Drop)]
pub struct Ran<W> {
    pub outcome: Outcome,
    pub watch: W,
}
