//! What a session begins with.
use teco_core::Profile;

/// What a session begins with.
#[derive(Clone, Copy)]
pub struct Start<'a> {
    /// What its strings are read by.
    pub profile: Profile,
    /// How many lines a page has. With 0 the pages are those of the input.
    pub lines: usize,
    /// How many strings the history keeps. With none it keeps every string.
    pub depth: Option<usize>,
    pub input: &'a [u8],
}
