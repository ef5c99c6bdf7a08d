//! The commands that run strings on every page.
use crate::tests::bytes::are;
use crate::tests::rows::{Rule, cells_of};
use std::alloc::Global;
use teco_cli::commands_on_pages;
use teco_core::NoMemory;

/// Strings, and the commands that run them on every page.
#[derive(Clone, Copy)]
pub(super) struct OnPages;

impl Rule for OnPages {
    fn holds(&self, alloc: Global, row: &str) -> bool {
        let [strings, bytes, ..] = cells_of(row);
        match commands_on_pages(alloc, strings.as_bytes()) {
            Ok(commands) => are(&commands, bytes.as_bytes()),
            Err(NoMemory) => false,
        }
    }
}

/// The ESCs at the end of the strings are one: two would end the command string inside the loop.
pub(super) const ROWS: &str = "
    0K => Y<0K\x1b \x1b-1-^N;P>EX\x1b\x1b
    FSa\x1bb\x1b => Y<FSa\x1bb\x1b \x1b-1-^N;P>EX\x1b\x1b
    FSa\x1bb\x1b\x1b => Y<FSa\x1bb\x1b \x1b-1-^N;P>EX\x1b\x1b
     => Y<\x1b \x1b-1-^N;P>EX\x1b\x1b
    ";
