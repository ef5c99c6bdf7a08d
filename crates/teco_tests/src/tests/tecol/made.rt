//! What `tecol` makes of an input.
use super::{checks, fixes, listings, sources};
use crate::tests::bytes::are;
use crate::tests::rows::{Rule, all_hold, halves_at, number_or};
use std::alloc::Global;
use std::test::*;
use teco_core::{NoMemory, Profile};
use tecol_driver::{Made, TecolLine, TecolMode, make};

/// What a row holds of.
#[derive(Clone, Copy)]
enum Wanted {
    /// The bytes are those of the second cell.
    Fine,
    /// The lines of a check are those of the second cell, and tell no fault; and not all was checked.
    Unchecked,
    /// The lines of a check are those of the second cell, and tell a fault.
    Faulty,
    /// A caret can't be read, at the place that the second cell has.
    Unreadable,
}

/// What is made, whether the words of each command are beside it, what a row holds of, and the language. A row is an input, and what is made of it.
#[derive(Clone, Copy)]
struct Makes(TecolMode, bool, Wanted, Profile);

impl Makes {
    /// What a line of this mode makes of an input.
    fn made_of(&self, alloc: Global, input: &str) -> Result<Made, NoMemory> {
        let line = TecolLine {
            input: String::from_str(alloc, "-")?,
            output: String::from_str(alloc, "-")?,
            mode: self.0,
            profile: self.3,
            words: self.1,
        };
        make(alloc, &line, input.as_bytes())
    }
}

impl Rule for Makes {
    fn holds(&self, alloc: Global, row: &str) -> bool {
        let (input, cell) = halves_at(row, " => ");
        match (self.made_of(alloc, input), self.2) {
            (Ok(Made::Fine(bytes)), Wanted::Fine) => are(&bytes, cell.as_bytes()),
            (Ok(Made::Unchecked(lines)), Wanted::Unchecked) => are(&lines, cell.as_bytes()),
            (Ok(Made::Faulty(lines)), Wanted::Faulty) => are(&lines, cell.as_bytes()),
            (Ok(Made::Unreadable(at)), Wanted::Unreadable) => number_or(cell, u64::MAX)
                == at as u64,
            _ => false,
        }
    }
}

fn in_named(mode: TecolMode, words: bool, wanted: Wanted) -> Makes {
    Makes(mode, words, wanted, Profile::Named)
}

fn in_wide(mode: TecolMode, words: bool, wanted: Wanted) -> Makes {
    Makes(mode, words, wanted, Profile::Wide)
}

/// The tables. Past the last there are no rows. An array of them would cost the proof more.
fn table(at: usize) -> (Makes, &'static str) {
    match at {
        0 => (
            in_named(TecolMode::CheckSource, false, Wanted::Faulty),
            checks::FAULTS,
        ),
        1 => (
            in_named(TecolMode::CheckSource, false, Wanted::Fine),
            checks::HINTS,
        ),
        2 => (
            in_named(TecolMode::CheckBytes, false, Wanted::Faulty),
            checks::BYTES,
        ),
        3 => (
            in_named(TecolMode::Listing, false, Wanted::Fine),
            listings::LISTED,
        ),
        4 => (
            in_named(TecolMode::Listing, true, Wanted::Fine),
            listings::WORDED,
        ),
        5 => (
            in_named(TecolMode::Again, true, Wanted::Fine),
            listings::AGAIN,
        ),
        6 => (
            in_named(TecolMode::Bytes, false, Wanted::Fine),
            sources::READ,
        ),
        7 => (
            in_named(TecolMode::Bytes, false, Wanted::Unreadable),
            sources::UNREADABLE,
        ),
        8 => (
            in_wide(TecolMode::CheckSource, false, Wanted::Faulty),
            checks::WIDE_FAULTS,
        ),
        9 => (
            in_wide(TecolMode::CheckBytes, false, Wanted::Fine),
            checks::WIDE_BYTES,
        ),
        10 => (
            in_wide(TecolMode::Listing, true, Wanted::Fine),
            listings::WIDE_WORDED,
        ),
        11 => (
            in_named(TecolMode::CheckSource, false, Wanted::Unchecked),
            checks::UNCHECKED,
        ),
        12 => (
            in_wide(TecolMode::CheckSource, false, Wanted::Unchecked),
            checks::WIDE_UNCHECKED,
        ),
        13 => (
            in_named(TecolMode::FixSource, false, Wanted::Fine),
            fixes::SOURCES,
        ),
        14 => (
            in_named(TecolMode::FixBytes, false, Wanted::Fine),
            fixes::BYTES,
        ),
        _ => (in_named(TecolMode::Bytes, false, Wanted::Fine), ""),
    }
}

#[test]
fn inputs_become_what_their_rows_say(rt: HostRuntime) {
    for at in 0..32 {
        let (makes, rows) = table(at);
        all_hold(&rt, rt.alloc(), &makes, rows);
    }
}
