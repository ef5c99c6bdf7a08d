//! Searches that give up, where patience has ended before they begin. The text is more than half a million letters.
use crate::tests::rows::{Rule, all_hold, cells_of, number_or};
use std::alloc::Global;
use std::test::*;
use teco_core::CaseMode;
use teco_search::{Endless, GivenUp, Patience, Pattern, find};

/// Patience that has ended.
#[derive(Clone, Copy)]
struct Ended;

impl Patience for Ended {
    fn has_ended(&self) -> bool {
        true
    }
}

/// How many letters the text has: each is an `x`, but for the last one, which is a `y`.
const LETTERS: usize = 600_000;

/// A search text; whether it is looked for from the front or from the back; how many of its occurrences; and where the last of these is
/// found where patience has ended, and with patience without end.
const ROWS: &str = "
    // A match is tried at each place.
    xx\x0ex => front => 1 => given up => 599997
    xx\x0ex\x05X => back => 1 => given up => none
    // A match is tried at few places.
    xx\x0ex => back => 1 => 599997 => 599997
    // No place has the rarest byte.
    \x05dx => front => 1 => none => none
    // What is looked for as it stands is not given up.
    xxy => front => 1 => 599997 => 599997
    xxz => front => 1 => none => none
    yx => back => 1 => none => none
    x => front => 600000 => none => none
    x => back => 600000 => none => none
    x => front => 1000 => 999 => 999
    // Many matches are passed.
    \x18 => front => 600001 => none => none
    ";

#[derive(Clone, Copy)]
struct GivesUp;

fn text_of(alloc: Global) -> Vec<u8> {
    let mut text = Vec::new(alloc);
    let _ = text.resize(LETTERS, b'x').is_ok() || text.resize(LETTERS, b'x').is_ok();
    if let Some(last) = text.last_mut() {
        *last = b'y';
    }
    text
}

/// Whether a cell says what a search told.
fn says(cell: &str, told: Result<Option<(usize, usize)>, GivenUp>) -> bool {
    match told {
        Err(GivenUp) => cell.starts_with("given up"),
        Ok(None) => cell.starts_with("none"),
        Ok(Some((start, _))) => number_or(cell, 0) == start as u64,
    }
}

impl Rule for GivesUp {
    fn holds(&self, alloc: Global, row: &str) -> bool {
        let [sought, side, count, ended, endless, ..] = cells_of(row);
        let text = text_of(alloc);
        if sought.is_empty() || text.len() < LETTERS {
            return false;
        }
        let Ok(pattern) = Pattern::read(alloc, sought.as_bytes(), CaseMode::Exact) else {
            return false;
        };
        let count = (number_or(count, 1) % 1_000_000) as i32;
        let (from, n) = if side.starts_with("front") {
            (0, count)
        } else {
            (text.len(), -count)
        };
        if n == 0 {
            return false;
        }
        let halves = text.split_at(LETTERS / 2);
        says(ended, find(&pattern, halves, from, n, &Ended))
            && says(endless, find(&pattern, halves, from, n, &Endless))
    }
}

#[test]
fn searches_are_given_up(rt: HostRuntime) {
    all_hold(&rt, rt.alloc(), &GivesUp, ROWS);
}
