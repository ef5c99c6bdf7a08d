//! Where lines begin, in a text whose halves meet at each place in turn.
use crate::tests::rows::{Rule, all_hold, cells_of, number_or};
use std::alloc::Global;
use std::test::*;
use teco_step::line_place;

/// Whether a line begins at a place, as seen from another.
fn begins_at(halves: (&[u8], &[u8]), from: usize, n: i32, place: &str) -> bool {
    from <= halves.0.len() + halves.1.len()
        && line_place(halves.0, halves.1, from, n) as u64 == number_or(place, u64::MAX)
}

/// Whether lines begin at these places: that of a number, and those whose numbers differ by as much again.
fn begin_at(halves: (&[u8], &[u8]), from: usize, first: i32, by: i32, places: &str) -> bool {
    let mut n = first;
    for place in places.split(' ') {
        if !begins_at(halves, from, n, place) {
            return false;
        }
        n = n.saturating_add(by);
    }
    true
}

/// A text, a place in it, and as seen from there the places of lines 1, 2 and on, and those of lines 0, -1 and on.
#[derive(Clone, Copy)]
struct Lines;

impl Rule for Lines {
    fn holds(&self, _: Global, row: &str) -> bool {
        let [text, from, ahead, back, ..] = cells_of(row);
        let bytes = text.as_bytes();
        let from = number_or(from, u64::MAX) as usize;
        for cut in 0..=bytes.len() {
            let halves = bytes.split_at(cut);
            if !begin_at(halves, from, 1, 1, ahead) || !begin_at(halves, from, 0, -1, back) {
                return false;
            }
        }
        true
    }
}

const ROWS: &str = "
    // Lines of 15, 16, 17 and 32 bytes.
    0123456789abcd\n0123456789abcd\n => 0 => 15 30 30 => 0 0
    0123456789abcd\n0123456789abcd\n => 30 => 30 30 => 30 15 0 0
    0123456789abcde\n0123456789abcde\n => 0 => 16 32 32 => 0 0
    0123456789abcde\n0123456789abcde\n => 15 => 16 32 32 => 0 0
    0123456789abcde\n0123456789abcde\n => 16 => 32 32 => 16 0 0
    0123456789abcde\n0123456789abcde\n => 32 => 32 32 => 32 16 0 0
    0123456789abcdef\n0123456789abcdef\n => 0 => 17 34 34 => 0 0
    0123456789abcdef\n0123456789abcdef\n => 34 => 34 34 => 34 17 0 0
    0123456789abcdef0123456789abcde\n0123456789abcdef0123456789abcde\n => 0 => 32 64 64 => 0 0
    0123456789abcdef0123456789abcde\n0123456789abcdef0123456789abcde\n => 31 => 32 64 64 => 0 0
    0123456789abcdef0123456789abcde\n0123456789abcdef0123456789abcde\n => 64 => 64 64 => 64 32 0 0
    // Lines of one byte, each of the three line ends, and a last line without one.
    \n\n\n\n\n => 2 => 3 4 5 5 => 2 1 0 0
    0123456789\x0b0123456789abcdefg\x0c01 => 12 => 29 31 31 => 11 0 0
    0123456789\x0b0123456789abcdefg\x0c01 => 31 => 31 31 => 29 11 0 0
    0123456789abcdef0123456789 => 20 => 26 26 => 0 0
    ";

#[test]
fn lines_begin_there(rt: HostRuntime) {
    all_hold(&rt, rt.alloc(), &Lines, ROWS);
}
