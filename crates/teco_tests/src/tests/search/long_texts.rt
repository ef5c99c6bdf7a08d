//! Search texts of up to the longest text, which are looked for as they stand. A search that compared each place anew would not end here.
use crate::tests::bytes::joined;
use crate::tests::rows::{Cells, Rule, all_hold, cells_of, number_or};
use crate::tests::session::random::roll;
use std::alloc::Global;
use std::test::*;
use teco_core::CaseMode;
use teco_search::{Endless, find_plain, is_plain};

/// The most bytes of a text.
const FULL: usize = 16_777_216;

/// Whether the letters of the text are alike, but for its last one, or any; where the gap is; which part of the text is looked for, by
/// its beginning and its length, with another last byte if that is said; from where; and where it is found, if it is.
const ANY: &str = "
    // All of the text, across the gap, and with another last byte.
    any => 8388608 => 0 => 16777216 => => 0 => 0
    any => 8388608 => 0 => 16777216 => + => 0 => -
    ";

/// The same of letters that are alike.
const ALIKE: &str = "
    alike => 0 => 8388608 => 8388608 => => 0 => 8388608
    alike => 0 => 8388608 => 8388608 => + => 0 => -
    ";

/// The longest text, of any letters or of those that are alike. Where memory was refused, it is asked for a second time.
fn text_of(alloc: Global, alike: bool) -> Vec<u8> {
    let mut text = Vec::new(alloc);
    let _ = text.resize(FULL, b'x').is_ok() || text.resize(FULL, b'x').is_ok();
    if let Some(last) = text.last_mut() {
        *last = b'y';
    }
    if !alike {
        let mut seed = 1;
        for byte in text.iter_mut() {
            *byte = b'a' + (roll(&mut seed) % 26) as u8;
        }
    }
    text
}

/// The part of a text that a row says.
fn part_of(alloc: Global, text: &[u8], cells: &Cells) -> Vec<u8> {
    let start = (number_or(cells[2], 0) as usize).min(text.len());
    let length = (number_or(cells[3], 0) as usize).min(text.len() - start);
    let mut part = joined(alloc, &[&text[start..start + length]]);
    if let ([other, ..], Some(last)) = (cells[4].as_bytes(), part.last_mut()) {
        *last = *other;
    }
    part
}

#[derive(Clone, Copy)]
struct LongTexts;

impl Rule for LongTexts {
    fn holds(&self, alloc: Global, row: &str) -> bool {
        let cells = cells_of(row);
        let text = text_of(alloc, cells[0].starts_with("alike"));
        let part = part_of(alloc, &text, &cells);
        let halves = text.split_at((number_or(cells[1], 0) as usize).min(text.len()));
        let from = number_or(cells[5], 0) as usize;
        if from > text.len() || !is_plain(&part) {
            return false;
        }
        let Ok(found) = find_plain(&part, CaseMode::Exact, halves, from, 1, &Endless) else {
            return false;
        };
        let start = number_or(cells[6], 0) as usize;
        if cells[6].starts_with('-') {
            found.is_none()
        } else {
            found == Some((start, start.saturating_add(part.len())))
        }
    }
}

#[test]
fn the_longest_texts_are_found(rt: HostRuntime) {
    all_hold(&rt, rt.alloc(), &LongTexts, ANY);
}

#[test]
fn the_longest_texts_of_like_bytes_are_found(rt: HostRuntime) {
    all_hold(&rt, rt.alloc(), &LongTexts, ALIKE);
}
