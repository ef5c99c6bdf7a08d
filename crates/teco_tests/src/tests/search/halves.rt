//! Literals in a text of two halves, beside a plain loop over the whole text.
use crate::tests::bytes::put;
use crate::tests::rows::{Rule, all_hold, cells_of, halves_at, number_or};
use std::alloc::Global;
use std::test::*;
use teco_core::CaseMode;
use teco_search::{Endless, Pattern, find, find_byte, find_exact, find_plain};

/// A search text, a text, and how far apart the places are where the text is cut. A text is parts with a blank between two, and how often
/// a part comes stands after it.
#[derive(Clone, Copy)]
struct Found;

/// The text that a cell says.
fn spelled(alloc: Global, cell: &str) -> Vec<u8> {
    let mut text = Vec::new(alloc);
    for word in cell.split(' ') {
        let (part, times) = halves_at(word, "*");
        for _time in 0..number_or(times, 1) {
            put(&mut text, part.as_bytes());
        }
    }
    text
}

/// The first place of a text from one on that has the bytes.
fn first_from(text: &[u8], bytes: &[u8], from: usize) -> Option<usize> {
    for start in from..text.len() {
        if text[start..].starts_with(bytes) {
            return Some(start);
        }
    }
    None
}

/// The last place of a text up to one that has the bytes.
fn last_by(text: &[u8], bytes: &[u8], to: usize) -> Option<usize> {
    let mut last = None;
    for start in 0..text.len() {
        if start <= to && text[start..].starts_with(bytes) {
            last = Some(start);
        }
    }
    last
}

/// Whether an occurrence starts where a plain loop says.
fn starts_at(found: Option<(usize, usize)>, start: Option<usize>) -> bool {
    match (found, start) {
        (Some((at, _)), Some(start)) => at == start,
        (None, None) => true,
        _ => false,
    }
}

/// Whether the first and the second place of the bytes are found where a plain loop says. All letters are small ones.
fn are_plainly_found(bytes: &[u8], mode: CaseMode, text: &[u8], cut: usize, near: usize) -> bool {
    if bytes.is_empty() || cut > text.len() || near > text.len() {
        return false;
    }
    let halves = text.split_at(cut);
    let Ok(found) = find_plain(bytes, mode, halves, near, 1, &Endless) else {
        return false;
    };
    let Ok(next) = find_plain(bytes, mode, halves, near, 2, &Endless) else {
        return false;
    };
    let first = first_from(text, bytes, near);
    let second = match first {
        Some(start) => first_from(text, bytes, start.saturating_add(bytes.len())),
        None => None,
    };
    starts_at(found, first) && starts_at(next, second)
}

/// Whether each of the bytes admits itself alone.
fn admit_themselves(bytes: &[u8], mode: CaseMode) -> bool {
    match mode {
        CaseMode::Exact => true,
        CaseMode::Either => !bytes.iter().any(|byte| byte.is_ascii_alphabetic()),
    }
}

/// Whether an answer is the first place that a plain loop tells, where there is to be one.
fn is_answer(answer: Option<Option<(usize, usize)>>, first: Option<usize>, wanted: bool) -> bool {
    match answer {
        Some(found) => wanted && starts_at(found, first),
        None => !wanted,
    }
}

/// Whether the first place of bytes that admit themselves alone is found where a plain loop says, and no answer is given for others.
fn are_exactly_found(bytes: &[u8], mode: CaseMode, text: &[u8], cut: usize, near: usize) -> bool {
    if bytes.is_empty() || cut > text.len() || near > text.len() {
        return false;
    }
    let halves = text.split_at(cut);
    let first = first_from(text, bytes, near);
    let exact = admit_themselves(bytes, mode);
    is_answer(find_exact(bytes, mode, halves, near), first, exact)
        && is_answer(
            find_byte(bytes, mode, halves, near),
            first,
            exact && bytes.len() == 1,
        )
}

/// Whether the bytes are found in both case modes.
fn are_found_forward(bytes: &[u8], text: &[u8], cut: usize, near: usize) -> bool {
    are_plainly_found(bytes, CaseMode::Exact, text, cut, near)
        && are_plainly_found(bytes, CaseMode::Either, text, cut, near)
        && are_exactly_found(bytes, CaseMode::Exact, text, cut, near)
        && are_exactly_found(bytes, CaseMode::Either, text, cut, near)
}

/// Whether the bytes are found from both ends, and around the place where a text is cut.
fn are_found(pattern: &Pattern, bytes: &[u8], text: &[u8], cut: usize) -> bool {
    if bytes.is_empty() || cut > text.len() {
        return false;
    }
    let halves = text.split_at(cut);
    let near = cut.saturating_sub(bytes.len());
    let Ok(last) = find(pattern, halves, cut, -1, &Endless) else {
        return false;
    };
    are_found_forward(bytes, text, cut, near) && starts_at(last, last_by(text, bytes, cut))
}

impl Rule for Found {
    fn holds(&self, alloc: Global, row: &str) -> bool {
        let [bytes, text, apart, ..] = cells_of(row);
        let bytes = spelled(alloc, bytes);
        let text = spelled(alloc, text);
        if bytes.is_empty() {
            return false;
        }
        let Ok(pattern) = Pattern::read(alloc, &bytes, CaseMode::Exact) else {
            return false;
        };
        let apart = (number_or(apart, 1) as usize).max(1);
        for cut in 0..=text.len() {
            if cut % apart == 0 && !are_found(&pattern, &bytes, &text, cut) {
                return false;
            }
        }
        true
    }
}

const ROWS: &str = "
    // As many starts as are compared one by one, and more.
    a*31 b => c*40 a*31 b c*40
    a*32 b => c*40 a*32 b c*40
    a*33 b => c*40 a*33 b c*40 a*33 b
    ab*16 c => ab*40 c ab*40 c ab*3
    a*99 b => a*150 b a*40 b a*99 b
    b a*99 => a*120 b a*98 b a*130 => 7
    a*40 b a*59 => a*50 b a*70 b a*39 b a*80 => 7
    a*999 b => c*30 a*1020 b c*30 => 97
    abc*333 b => abc*350 b a*20 => 97
    // Texts that repeat themselves.
    a*33 => a*150
    ab*50 => ab*130 => 7
    abcab*20 => b abcab*50 => 7
    aab*40 => aab*39 aa aab*60 => 7
    // One byte, a letter and another.
    a => b*40 a b*40 a
    a => a b*3
    a => b*70
    7 => b*33 7 a*2 7
    -7- => a*20 -7 -7- a*20
    // It ends with the text, or there is none.
    a*33 => a*33
    a*33 => a*32
    a*100 => a*20
    a*32 b => a*200
    ab*50 => ab*49 ba*40
    abcde*200 => abcde*199 abcdd abcde*10 => 97
    ";

#[test]
fn literals_are_found_across_the_halves(rt: HostRuntime) {
    all_hold(&rt, rt.alloc(), &Found, ROWS);
}
