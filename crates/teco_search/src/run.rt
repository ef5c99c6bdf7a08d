//! Trying a match at one start, and what that tells of the starts beside it.
ghost use Rattle.std.specs.Prelude.{◌≡◌, ◌+◌, ◌-◌, ◌<◌, ◌≤◌, ℕ, None, Some, IfOk, IfErr};
ghost use Rattle.teco_search.specs.Occurrence.{blanks_at, match_end};
ghost use Rattle.teco_search.specs.Run.{IsTry};

use crate::element::{Element, is_blank};
use crate::joined::Joined;
use crate::matching::{element_end, match_end};
use teco_core::CaseMode;

/// The end of a pattern's match at a start, if it has one, and what its first run of spaces and tabs matched there.
///
/// All starts that come to the same run end up at the same end.
#[derive(Clone, Copy)]
struct Try {
    end: Option<usize>,
    /// Where the first run was come to.
    run: usize,
    /// How many spaces and tabs there are from there on; 0 where no run was come to.
    blanks: usize,
    /// How far the elements matched.
    reached: usize,
}

/// A start without a match.
#[derive(Clone, Copy)]
pub(crate) struct Miss {
    /// So many starts beside it have none either.
    pub(crate) others: usize,
    /// How many bytes matched there.
    pub(crate) matched: usize,
}

/// The beginning of the spaces and tabs before a place.
fn blanks_start(text: &Joined, at: usize) -> usize
    ensures before { result ≤ at }
    ensures first { 0 < result → blanks_at text.now (result - 1) ≡ 0 }
    ensures run { (k : ℕ) → result ≤ k → k ≤ at → k + blanks_at text.now k ≡ at + blanks_at text.now at }
{
    let mut start = at;
    'blanks: while start > 0 {
        let Some(byte) = text.get(start - 1) else {
            return start;
        };
        if !is_blank(byte) {
            return start;
        }
        start -= 1;
    }
    start
}

/// Tries the elements at a start.
#[inline]
fn tried(mode: CaseMode, elements: &[Element], text: &Joined, start: usize) -> Try
    ensures { IsTry mode elements.now text.now start result }
{
    let mut place = start;
    'elements: for (i, element) in elements.iter().enumerate() {
        let Some(end) = element_end(mode, element, text, place) else {
            return Try {
                end: None,
                run: place,
                blanks: 0,
                reached: place,
            };
        };
        if element.is_run() {
            let (matched, reached) = match_end(mode, &elements[i + 1..], text, end);
            return Try {
                end: matched,
                run: place,
                blanks: end - place,
                reached,
            };
        }
        place = end;
    }
    Try {
        end: Some(place),
        run: place,
        blanks: 0,
        reached: place,
    }
}

/// The end of the match at a start; or, where there is none, how many starts after it have none either.
#[inline]
pub(crate) fn match_from(
    mode: CaseMode,
    elements: &[Element],
    text: &Joined,
    start: usize,
) -> Result<usize, Miss>
    ensures some { IfOk result (λ end. match_end mode elements.now text.now start ≡ Some end) }
    ensures none { IfErr result (λ miss. (k : ℕ) → start ≤ k → k ≤ start + miss.others
        → match_end mode elements.now text.now k ≡ None) }
{
    let tried = tried(mode, elements, text, start);
    match tried.end {
        Some(end) => Ok(end),
        None => Err(Miss {
            others: tried.blanks.saturating_sub(1),
            matched: tried.reached.saturating_sub(start),
        }),
    }
}

/// The end of the match at a start, if it is at or before a place; or, where there is none, how many starts before it have none either.
#[inline]
pub(crate) fn match_back(
    mode: CaseMode,
    elements: &[Element],
    text: &Joined,
    start: usize,
    to: usize,
) -> Result<usize, Miss>
    ensures some { IfOk result (λ end. (match_end mode elements.now text.now start ≡ Some end) × (end ≤ to)) }
    ensures none { IfErr result (λ miss. (k q : ℕ) → k ≤ start → start ≤ k + miss.others
        → match_end mode elements.now text.now k ≡ Some q → to < q) }
{
    let tried = tried(mode, elements, text, start);
    if let Some(end) = tried.end {
        if end <= to {
            return Ok(end);
        }
    }
    let matched = tried.reached.saturating_sub(start);
    if tried.blanks == 0 {
        return Err(Miss { others: 0, matched });
    }
    Err(Miss {
        others: tried.run - blanks_start(text, tried.run),
        matched,
    })
}
