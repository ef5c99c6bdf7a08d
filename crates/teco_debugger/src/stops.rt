//! Where a walk stops on its way.
ghost use Rattle.std.specs.Prelude.{◌≡◌, IfOk, None, length, option_copied, true};
ghost use Rattle.teco_exec.specs.Places.{FindsWanted, wanted_in};
ghost use Rattle.teco_debugger.specs.Marks.{AreMarks, is_wanted};
ghost use Rattle.teco_debugger.specs.Moving.{FindsPlace, IsFound, StandsSo, calls_of, calls_at, ends_wanted, goal, is_any_there, is_break, is_goal, is_one, is_or_any, is_place, is_spot_shown, is_there, line_break, line_stop};
ghost use Rattle.teco_debugger.specs.Walk.{base, meant};

use crate::Walk;
use crate::marks::{Places, marks_of};
use crate::sources::{SourceText, number_at, place_in_source, shown_string};
use crate::testing::is_met;
use teco_core::NoMemory;
use teco_exec::{Place, Wants, machine_laws};
use teco_messages::{Spot, spot_of};

/// The most steps after which `continue` tries strings, in all. It runs to each from the beginning.
const MOST_WORK: u64 = 100_000_000;

/// A place to stop at.
#[derive(Clone, Copy)]
pub struct Stop {
    /// The number of its source, from 0 on, or any source.
    pub source: Option<usize>,
    pub line: u64,
    /// Its column, or any.
    pub column: Option<u64>,
}

/// A place to stop at that is noted.
#[derive(Drop)]
pub struct Break {
    pub stop: Stop,
    /// The string that gives a number other than 0 where it is to stop, if that depends on one.
    pub test: Option<Vec<u8>>,
}

/// Anywhere in this line, of any source.
pub fn line_stop(line: u64) -> Stop
    ensures { result ≡ line_stop line }
{
    Stop {
        source: None,
        line,
        column: None,
    }
}

/// Anywhere in this line, whatever the state there.
pub fn line_break(line: u64) -> Break
    ensures { result ≡ line_break line }
{
    Break {
        stop: line_stop(line),
        test: None,
    }
}

/// Whether the place to stop at is in the source of this number.
fn is_in(stop: Stop, number: usize) -> bool
    ensures { result ≡ is_or_any stop.source number }
{
    match stop.source {
        Some(source) => number == source,
        None => true,
    }
}

/// Whether the place to stop at is in this column.
fn is_under(stop: Stop, column: u64) -> bool
    ensures { result ≡ is_or_any stop.column column }
{
    match stop.column {
        Some(wanted) => column == wanted,
        None => true,
    }
}

/// Whether a line and a column of a source are the place to stop at.
fn is_there(stop: Stop, number: usize, here: Spot) -> bool
    ensures { result ≡ is_there stop number here }
{
    is_in(stop, number) && here.line == stop.line && is_under(stop, here.column)
}

/// Whether a line and a column of a source, after `n` steps, are a place to stop at, and its string gives a number other than 0 there.
fn is_break(walk: &Walk, n: u64, it: &Break, number: usize, here: Spot) -> Result<bool, NoMemory>
    ensures { IfOk result (λ so. so ≡ is_break walk.now n it.now number here) }
{
    if !is_there(it.stop, number, here) {
        return Ok(false);
    }
    is_met(walk, n, &it.test)
}

/// Whether they are one of these.
fn is_one(walk: &Walk, n: u64, stops: &[Break], number: usize, here: Spot) -> Result<bool, NoMemory>
    ensures { IfOk result (λ so. so ≡ is_one walk.now n stops.now number here) }
{
    for it in stops {
        if is_break(walk, n, it, number, here)? {
            return Ok(true);
        }
    }
    Ok(false)
}

/// Whether one of these is there, whatever their strings give.
pub fn is_any_there(stops: &[Break], number: usize, here: Spot) -> bool
    ensures { result ≡ is_any_there stops.now number here }
{
    for it in stops {
        if is_there(it.stop, number, here) {
            return true;
        }
    }
    false
}

/// Whether a place of the string is one of these, where it is shown.
fn is_among(
    walk: &Walk,
    sources: &[SourceText],
    stops: &[Break],
    n: u64,
    at: usize,
) -> Result<bool, NoMemory>
    ensures { IfOk result (λ so. so ≡ is_spot_shown (is_one walk.now n stops.now) sources.now walk.now.text at) }
{
    let number = number_at(sources, at);
    let text = shown_string(sources, number, walk.text());
    let place = place_in_source(sources.get(number), at);
    if place > text.len() {
        return Ok(false);
    }
    is_one(walk, n, stops, number, spot_of(text, place))
}

/// Whether a place of a run after `n` steps is where to stop: one of these, or with fewer calls open than are sought.
fn is_goal(
    walk: &Walk,
    places: Places<'_>,
    stops: &[Break],
    n: u64,
    place: &Place,
) -> Result<bool, NoMemory>
    ensures { IfOk result (λ so. so ≡ is_goal places.entry.sources.now walk.now (goal stops.now places.entry.calls) n (calls_at place.now) place.now.at) }
{
    let calls = place.calls.len();
    if calls < places.calls {
        return Ok(true);
    }
    if calls > 0 {
        return Ok(false);
    }
    is_among(walk, places.sources, stops, n, place.at)
}

/// Whether the run stands where to stop after `n` steps, at which it stands at one of the places.
fn is_stop(walk: &Walk, places: Places<'_>, stops: &[Break], n: u64) -> Result<bool, NoMemory>
    requires { StandsSo walk.now (is_place places.sources.now walk.now (goal stops.now places.calls)) n true }
    ensures { IfOk result (StandsSo walk.now (is_goal places.entry.sources.now walk.now (goal stops.now places.entry.calls) n) n) }
{
    machine_laws();
    let seen = walk.look(n)?;
    match &seen.place {
        Some(place) => is_goal(walk, places, stops, n, place),
        // It does stand somewhere.
        None => Ok(false),
    }
}

/// How many calls are open at a place, if a run stands at one.
pub fn calls_of(place: Option<&Place>) -> usize
    ensures { result ≡ calls_of (option_copied place.entry) }
{
    match place {
        Some(place) => place.calls.len(),
        None => 0,
    }
}

/// What a look for the next step where to stop comes to.
#[derive(Clone, Copy)]
pub enum Found {
    /// This step is there.
    At(u64),
    /// None is, up to the limit or the end of the string.
    Nowhere,
    /// None before this one is, and it takes too much work to look further.
    TooFar(u64),
}

/// Whether a run that was seen last stood at a wanted place, after `n` steps.
fn ends_wanted(places: Places<'_>, place: &Option<Place>, n: u64) -> bool
    ensures { result ≡ ends_wanted (is_wanted places.entry.sources.now places.entry.marks.now places.entry.calls) n place.now }
{
    match place {
        Some(place) => place.steps == n && places.wants(place.calls.len(), place.at),
        None => false,
    }
}

/// The step at the end of the string, if that comes before the limit, from `from` on, at a wanted place: as a fault does.
fn last_place(
    walk: &Walk,
    places: Places<'_>,
    from: u64,
    limit: u64,
) -> Result<Option<u64>, NoMemory>
    requires { FindsWanted (wanted_in (base walk.now) walk.now.text (is_wanted places.sources.now places.marks.now places.calls) from) (meant (base walk.now) walk.now.text limit).steps None }
    ensures { IfOk result (FindsPlace walk.now (is_wanted places.entry.sources.now places.entry.marks.now places.entry.calls) from limit) }
{
    machine_laws();
    let seen = walk.look(limit)?;
    let n = seen.outcome.steps;
    let wanted = ends_wanted(places, &seen.place, n);
    if wanted && from <= n && n < limit {
        return Ok(Some(n));
    }
    Ok(None)
}

/// The first step from `from` on, below a limit, at which the run stands at a wanted place.
fn next_place(
    walk: &Walk,
    places: Places<'_>,
    from: u64,
    limit: u64,
) -> Result<Option<u64>, NoMemory>
    ensures { IfOk result (FindsPlace walk.now (is_wanted places.entry.sources.now places.entry.marks.now places.entry.calls) from limit) }
{
    let found = walk.seek(places, from, limit)?;
    let Some(n) = found else {
        return last_place(walk, places, from, limit);
    };
    if n < limit {
        return Ok(Some(n));
    }
    Ok(None)
}

/// The first step from `from` on, below a limit, that is where to stop, by marks of all places.
fn first_stop(
    walk: &Walk,
    places: Places<'_>,
    stops: &[Break],
    from: u64,
    limit: u64,
) -> Result<Found, NoMemory>
    requires { AreMarks places.sources.now walk.now.text stops.now places.marks.now }
    ensures { IfOk result (IsFound places.entry.sources.now walk.now (goal stops.now places.entry.calls) from limit) }
{
    let mut work = MOST_WORK;
    let mut first = from;
    while first < limit {
        let found = next_place(walk, places, first, limit)?;
        let Some(n) = found else {
            return Ok(Found::Nowhere);
        };
        let stands = is_stop(walk, places, stops, n)?;
        if stands {
            return Ok(Found::At(n));
        }
        if n > work {
            return Ok(Found::TooFar(n + 1));
        }
        work -= n;
        first = n + 1;
    }
    Ok(Found::Nowhere)
}

/// Looks for the first step from `from` on, below a limit, that is at one of these places, or has fewer calls open than `calls`.
pub fn next_stop(
    walk: &Walk,
    sources: &[SourceText],
    stops: &[Break],
    calls: usize,
    from: u64,
    limit: u64,
) -> Result<Found, NoMemory>
    ensures { IfOk result (IsFound sources.now walk.now (goal stops.now calls) from limit) }
{
    let marks = marks_of(walk.alloc(), sources, walk.text(), stops)?;
    let places = Places {
        sources,
        marks: marks.as_slice(),
        calls,
    };
    first_stop(walk, places, stops, from, limit)
}
