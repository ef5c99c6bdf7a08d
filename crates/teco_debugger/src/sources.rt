//! The sources of a command string, and what is shown of its places.
ghost use Rattle.std.specs.Prelude.{◌≡◌, ◌∷◌, ℕ, IfOk, option_copied, slice_get};
ghost use Rattle.teco_debugger.specs.Sources.{IsShownAt, IsShownPlace, IsShownSeen, name_or_none, number_at, number_of_place, outermost_place, place_in_source, shown_name, shown_place, shown_string};
ghost use Rattle.teco_debugger.specs.Walk.{base, meant};

use crate::{Seen, Walk};
use teco_core::NoMemory;
use teco_exec::Place;

/// A source of the command string, as it is shown.
#[derive(Drop)]
pub struct SourceText {
    /// Its file's name, or the option that gives it.
    pub name: String,
    /// How many bytes of the string are before its own.
    pub from: usize,
    /// Its bytes, with each dollar sign made ESC.
    pub text: Vec<u8>,
    /// For each of its bytes of the string the place at which that begins in the source.
    pub places: Vec<usize>,
}

/// What a run shows, with its place in the source that has it.
#[derive(Drop)]
pub struct Shown {
    pub seen: Seen,
    /// The number of that source, from 0 on.
    pub number: usize,
}

/// The string as it is shown: the source of this number, or the string itself.
pub fn shown_string<'a>(sources: &'a [SourceText], number: usize, text: &'a [u8]) -> &'a [u8]
    ensures { result.now ≡ shown_string sources.now number text.now }
{
    match sources.get(number) {
        Some(source) => source.text.as_slice(),
        None => text,
    }
}

/// The name of the source of this number.
pub fn name_or_none(sources: &[SourceText], number: usize) -> &str
    ensures { result.now ≡ name_or_none (slice_get sources.now number) }
{
    match sources.get(number) {
        Some(source) => source.name.as_str(),
        None => "",
    }
}

/// The name of the source of this number, if there are several.
pub fn shown_name(sources: &[SourceText], number: usize) -> &str
    ensures { result.now ≡ shown_name sources.now number }
{
    if sources.len() > 1 && number < sources.len() {
        return sources[number].name.as_str();
    }
    ""
}

/// The number of the source that has a place of the string.
pub fn number_at(sources: &[SourceText], at: usize) -> usize
    ensures { result ≡ number_at sources.now at }
{
    let mut begun: usize = 0;
    for source in sources {
        if source.from <= at {
            begun += 1;
        }
    }
    begun.saturating_sub(1)
}

/// Where a run stands in the string: at its place, or at that of the outermost_place call.
fn outermost_place(place: &Place) -> usize
    ensures { result ≡ outermost_place place.now }
{
    match place.calls.last() {
        Some(call) => call.at,
        None => place.at,
    }
}

/// The number of the source that has the place.
fn number_of_place(sources: &[SourceText], place: Option<&Place>) -> usize
    ensures { result ≡ number_of_place sources.now (option_copied place.entry) }
{
    match place {
        Some(place) => number_at(sources, outermost_place(place)),
        None => 0,
    }
}

/// Where a place of the string is in its source.
fn shown_place(source: &SourceText, at: usize) -> usize
    ensures { result ≡ shown_place source.now at }
{
    match source.places.get(at.saturating_sub(source.from)) {
        Some(place) => *place,
        None => source.text.len(),
    }
}

/// A place of the string as it is shown, if there is a source that has it.
pub fn place_in_source(source: Option<&SourceText>, at: usize) -> usize
    ensures { result ≡ place_in_source (option_copied source.entry) at }
{
    match source {
        Some(source) => shown_place(source, at),
        None => at,
    }
}

/// Makes a place of a run the one that is shown.
fn show_in(source: &SourceText, place: &mut Place)
    ensures { IsShownPlace source.now place.old place.new }
{
    let calls = place.calls.len();
    if calls == 0 {
        place.at = shown_place(source, place.at);
        return;
    }
    let at = place.calls[calls - 1].at;
    place.calls[calls - 1].at = shown_place(source, at);
}

/// The same of what a run shows, if there is a source of this number.
fn show_seen(sources: &[SourceText], number: usize, seen: &mut Seen)
    ensures { IsShownSeen (slice_get sources.now number) seen.old seen.new }
{
    match sources.get(number) {
        None => {}
        Some(source) => match &mut seen.place {
            None => {}
            Some(place) => show_in(source, place),
        },
    }
}

/// What a run of the string under a limit of `n` steps shows, with its place as that is shown.
pub fn look(walk: &Walk, sources: &[SourceText], n: u64) -> Result<Shown, NoMemory>
    ensures seen { IfOk result (IsShownAt sources.now walk.now n) }
    ensures steps { IfOk result (λ shown. shown.seen.outcome.steps ≡ (meant (base walk.now) walk.now.text n).steps) }
    ensures typed { IfOk result (λ shown. shown.seen.typed.items ≡ (meant (base walk.now) walk.now.text n).typed) }
{
    let mut seen = walk.look(n)?;
    let number = number_of_place(sources, seen.place.as_ref());
    show_seen(sources, number, &mut seen);
    Ok(Shown { seen, number })
}
