//! What a parse gives for an argument.
ghost use Rattle.clap.specs.Words.{all_of, first_of, found_of, one_of, rows_of};
ghost use Rattle.std.specs.Prelude.{[], ◌≡◌, ◌↔◌, IfOk, IfSome, IsTrue, Some, codes, length, map, nat_lt, option_map, unwrap_or};
ghost use Rattle.std.specs.String.{string_bytes};
ghost use Rattle.teco_cli.specs.Values.{IsNumber, IsProfile, number_of, text_behind, texts_behind};

use clap::ArgMatches;
use std::alloc::Global;
use teco_core::{NoMemory, Profile};

/// A text of the line, where it is given.
pub fn text_given(alloc: Global, text: Option<&str>) -> Result<Option<String>, NoMemory>
    ensures { IfOk result (λ given. option_map string_bytes given ≡ text_behind text.entry) }
{
    match text {
        Some(text) => Ok(Some(String::from_str(alloc, text)?)),
        None => Ok(None),
    }
}

/// The text of an option, where it is given.
pub fn text_at(alloc: Global, matches: &ArgMatches, id: &str) -> Result<Option<String>, NoMemory>
    ensures { IfOk result (λ given. first_of id.now (rows_of (found_of matches.now)) ≡ option_map string_bytes given) }
{
    text_given(alloc, matches.get_str(id))
}

/// The texts, of memory of their own.
fn owned(alloc: Global, texts: &[&str]) -> Result<Vec<String>, NoMemory>
    ensures { IfOk result (λ given. map string_bytes given.items ≡ map (λ s. s.now) texts.now) }
{
    let mut given = Vec::new(alloc);
    for text in texts {
        given.push(String::from_str(alloc, text)?)?;
    }
    Ok(given)
}

/// The texts of an argument that may be given more than once, of memory of their own.
pub fn texts_given(alloc: Global, texts: Option<&[&str]>) -> Result<Vec<String>, NoMemory>
    ensures { IfOk result (λ given. map string_bytes given.items ≡ texts_behind texts.entry) }
{
    match texts {
        Some(texts) => owned(alloc, texts),
        None => Ok(Vec::new(alloc)),
    }
}

/// Whether there is one.
pub fn are_given(texts: Option<&[&str]>) -> bool
    ensures { result ≡ nat_lt 0 (length (texts_behind texts.entry)) }
{
    match texts {
        Some(texts) => !texts.is_empty(),
        None => false,
    }
}

/// Whether there are several.
pub fn are_many(texts: Option<&[&str]>) -> bool
    ensures { result ≡ nat_lt 1 (length (texts_behind texts.entry)) }
{
    match texts {
        Some(texts) => texts.len() > 1,
        None => false,
    }
}

/// The texts of an argument that may be given more than once.
pub fn texts_at(alloc: Global, matches: &ArgMatches, id: &str) -> Result<Vec<String>, NoMemory>
    ensures { IfOk result (λ given. unwrap_or (all_of id.now (rows_of (found_of matches.now))) [] ≡ map string_bytes given.items) }
{
    texts_given(alloc, matches.get_strs(id))
}

/// Whether a flag is up.
pub fn flag_at(matches: &ArgMatches, id: &str) -> bool
    ensures { IsTrue result ↔ (one_of id.now (rows_of (found_of matches.now)) ≡ Some (codes "true")) }
{
    matches.get_one::<bool>(id).unwrap_or(false)
}

/// The language of the commands: the wider one if `--wide` is given.
pub fn profile_at(matches: &ArgMatches) -> Profile
    ensures { IsProfile (rows_of (found_of matches.now)) result }
{
    if flag_at(matches, "wide") {
        Profile::Wide
    } else {
        Profile::Named
    }
}

/// The number of an option, where it is given.
pub fn number_at(matches: &ArgMatches, id: &str) -> Option<u64>
    requires { IfSome (one_of id.now (rows_of (found_of matches.now))) IsNumber }
    ensures { option_map number_of (one_of id.now (rows_of (found_of matches.now))) ≡ result }
{
    matches.get_one::<u64>(id)
}
