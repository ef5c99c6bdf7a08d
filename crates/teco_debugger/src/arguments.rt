//! What a parse gives for the texts of the line.
ghost use Rattle.clap.specs.Words.{first_of, found_of, rows_of};
ghost use Rattle.std.specs.Prelude.{◌≡◌, IfOk, codes, map, option_map};
ghost use Rattle.std.specs.String.{string_bytes};
ghost use Rattle.teco_cli.specs.Options.{option_texts};
ghost use Rattle.teco_cli.specs.Values.{texts_behind};

use clap::ArgMatches;
use std::alloc::Global;
use teco_cli::text_at;
use teco_core::NoMemory;

/// The texts of the line.
#[derive(Drop)]
pub struct Texts {
    pub word: Option<String>,
    pub files: Vec<String>,
    pub bytes: Option<String>,
    pub session: Option<String>,
    pub input: Option<String>,
}

/// The texts, of memory of their own.
fn owned(alloc: Global, texts: &[&str]) -> Result<Vec<String>, NoMemory>
    ensures { IfOk result (λ given. map string_bytes given.items ≡ map (λ s. s.now) texts.now) }
{
    let mut given = Vec::new(alloc);
    for text in texts {
        given.push(String::from_str(alloc, text)?)?;
    }
    Ok(given)
}

/// The texts of an argument that may be given more than once.
fn texts_given(alloc: Global, texts: Option<&[&str]>) -> Result<Vec<String>, NoMemory>
    ensures { IfOk result (λ given. map string_bytes given.items ≡ texts_behind texts.entry) }
{
    match texts {
        Some(texts) => owned(alloc, texts),
        None => Ok(Vec::new(alloc)),
    }
}

/// The same of the argument of this name.
fn texts_at(alloc: Global, matches: &ArgMatches, id: &str) -> Result<Vec<String>, NoMemory>
    ensures { IfOk result (λ given. option_texts id.now (rows_of (found_of matches.now)) ≡ map string_bytes given.items) }
{
    texts_given(alloc, matches.get_strs(id))
}

/// The texts that a parse gives.
pub fn texts_in<'a>(alloc: Global, matches: &ArgMatches<'a>) -> Result<Texts, NoMemory>
    ensures word { IfOk result (λ t. first_of (codes "execute") (rows_of (found_of matches.now)) ≡ option_map string_bytes t.word) }
    ensures files { IfOk result (λ t. option_texts (codes "file") (rows_of (found_of matches.now)) ≡ map string_bytes t.files.items) }
    ensures bytes { IfOk result (λ t. first_of (codes "bytes") (rows_of (found_of matches.now)) ≡ option_map string_bytes t.bytes) }
    ensures session { IfOk result (λ t. first_of (codes "session") (rows_of (found_of matches.now)) ≡ option_map string_bytes t.session) }
    ensures input { IfOk result (λ t. first_of (codes "input") (rows_of (found_of matches.now)) ≡ option_map string_bytes t.input) }
{
    let word = text_at(alloc, matches, "execute")?;
    let files = texts_at(alloc, matches, "file")?;
    let bytes = text_at(alloc, matches, "bytes")?;
    let session = text_at(alloc, matches, "session")?;
    let input = text_at(alloc, matches, "input")?;
    Ok(Texts {
        word,
        files,
        bytes,
        session,
        input,
    })
}
