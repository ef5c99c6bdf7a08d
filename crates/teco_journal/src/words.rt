//! The words of a line: what it tells, without the check in front of it.
ghost use Rattle.std.specs.Prelude.{◌≡◌, ◌++◌, ◌≢◌, ◌<◌, ◌^◌, ◌∷◌, [], ℕ, List, OnOk, IfOk, IfSome, IfNone, Some, codes, decimal};
ghost use Rattle.teco_source.specs.Listing.{spelled};
ghost use Rattle.teco_source.specs.declared.reader.Mode.TheVariants.{First};
ghost use Rattle.teco_journal.specs.Events.{Event, HasRecord, cut, event_of, event_told, forgot, ran, redid, undid};
ghost use Rattle.teco_journal.specs.Lines.{words_of};

use crate::numbers::{number, push_number};
use crate::record::Record;
use memchr::memchr;
use std::alloc::Global;
use teco_core::NoMemory;
use teco_source::{Mode, ReaderFault, commands, push_line};

/// Puts a text as a source spells it, and the end of its line.
fn push_text(out: &mut Vec<u8>, text: &[u8]) -> Result<(), NoMemory>
    ensures { OnOk result (out.new.items ≡ out.old.items ++ (spelled First text.now ++ codes "\n")) }
{
    if text.is_empty() {
        return out.extend_from_slice(b"\n");
    }
    push_line(out, Mode::First, 0, text, None)
}

fn push_run(out: &mut Vec<u8>, steps: u64, text: &[u8]) -> Result<(), NoMemory>
    ensures { OnOk result (out.new.items ≡ out.old.items ++ words_of (ran steps text.now)) }
{
    out.extend_from_slice(b"run ")?;
    push_number(out, steps)?;
    out.extend_from_slice(b" ")?;
    push_text(out, text)
}

fn push_rewind(out: &mut Vec<u8>, steps: u64) -> Result<(), NoMemory>
    ensures { OnOk result (out.new.items ≡ out.old.items ++ words_of (cut steps)) }
{
    out.extend_from_slice(b"rewind ")?;
    push_number(out, steps)?;
    out.extend_from_slice(b"\n")
}

/// Puts the words of a record, and the end of their line.
pub fn push_words(out: &mut Vec<u8>, told: &Record) -> Result<(), NoMemory>
    ensures { OnOk result (out.new.items ≡ out.old.items ++ words_of (event_of told.now)) }
{
    match told {
        Record::Run { steps, text } => push_run(out, *steps, text),
        Record::Undo => out.extend_from_slice(b"undo\n"),
        Record::Redo => out.extend_from_slice(b"redo\n"),
        Record::Rewind(steps) => push_rewind(out, *steps),
        Record::Forget => out.extend_from_slice(b"forget\n"),
    }
}

/// The run whose steps and text these are, if they are those of one. Of other bytes too it may tell one.
fn run_in(alloc: Global, rest: &[u8]) -> Result<Option<Record>, NoMemory>
    ensures { (steps : ℕ) (text : List ℕ) → steps < 2 ^ 64
        → rest.now ≡ decimal steps ++ codes " " ++ spelled First text ++ codes "\n"
        → IfOk result (λ told. event_told told ≡ Some (ran steps text)) }
{
    let Some(blank) = memchr(b' ', rest) else {
        return Ok(None);
    };
    let Some(steps) = number(&rest[..blank]) else {
        return Ok(None);
    };
    match commands(alloc, &rest[blank + 1..]) {
        Ok(text) => Ok(Some(Record::Run { steps, text })),
        Err(ReaderFault::Caret(_)) => Ok(None),
        Err(ReaderFault::Memory) => Err(NoMemory),
    }
}

/// The rewind whose steps these are, if they are those of one. Of other bytes too it may tell one.
fn rewind_in(rest: &[u8]) -> Option<Record>
    ensures { (steps : ℕ) → steps < 2 ^ 64 → rest.now ≡ decimal steps ++ codes "\n"
        → event_told result ≡ Some (cut steps) }
{
    let Some(end) = memchr(b'\n', rest) else {
        return None;
    };
    let Some(steps) = number(&rest[..end]) else {
        return None;
    };
    Some(Record::Rewind(steps))
}

/// The record of one word whose words these are, if they are those of one.
fn plain_record(words: &[u8]) -> Option<Record>
    ensures undo { words.now ≡ words_of undid → event_told result ≡ Some undid }
    ensures redo { words.now ≡ words_of redid → event_told result ≡ Some redid }
    ensures forget { words.now ≡ words_of forgot → event_told result ≡ Some forgot }
{
    if words == b"undo\n".as_slice() {
        return Some(Record::Undo);
    }
    if words == b"redo\n".as_slice() {
        return Some(Record::Redo);
    }
    if words == b"forget\n".as_slice() {
        return Some(Record::Forget);
    }
    None
}

/// The record whose words these are, if they are those of one. Of other bytes too it may tell one.
fn likely_record(alloc: Global, words: &[u8]) -> Result<Option<Record>, NoMemory>
    ensures { (event : Event) → HasRecord event → words.now ≡ words_of event
        → IfOk result (λ told. event_told told ≡ Some event) }
{
    if let Some(rest) = words.strip_prefix(b"run ") {
        return run_in(alloc, rest);
    }
    if let Some(rest) = words.strip_prefix(b"rewind ") {
        return Ok(rewind_in(rest));
    }
    Ok(plain_record(words))
}

/// The record whose words these are, if they are those of one: a record is told where it would be written in just these words.
pub fn record_in(alloc: Global, words: &[u8]) -> Result<Option<Record>, NoMemory>
    ensures some { IfOk result (λ told. IfSome told (λ kept. words.now ≡ words_of (event_of kept))) }
    ensures none { IfOk result (λ told. told ≡ None → (event : Event) → HasRecord event
        → words.now ≢ words_of event) }
    ensures fits { IfOk result (λ told. IfSome told (λ kept. HasRecord (event_of kept))) }
{
    let Some(record) = likely_record(alloc, words)? else {
        return Ok(None);
    };
    let mut again = Vec::new(alloc);
    push_words(&mut again, &record)?;
    if again.as_slice() == words {
        Ok(Some(record))
    } else {
        Ok(None)
    }
}
