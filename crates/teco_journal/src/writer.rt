//! Writing records, each as a line.
ghost use Rattle.std.specs.Prelude.{◌≡◌, ◌++◌, OnOk, OnErr};
ghost use Rattle.teco_journal.specs.Events.{event_of};
ghost use Rattle.teco_journal.specs.Lines.{check_of, line_of, words_of};

use crate::check::{CHECK_LENGTH, check_of};
use crate::record::Record;
use crate::words::push_words;
use teco_core::NoMemory;

/// Puts the line of a record behind the last check, which then is the check of that line. Where memory lacks, nothing has changed.
pub fn push_record(
    out: &mut Vec<u8>,
    last: &mut [u8; CHECK_LENGTH],
    told: &Record,
) -> Result<(), NoMemory>
    ensures line { OnOk result (out.new.items ≡ out.old.items ++ line_of last.old (words_of (event_of told.now))) }
    ensures check { OnOk result (last.new ≡ check_of last.old (words_of (event_of told.now))) }
    ensures err { OnErr result ((out.new.items ≡ out.old.items) × (last.new ≡ last.old)) }
{
    let alloc = *out.allocator();
    let mut words = Vec::new(alloc);
    push_words(&mut words, told)?;
    let check = check_of(last, &words);
    let mut line = Vec::from_slice(alloc, &check)?;
    line.extend_from_slice(b" ")?;
    line.extend_from_slice(&words)?;
    out.extend_from_slice(&line)?;
    *last = check;
    Ok(())
}
