//! Reading a file, however it ends.
ghost use Rattle.std.specs.Prelude.{◌≡◌, ◌≢◌, ◌+◌, ◌<◌, ◌^◌, ℕ, List, IfOk, IfSome, None, drop, length, MatchOption};
ghost use Rattle.teco_journal.specs.Events.{events_of};
ghost use Rattle.teco_journal.specs.Lines.{check_after, check_of, line_of, written};
ghost use Rattle.teco_journal.specs.Reading.{EndsAs, Stops, Tells};
ghost use Rattle.teco_journal.specs.Progress.{Takes, progress};

use crate::check::{CHECK_LENGTH, check_of};
use crate::record::Record;
use crate::words::record_in;
use std::alloc::Global;
use teco_core::NoMemory;

/// Why a reading ended.
#[derive(Clone, Copy, Debug, PartialEq, Eq)]
pub enum Ending {
    /// All bytes are lines that tell records.
    Whole,
    /// The last line has no end, as after a crash.
    Torn,
    /// A line's check is not that of its words behind the lines before it: it was changed, or a line was lost or doubled.
    Changed,
    /// A line has its check, and its words are those of no record.
    Unknown,
}

/// What some bytes tell.
#[derive(Drop)]
pub struct Journal {
    pub records: Vec<Record>,
    /// The check of the last line that tells a record, behind which the next line is written.
    pub check: [u8; CHECK_LENGTH],
    /// How many bytes the lines have that tell the records. What is after them has to be cut off before the next line.
    pub good: usize,
    /// Why the reading ended there.
    pub ending: Ending,
}

/// The words of a line, and their check, if that stands in front of them behind the last one.
fn words_in<'a>(last: &[u8; CHECK_LENGTH], line: &'a [u8]) -> Option<(&'a [u8], [u8; CHECK_LENGTH])>
    ensures { MatchOption result ((words : List ℕ) → line.now ≢ line_of last.now words)
        (λ found. (line.now ≡ line_of last.now found.0.now) × (found.1 ≡ check_of last.now found.0.now)) }
{
    if line.len() <= CHECK_LENGTH || line[CHECK_LENGTH] != b' ' {
        return None;
    }
    let words = &line[CHECK_LENGTH + 1..];
    let check = check_of(last, words);
    if &line[..CHECK_LENGTH] == check.as_slice() {
        Some((words, check))
    } else {
        None
    }
}

/// Takes one line: its record goes to the others, or it stops the reading.
fn take_line(journal: &mut Journal, alloc: Global, line: &[u8]) -> Result<Option<Ending>, NoMemory>
    requires room { journal.old.good + length line.now < 2 ^ 63 }
    ensures takes { IfOk result (λ stop. stop ≡ None → Takes (progress journal.old) line.now (progress journal.new)) }
    ensures stops { IfOk result (λ stop. IfSome stop (λ reason. (journal.new ≡ journal.old)
        × Stops journal.old.check line.now reason)) }
{
    let Some(found) = words_in(&journal.check, line) else {
        return Ok(Some(Ending::Changed));
    };
    let Some(record) = record_in(alloc, found.0)? else {
        return Ok(Some(Ending::Unknown));
    };
    journal.records.push(record)?;
    let check = found.1;
    journal.check = check;
    journal.good += line.len();
    Ok(None)
}

/// Reads what some bytes tell behind the last check, whichever bytes they are. It lacks memory, or tells the records, the place up to
/// which the bytes are good, and why it stopped there.
pub fn read_journal(
    alloc: Global,
    last: [u8; CHECK_LENGTH],
    bytes: &[u8],
) -> Result<Journal, NoMemory>
    ensures tells { IfOk result (λ journal. Tells last bytes.now (events_of journal.records.items)) }
    ensures good { IfOk result (λ journal. journal.good ≡ length (written last (events_of journal.records.items))) }
    ensures check { IfOk result (λ journal. journal.check ≡ check_after last (events_of journal.records.items)) }
    ensures ending { IfOk result (λ journal. EndsAs journal.check (drop journal.good bytes.now) journal.ending) }
{
    let mut journal = Journal {
        records: Vec::new(alloc),
        check: last,
        good: 0,
        ending: Ending::Whole,
    };
    for (at, byte) in bytes.iter().enumerate() {
        if *byte != b'\n' {
            continue;
        }
        let line = &bytes[journal.good..at + 1];
        if let Some(reason) = take_line(&mut journal, alloc, line)? {
            journal.ending = reason;
            return Ok(journal);
        }
    }
    if journal.good < bytes.len() {
        journal.ending = Ending::Torn;
    }
    Ok(journal)
}
