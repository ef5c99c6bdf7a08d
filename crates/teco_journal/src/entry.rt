//! What a request did, before it is kept.
ghost use Rattle.std.specs.Prelude.{◌≡◌, IfOk};
ghost use Rattle.teco_journal.specs.Entries.{event_in};
ghost use Rattle.teco_journal.specs.Events.{event_of};

use crate::record::Record;
use std::alloc::Global;
use teco_core::NoMemory;

/// What one request did to a session, whose text lies elsewhere.
#[derive(Clone, Copy)]
pub enum Entry<'a> {
    /// A command string took so many steps, however it ended.
    Run { steps: u64, text: &'a [u8] },
    /// The last string that was not undone was undone.
    Undo,
    /// The first undone string was done again.
    Redo,
    /// The last string that was not undone was cut after so many steps.
    Rewind(u64),
}

impl Entry<'_> {
    /// The same as a record, which has a copy of the text.
    pub fn to_record(self, alloc: Global) -> Result<Record, NoMemory>
        ensures { IfOk result (λ kept. event_of kept ≡ event_in self.entry) }
    {
        Ok(match self {
            Entry::Run { steps, text } => Record::Run {
                steps,
                text: Vec::from_slice(alloc, text)?,
            },
            Entry::Undo => Record::Undo,
            Entry::Redo => Record::Redo,
            Entry::Rewind(steps) => Record::Rewind(steps),
        })
    }
}
