//! How many steps a session's strings take, which one hears before they are run again.
ghost use Rattle.std.specs.Prelude.{◌≡◌, ℕ};
ghost use Rattle.teco_journal.specs.Events.{event_of, events_of};
ghost use Rattle.teco_recorder.specs.Again.{steps_in, steps_again};

use teco_journal::Record;

/// Who hears how many steps the strings of a session take, before they are run again.
pub trait HearsReplay {
    // from what it was to what it is, it has heard of so many steps
    ghost hears: { Self → Self → ℕ → Type 0 };

    /// Strings that took so many steps are run again next.
    fn replays(&mut self, steps: u128)
        ensures heard { hears self.old self.new steps };
}

/// How many steps are run again for a record.
fn steps_in(told: &Record) -> u64
    ensures { result ≡ steps_in (event_of told.now) }
{
    match told {
        Record::Run { steps, .. } => *steps,
        _ => 0,
    }
}

/// How many steps are run again for some records.
pub fn steps_again(records: &[Record]) -> u128
    ensures { result ≡ steps_again (events_of records.now) }
{
    let mut steps = 0;
    for told in records {
        steps += u128::from(steps_in(told));
    }
    steps
}
