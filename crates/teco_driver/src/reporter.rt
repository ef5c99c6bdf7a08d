//! Who tells of a run in a tool's manner.
ghost use Rattle.std.specs.Prelude.{◌≡◌};
ghost use Rattle.teco_driver.specs.Reporting.{first_report};
ghost use Rattle.teco_driver.specs.Reported.{HasReported, lines_or_lack, reporter_seen};
ghost use Rattle.teco_fs.specs.Refusing.{Tells};

use crate::reporting::{Reporting, reports_by};
use crate::{NO_MEMORY, ReadSources};
use std::alloc::Global;
use teco_cli::Line;
use teco_core::{Code, NoMemory};
use teco_io::Terminal;
use teco_journal::Entry;
use teco_serve::{Bounds, Fate, Listens};
use teco_session::{Answered, Session};

/// Tells each end that is no written or unchanged file in a line of notes.
#[derive(Drop)]
pub(crate) struct Reporter<'a, N: Terminal> {
    alloc: Global,
    line: &'a Line,
    parts: &'a ReadSources,
    reporting: Reporting,
    notes: &'a mut N,
}

/// What is told: the lines; or that memory was refused for them.
fn told(lines: &Result<String, NoMemory>) -> &[u8]
    ensures { result.now ≡ lines_or_lack lines.now }
{
    match lines {
        Ok(lines) => lines.as_bytes(),
        Err(NoMemory) => NO_MEMORY,
    }
}

impl<'a, N: Terminal> Reporter<'a, N> {
    /// No text is done yet.
    pub(crate) fn new(
        alloc: Global,
        line: &'a Line,
        parts: &'a ReadSources,
        notes: &'a mut N,
    ) -> Reporter<'a, N>
        ensures line { result.line.now ≡ line.now }
        ensures parts { result.parts.now ≡ parts.now }
        ensures reporting { result.reporting ≡ first_report line.now }
        ensures notes { result.notes.now ≡ notes.old }
        ensures same_reference { result.notes.ghost_name ≡ notes.entry.ghost_name }
    {
        Reporter {
            alloc,
            line,
            parts,
            reporting: Reporting::new(line),
            notes,
        }
    }

    /// Puts the lines on the notes at once, so that they are seen while the run goes on.
    fn tell(&mut self, lines: Result<String, NoMemory>)
        ensures told { Tells (N.screen self.old.notes.now) (N.screen self.new.notes.now) (lines_or_lack lines) }
        ensures line { self.new.line ≡ self.old.line }
        ensures parts { self.new.parts ≡ self.old.parts }
        ensures reporting { self.new.reporting ≡ self.old.reporting }
        ensures same_reference { self.new.notes.ghost_name ≡ self.old.notes.ghost_name }
    {
        let _ = self.notes.put(told(&lines));
    }
}

impl<'a, N: Terminal> Listens for Reporter<'a, N> {
    ghost hears = { λ old new heard. HasReported
        (reporter_seen old.line.now old.parts.now.list.items old.reporting (N.screen old.notes.now))
        (reporter_seen new.line.now new.parts.now.list.items new.reporting (N.screen new.notes.now)) heard };

    fn wants_place(&self) -> bool {
        true
    }

    fn did(&mut self, _entry: Entry<'_>) {}

    fn ran(
        &mut self,
        text: &[u8],
        begins: u64,
        answered: &Answered,
        bounds: Bounds,
        session: &Session,
    ) {
        let reports = reports_by(self.alloc, self.line, self.parts, self.reporting);
        let lines = reports.of_run(text, begins, answered, bounds, session);
        self.tell(lines);
        self.reporting = self.reporting.after_text(answered.answer.code(), session);
    }

    fn moved(&mut self, begins: u64, code: Option<Code>, session: &Session) {
        let reports = reports_by(self.alloc, self.line, self.parts, self.reporting);
        let lines = reports.of_move(begins, code, session);
        self.tell(lines);
        self.reporting = self.reporting.after_text(code, session);
    }

    fn left(&mut self, bytes: &[u8], broken_off: bool) {
        let reports = reports_by(self.alloc, self.line, self.parts, self.reporting);
        let lines = reports.of_left(bytes, broken_off);
        self.tell(lines);
        self.reporting = self.reporting.after_left(bytes, broken_off);
    }

    fn ended(&mut self, _line: &Line, input: &str, fate: Fate) {
        let reports = reports_by(self.alloc, self.line, self.parts, self.reporting);
        let lines = reports.of_end(input, fate);
        self.tell(lines);
        self.reporting = self.reporting.after_end();
    }
}
