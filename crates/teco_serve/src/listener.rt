//! Who hears what is done for each text of the stream.
ghost use Rattle.std.specs.Prelude.{◌≡◌};
ghost use Rattle.teco_serve.specs.Explaining.{HasTold, beginning_of, told};
ghost use Rattle.teco_serve.specs.Heard.{Heard};
ghost use Rattle.teco_serve.specs.Heard.Heard.{Did, Finished, Left, Moved, Ran};
ghost use Rattle.teco_journal.specs.Entries.{event_in};
ghost use Rattle.teco_fs.specs.Refusing.{Tells};

use crate::alarm::Bounds;
use crate::explaining::{Telling, line_of_end, line_of_left, lines_of_move, lines_of_run};
use crate::fate::Fate;
use std::alloc::Global;
use teco_cli::Line;
use teco_core::{Code, NoMemory};
use teco_io::Terminal;
use teco_journal::Entry;
use teco_session::{Answered, Session};

/// Who hears what is done for each text of the stream. One that tells of it does so in the call itself.
pub trait Listens {
    // from what it was to what it is, it has heard of this
    ghost hears: { Self → Self → Heard → Type 0 };

    /// Whether it wants to hear where a run last stood.
    fn wants_place(&self) -> bool;

    /// A request did this to the session, and its answer is not shown yet. A request that was refused did nothing, and is not told.
    fn did(&mut self, entry: Entry<'_>)
        ensures told { hears self.old self.new (Did (event_in entry.entry)) };

    /// A text was run within these bounds, and the message of its answer is shown. It begins after so many bytes of the stream.
    fn ran(
        &mut self,
        text: &[u8],
        begins: u64,
        answered: &Answered,
        bounds: Bounds,
        session: &Session,
    )
        ensures told { hears self.old self.new (Ran text.now begins answered.now bounds session.now) };

    /// A text asked for undos, redos or a rewind, and the message of a refusal is shown, if there was one. It begins after so many bytes of
    /// the stream.
    fn moved(&mut self, begins: u64, code: Option<Code>, session: &Session)
        ensures told { hears self.old self.new (Moved begins code session.now) };

    /// The serving ended before these bytes were run: in an exit or a fault, or since they come after the last pair of ESC.
    fn left(&mut self, bytes: &[u8], broken_off: bool)
        ensures told { hears self.old self.new (Left bytes.now broken_off) };

    /// The run over this input of the line ends so. The next one is over another input.
    fn ended(&mut self, line: &Line, input: &str, fate: Fate)
        ensures told { hears self.old self.new (Finished line.now input.now fate) };
}

/// Tells nothing.
#[derive(Clone, Copy)]
pub struct Silent;

impl Listens for Silent {
    ghost hears = { λ old new _. new ≡ old };

    fn wants_place(&self) -> bool {
        false
    }

    fn did(&mut self, _entry: Entry<'_>) {}

    fn ran(
        &mut self,
        _text: &[u8],
        _begins: u64,
        _answered: &Answered,
        _bounds: Bounds,
        _session: &Session,
    ) {}

    fn moved(&mut self, _begins: u64, _code: Option<Code>, _session: &Session) {}

    fn left(&mut self, _bytes: &[u8], _broken_off: bool) {}

    fn ended(&mut self, _line: &Line, _input: &str, _fate: Fate) {}
}

/// Tells each code that is shown in a line of notes, and where counts are wanted what was done for each text.
#[derive(Drop)]
pub struct Explainer<'a, N: Terminal> {
    alloc: Global,
    telling: Telling,
    notes: &'a mut N,
}

/// What is told: the lines; or, where memory lacked for them, that.
fn told(lines: &Result<String, NoMemory>) -> &[u8]
    ensures { result.now ≡ told lines.now }
{
    match lines {
        Ok(lines) => lines.as_bytes(),
        Err(NoMemory) => b"no memory to explain\n",
    }
}

impl<'a, N: Terminal> Explainer<'a, N> {
    /// No text is done yet.
    pub fn new(alloc: Global, line: &Line, notes: &'a mut N) -> Explainer<'a, N>
        ensures telling { result.telling ≡ beginning_of line.now }
        ensures notes { result.notes.now ≡ notes.old }
        ensures same_reference { result.notes.ghost_name ≡ notes.entry.ghost_name }
    {
        Explainer {
            alloc,
            telling: Telling::new(line),
            notes,
        }
    }

    /// Puts the lines on the notes at once, so that they are seen while the run goes on.
    fn tell(&mut self, lines: Result<String, NoMemory>)
        ensures told { Tells (N.screen self.old.notes.now) (N.screen self.new.notes.now) (told lines) }
        ensures telling { self.new.telling ≡ self.old.telling }
        ensures same_reference { self.new.notes.ghost_name ≡ self.old.notes.ghost_name }
    {
        let _ = self.notes.put(told(&lines));
    }
}

impl<'a, N: Terminal> Listens for Explainer<'a, N> {
    ghost hears = { λ old new heard. HasTold (record { telling = old.telling; notes = N.screen old.notes.now })
        (record { telling = new.telling; notes = N.screen new.notes.now }) heard };

    fn wants_place(&self) -> bool {
        true
    }

    fn did(&mut self, _entry: Entry<'_>) {}

    fn ran(
        &mut self,
        text: &[u8],
        _begins: u64,
        answered: &Answered,
        bounds: Bounds,
        session: &Session,
    ) {
        self.tell(lines_of_run(self.alloc, self.telling, bounds, text, answered, session));
        self.telling = self.telling.counted(session);
    }

    fn moved(&mut self, _begins: u64, code: Option<Code>, session: &Session) {
        self.tell(lines_of_move(self.alloc, self.telling, code, session));
        self.telling = self.telling.counted(session);
    }

    fn left(&mut self, bytes: &[u8], broken_off: bool) {
        self.tell(line_of_left(self.alloc, bytes, broken_off));
    }

    fn ended(&mut self, line: &Line, input: &str, fate: Fate) {
        self.tell(line_of_end(self.alloc, line, input, fate));
        self.telling = self.telling.anew();
    }
}
