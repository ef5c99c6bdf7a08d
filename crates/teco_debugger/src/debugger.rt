//! The commands, done by a walk.
ghost use Rattle.std.specs.Prelude.{◌≡◌, ◌+◌, ◌++◌, ◌∷◌, [], IfOk, None, Ok, OnOk, slice_get};
ghost use Rattle.std.specs.String.{string_bytes};
ghost use Rattle.teco_debugger.specs.Commands.{IsAnswerTo, AnswersCommand, AnswersCounted, AnswersPlain, Deletes, Finishes, GoesByFound, GoesOnTo, GoesOnToStop, GoesOrSays, HasOpenCalls, NotesTest, ShowsSeen, TakesBack, Watches, asked, noted, or_none_before, test_in, words_without};
ghost use Rattle.teco_debugger.specs.Moving.{Arrives, IsFound, MovesTo, SameRun, goal, line_break};
ghost use Rattle.teco_source.specs.Source.{commands_of};

use crate::around::show_around;
use crate::breaks::show_stops;
use crate::command::{is_empty_line, test_in};
use crate::help::{show_help, verb_rows};
use crate::history::show_history;
use crate::listing::{show_register, show_registers, show_state, show_text};
use crate::moving::{ahead, behind};
use crate::saying::{show_far, show_typed, show_words, words_without};
use crate::showing::{show_step, show_where};
use crate::sources::{SourceText, look, shown_name, shown_string};
use crate::stops::{Break, Found, Stop, calls_of, line_break, next_stop};
use crate::view::View;
use crate::watching::nearest_other;
use crate::{CommandFault, Counted, DebuggerCommand, Plain, Walk, Watch, Way};
use std::alloc::Global;
use teco_core::NoMemory;
use teco_source::{ReaderFault, commands};
use teco_store::Desk;

/// A walk, with what the commands need beside it.
#[derive(Drop)]
pub struct Debugger {
    walk: Walk,
    limit: u64,
    /// Where the walk stood before each move that can be taken back.
    moves: Vec<u64>,
    /// The places to stop at, in the order in which they were noted.
    stops: Vec<Break>,
    /// The command that an empty line asks for.
    again: Option<DebuggerCommand>,
    /// The sources of the string, in their order; none where it is shown as it is.
    sources: Vec<SourceText>,
}

impl Debugger {
    pub fn new(walk: Walk, limit: u64, sources: Vec<SourceText>) -> Debugger
        ensures walk { result.walk ≡ walk }
        ensures limit { result.limit ≡ limit }
        ensures moves { result.moves.items ≡ [] }
        ensures stops { result.stops.items ≡ [] }
        ensures again { result.again ≡ None }
        ensures sources { result.sources ≡ sources }
    {
        let moves = Vec::new(walk.alloc());
        let stops = Vec::new(walk.alloc());
        Debugger {
            walk,
            limit,
            moves,
            stops,
            again: None,
            sources,
        }
    }

    /// Shows where the walk stands.
    fn show(&self, out: &mut String, view: View) -> Result<(), NoMemory>
        ensures { OnOk result (ShowsSeen view self.now.sources.items self.now.walk (string_bytes out.old) (string_bytes out.new)) }
    {
        let sources = self.sources.as_slice();
        let there = look(&self.walk, sources, self.walk.steps())?;
        let name = shown_name(sources, there.number);
        let string = shown_string(sources, there.number, self.walk.text());
        match view {
            View::Step => show_step(out, &self.walk, name, string, &there.seen),
            View::Where => show_where(out, &self.walk, name, string, &there.seen),
            View::Around(n) => show_around(out, &self.walk, name, string, &there.seen, n),
            View::Typed => show_typed(out, there.seen.typed.as_slice()),
        }
    }

    /// The last command, to be done again.
    fn last_again(&self) -> Result<DebuggerCommand, CommandFault>
        ensures { result ≡ or_none_before self.now.again }
    {
        match self.again {
            Some(command) => Ok(command),
            None => Err(CommandFault::NoneBefore),
        }
    }

    /// What a line asks: an empty one asks for the last command again.
    pub fn asked(&self, line: &[u8]) -> Result<DebuggerCommand, CommandFault>
        ensures { result ≡ asked self.now line.now }
    {
        if is_empty_line(line) {
            return self.last_again();
        }
        DebuggerCommand::of(self.sources.as_slice(), line)
    }

    /// Goes to a step, and shows where the walk then stands.
    fn arrive(&mut self, out: &mut String, n: u64) -> Result<(), NoMemory>
        requires { string_bytes out.old ≡ [] }
        ensures arrives { OnOk result (Arrives n self.old self.new (string_bytes out.new)) }
        ensures moves { self.new.moves ≡ self.old.moves }
        ensures same { SameRun self.old self.new }
    {
        self.walk.go(n)?;
        self.show(out, View::Step)
    }

    /// The same, as a move that can be taken back.
    fn go(&mut self, out: &mut String, n: u64) -> Result<(), NoMemory>
        requires { string_bytes out.old ≡ [] }
        ensures moves { OnOk result (MovesTo n self.old self.new (string_bytes out.new)) }
        ensures same { SameRun self.old self.new }
    {
        self.moves.push(self.walk.steps())?;
        self.arrive(out, n)
    }

    /// The same, if there is such a step; else says why there is none.
    fn go_or_say(&mut self, out: &mut String, to: Option<u64>, words: &str) -> Result<(), NoMemory>
        requires { string_bytes out.old ≡ [] }
        ensures goes { OnOk result (GoesOrSays to words.now self.old self.new (string_bytes out.new)) }
        ensures same { SameRun self.old self.new }
    {
        match to {
            Some(n) => self.go(out, n),
            None => show_words(out, words),
        }
    }

    /// Where the walk stood before a move, of those that can be taken back.
    fn before_move(&self, at: usize) -> Option<u64>
        ensures { result ≡ slice_get self.now.moves.items at }
    {
        self.moves.get(at).copied()
    }

    /// Takes moves back until so many are left.
    fn take_back(&mut self, out: &mut String, left: usize) -> Result<(), NoMemory>
        requires { string_bytes out.old ≡ [] }
        ensures back { OnOk result (TakesBack left (slice_get self.old.moves.items left) self.old self.new (string_bytes out.new)) }
        ensures same { SameRun self.old self.new }
    {
        match self.before_move(left) {
            Some(steps) => {
                self.moves.truncate(left);
                self.arrive(out, steps)
            }
            None => show_words(out, "no move to take back"),
        }
    }

    /// Looks for the next step at one of these places, or with fewer calls open than `calls`.
    fn next_stop(&self, stops: &[Break], calls: usize) -> Result<Found, NoMemory>
        ensures { IfOk result (IsFound self.now.sources.items self.now.walk (goal stops.now calls) (self.now.walk.steps + 1) self.now.limit) }
    {
        let steps = self.walk.steps();
        if steps >= self.limit {
            return Ok(Found::Nowhere);
        }
        let sources = self.sources.as_slice();
        next_stop(&self.walk, sources, stops, calls, steps + 1, self.limit)
    }

    /// Goes to the step that was found, or says why there is none.
    fn go_by(&mut self, out: &mut String, found: Found) -> Result<(), NoMemory>
        requires { string_bytes out.old ≡ [] }
        ensures goes { OnOk result (GoesByFound found self.old self.new (string_bytes out.new)) }
        ensures same { SameRun self.old self.new }
    {
        match found {
            Found::At(n) => self.go(out, n),
            Found::Nowhere => show_words(out, "no such step comes"),
            Found::TooFar(n) => show_far(out, n),
        }
    }

    /// Goes on to the next step in this line.
    fn go_on_to(&mut self, out: &mut String, line: u64) -> Result<(), NoMemory>
        requires { string_bytes out.old ≡ [] }
        ensures continues { OnOk result (GoesOnTo (goal (line_break line ∷ []) 0) self.old self.new (string_bytes out.new)) }
        ensures same { SameRun self.old self.new }
    {
        let found = self.next_stop(&[line_break(line)], 0)?;
        self.go_by(out, found)
    }

    /// Goes on to the next step at a place to stop at.
    fn go_on(&mut self, out: &mut String) -> Result<(), NoMemory>
        requires { string_bytes out.old ≡ [] }
        ensures continues { OnOk result (GoesOnToStop self.old.stops.items self.old self.new (string_bytes out.new)) }
        ensures same { SameRun self.old self.new }
    {
        if self.stops.is_empty() {
            return show_words(out, "no place to stop at is noted");
        }
        let found = self.next_stop(self.stops.as_slice(), 0)?;
        self.go_by(out, found)
    }

    /// How many calls are open where the walk stands.
    fn open_calls(&self) -> Result<usize, NoMemory>
        ensures { IfOk result (HasOpenCalls self.now.sources.items self.now.walk) }
    {
        let there = look(&self.walk, self.sources.as_slice(), self.walk.steps())?;
        Ok(calls_of(there.seen.place.as_ref()))
    }

    /// Goes on to the step after the end of the call that is open.
    fn finish(&mut self, out: &mut String) -> Result<(), NoMemory>
        requires { string_bytes out.old ≡ [] }
        ensures finishes { OnOk result (Finishes self.old self.new (string_bytes out.new)) }
        ensures same { SameRun self.old self.new }
    {
        let calls = self.open_calls()?;
        if calls == 0 {
            return show_words(out, "no call is open");
        }
        let found = self.next_stop(&[], calls)?;
        self.go_by(out, found)
    }

    /// Forgets the place to stop at of this number, if there is one.
    fn delete(&mut self, out: &mut String, n: u64) -> Result<(), NoMemory>
        requires { string_bytes out.old ≡ [] }
        ensures deletes { OnOk result (Deletes n self.old self.new (string_bytes out.new)) }
        ensures same { SameRun self.old self.new }
    {
        if n > 0 && n <= self.stops.len() as u64 {
            let _ = self.stops.remove(n as usize - 1);
            return Ok(());
        }
        show_words(out, "no place to stop at has this number")
    }

    /// Notes a place to stop at where the string of a line gives a number other than 0.
    fn note_test(&mut self, out: &mut String, stop: Stop, line: &[u8]) -> Result<(), NoMemory>
        requires { string_bytes out.old ≡ [] }
        ensures notes { OnOk result (NotesTest (commands_of (test_in line.now)) stop self.old self.new (string_bytes out.new)) }
        ensures same { SameRun self.old self.new }
    {
        match commands(self.walk.alloc(), test_in(line)) {
            Ok(test) => {
                let test = Some(test);
                self.stops.push(Break { stop, test })?;
                Ok(())
            }
            Err(ReaderFault::Memory) => Err(NoMemory),
            Err(ReaderFault::Caret(_)) => {
                show_words(out, "a caret before what it cannot stand before")
            }
        }
    }

    /// Goes to the nearest step at which what is watched differs from here.
    fn watch(&mut self, out: &mut String, watch: Watch, way: Way) -> Result<(), NoMemory>
        requires { string_bytes out.old ≡ [] }
        ensures watches { OnOk result (Watches way watch self.old self.new (string_bytes out.new)) }
        ensures same { SameRun self.old self.new }
    {
        let to = nearest_other(&self.walk, &watch, way, self.limit)?;
        self.go_or_say(out, to, words_without(way))
    }

    fn answer_plain(&mut self, out: &mut String, plain: Plain) -> Result<(), NoMemory>
        requires { string_bytes out.old ≡ [] }
        ensures answers { OnOk result (AnswersPlain plain self.old self.new (string_bytes out.new)) }
        ensures same { SameRun self.old self.new }
    {
        match plain {
            Plain::End => self.go(out, self.limit),
            Plain::Start => self.go(out, 0),
            Plain::Where => self.show(out, View::Where),
            Plain::Registers => show_registers(out, self.walk.editor().registers()),
            Plain::State => show_state(out, self.walk.editor()),
            Plain::Breaks => show_stops(out, self.sources.as_slice(), self.stops.as_slice()),
            Plain::Continue => self.go_on(out),
            Plain::Finish => self.finish(out),
            Plain::Typed => self.show(out, View::Typed),
            Plain::Help => show_help(out, verb_rows()),
            // no line is read after it
            Plain::Quit => Ok(()),
        }
    }

    fn answer_counted(&mut self, out: &mut String, counted: Counted, n: u64) -> Result<(), NoMemory>
        requires { string_bytes out.old ≡ [] }
        ensures answers { OnOk result (AnswersCounted counted n self.old self.new (string_bytes out.new)) }
        ensures same { SameRun self.old self.new }
    {
        let steps = self.walk.steps();
        let moves = self.moves.len();
        match counted {
            Counted::Next => self.go(out, ahead(steps, n, self.limit)),
            Counted::Back => self.go(out, behind(steps, n)),
            Counted::Goto => self.go(out, n.min(self.limit)),
            Counted::Around => self.show(out, View::Around(n)),
            Counted::Text => show_text(out, self.walk.editor(), n),
            Counted::Undo => self.take_back(out, moves.saturating_sub(n as usize)),
            Counted::Until => self.go_on_to(out, n),
            Counted::Delete => self.delete(out, n),
        }
    }

    /// Does the command of a line, and shows what it finds.
    fn answer(
        &mut self,
        out: &mut String,
        command: DebuggerCommand,
        line: &[u8],
    ) -> Result<(), NoMemory>
        requires { string_bytes out.old ≡ [] }
        ensures answers { OnOk result (AnswersCommand command line.now self.old self.new (string_bytes out.new)) }
        ensures same { SameRun self.old self.new }
    {
        match command {
            DebuggerCommand::Plain(plain) => self.answer_plain(out, plain),
            DebuggerCommand::Counted(counted, n) => self.answer_counted(out, counted, n),
            DebuggerCommand::Register(q) => show_register(out, self.walk.editor().registers(), q),
            DebuggerCommand::History(q) => show_history(out, &self.walk, q),
            DebuggerCommand::Find(part) => {
                let to = self.walk.last_change(&part);
                self.go_or_say(out, to, "no step before this one changed it")
            }
            DebuggerCommand::Watch(watch, way) => self.watch(out, watch, way),
            DebuggerCommand::Break(stop) => {
                self.stops.push(Break { stop, test: None })?;
                Ok(())
            }
            DebuggerCommand::BreakIf(stop) => self.note_test(out, stop, line),
        }
    }

    /// What is shown of a command; if memory is refused to it, that alone, with the step at which the walk then stands.
    fn answer_or_lack(
        &mut self,
        alloc: Global,
        command: DebuggerCommand,
        line: &[u8],
    ) -> Result<String, NoMemory>
        ensures answers { IfOk result (λ text. IsAnswerTo (Ok command) line.now self.old self.new (string_bytes text)) }
        ensures same { SameRun self.old self.new }
    {
        let mut out = String::new(alloc);
        match self.answer(&mut out, command, line) {
            Ok(()) => Ok(out),
            Err(NoMemory) => {
                let steps = self.walk.steps();
                format!(in alloc; "no memory; the walk stands at step {steps}\n")
            }
        }
    }

    /// Notes what a line asked, for an empty line after it.
    fn note(&mut self, asked: &Result<DebuggerCommand, CommandFault>)
        ensures { self.new ≡ noted asked.now self.old }
    {
        match asked {
            Ok(command) => self.again = command.again(),
            Err(_) => {}
        }
    }

    /// The answer to what a line asked.
    fn answer_asked(
        &mut self,
        alloc: Global,
        asked: &Result<DebuggerCommand, CommandFault>,
        line: &[u8],
    ) -> Result<String, NoMemory>
        ensures answers { IfOk result (λ text. IsAnswerTo asked.now line.now self.old self.new (string_bytes text)) }
        ensures same { SameRun self.old self.new }
    {
        match asked {
            Ok(command) => self.answer_or_lack(alloc, *command, line),
            Err(fault) => format!(in alloc; "{fault}\n"),
        }
    }

    /// The same, noted for an empty line after it.
    pub fn answer_to(
        &mut self,
        alloc: Global,
        asked: &Result<DebuggerCommand, CommandFault>,
        line: &[u8],
    ) -> Result<String, NoMemory>
        ensures answers { IfOk result (λ text. IsAnswerTo asked.now line.now (noted asked.now self.old) self.new (string_bytes text)) }
        ensures same { SameRun self.old self.new }
    {
        self.note(asked);
        self.answer_asked(alloc, asked, line)
    }
}
