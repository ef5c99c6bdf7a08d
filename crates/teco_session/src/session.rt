//! A session: command strings, undo and redo, over one editor, with what leads from each whole state to the next.
ghost use Rattle.std.specs.Prelude.{◌≡◌, ℕ, Bool, List, [], ◌<◌, ◌≤◌, length, vec_len, None, Some, IfOk, OnErr, OnOk, IsOk, ◌↔◌, IfSome, Ok, true, false};
ghost use Rattle.std.specs.Option.{ForSome};
ghost use Rattle.teco_exec.specs.Runs.{RunsWithin, StillSays};
ghost use Rattle.teco_exec.specs.Options.{stop_left};
ghost use Rattle.teco_exec.specs.Places.{wanted_in};
ghost use Rattle.teco_exec.specs.Telling.{KnowsLast};
ghost use Rattle.teco_store.specs.State.{state_of};
ghost use Rattle.teco_io.specs.Terminal.{Shows};
ghost use Rattle.teco_session.specs.Answers.{is_unbegun, outcome_of, string_outcome};
ghost use Rattle.teco_session.specs.Strings.{IsWithinDepth};
ghost use Rattle.teco_session.specs.History.{IsBeginning, IsHistory, history_from, new_history, new_paged_history, note_at, present, redone, rewound, state_after, undone, without_undone};
ghost use Rattle.teco_session.specs.Kept.{IsSession, IsSmall, applied, cut_to, forgotten, history_of, new_paged_session, new_session, reverted, session_over, string_at};
ghost use Rattle.teco_session.specs.RunsIn.{RunsIn};
ghost use Rattle.teco_session.specs.Step.{Step, Reply, is_terminal_failure};
ghost use Rattle.teco_session.specs.Play.{Play, ShowsAll, answers_of};

use crate::recording::record_run;
use crate::request::{Answer, NothingToRedo, NothingToUndo, Request};
use crate::{Changes, Entries, Entry, Text, Turn};
use std::alloc::Global;
use std::marker::Model;
use teco_core::{DEPTH_LIMIT, FILE_LIMIT, NoMemory};
use teco_exec::{Never, Options, Stop, Unwatched, Watch, run_with};
use teco_io::Terminal;
use teco_store::{Desk, Editor, editor_laws};
use teco_undo::{Recorder, record_laws};

/// Command strings one after another, each of which can be undone and redone.
///
/// A clause sees a session as it is kept: one editor, the strings with their changes, and how many of the strings are not undone.
/// `history_of` is the history that this tells: the state before the first string, and each string with its text, its steps and the
/// state after it. A session with a depth keeps so many strings: where one more begins, the first one goes, with the state before it.
pub struct Session {
    recorder: Recorder,
    entries: Entries,
    cursor: usize,
}

// Its parts go here, and a crate that lets a session go calls this.
impl Drop for Session {
    fn drop(self) {
        let Session {
            recorder: _,
            entries: _,
            cursor: _,
        } = self;
    }
}

impl Model for Session {
    ghost use Rattle.teco_session.specs.Kept.{KeptSession, IsSession};
    ghost use Rattle.teco_session.specs.SessionView.{kept_session};

    ghost Value = { KeptSession };

    ghost view = { kept_session };

    ghost invariant = { λ s. IsSession (kept_session s) };
}

impl Session {
    /// A new session over this input, of at most 2^30 bytes, that keeps every string. Takes no memory.
    pub fn new(input: Vec<u8>) -> Session
        requires { vec_len input ≤ FILE_LIMIT }
        ensures value { result ≡ new_session None input.items }
        ensures history { history_of result ≡ new_history None input.items }
    {
        let alloc = *input.allocator();
        Session {
            recorder: Recorder::new(Editor::new(input)),
            entries: Entries::All(Vec::new(alloc)),
            cursor: 0,
        }
    }

    /// A new session over this input, of at most 2^30 bytes, that keeps the last `depth` strings. Room for their entries is found here.
    pub fn with_depth(input: Vec<u8>, depth: usize) -> Result<Session, NoMemory>
        requires input { vec_len input ≤ FILE_LIMIT }
        requires depth { (1 ≤ depth) × (depth ≤ DEPTH_LIMIT) }
        ensures value { IfOk result (λ session. session ≡ new_session (Some depth) input.items) }
        ensures history { IfOk result (λ session. history_of session ≡ new_history (Some depth) input.items) }
    {
        Session::with_pages(input, 0, Some(depth))
    }

    /// A new session over this input, of at most 2^30 bytes, whose pages end after so many lines too; 0 is any number of lines. It keeps
    /// the last `depth` strings, for whose entries room is found here, or every string where there is no depth: then it takes no memory.
    /// With a depth of 0 none can be undone, and their runs take no memory for an undo.
    pub fn with_pages(
        input: Vec<u8>,
        lines: usize,
        depth: Option<usize>,
    ) -> Result<Session, NoMemory>
        requires input { vec_len input ≤ FILE_LIMIT }
        requires depth { ForSome depth (λ depth. depth ≤ DEPTH_LIMIT) }
        ensures value { IfOk result (λ session. session ≡ new_paged_session lines depth input.items) }
        ensures history { IfOk result (λ session. history_of session
            ≡ new_paged_history lines depth input.items) }
        ensures every { depth ≡ None → IsOk result }
    {
        Session::over(Editor::with_page_lines(input, lines), depth)
    }

    /// A new session over an editor at its beginning, whose registers may hold something already. It keeps strings as
    /// [`Session::with_pages`] says. No undo and no rewind goes back to before this state.
    pub fn over(editor: Editor, depth: Option<usize>) -> Result<Session, NoMemory>
        requires beginning { IsBeginning (state_of editor) }
        requires depth { ForSome depth (λ depth. depth ≤ DEPTH_LIMIT) }
        ensures value { IfOk result (λ session. session ≡ session_over depth editor) }
        ensures history { IfOk result (λ session. history_of session ≡ history_from depth (state_of editor)) }
        ensures every { depth ≡ None → IsOk result }
    {
        let entries = Entries::of_depth(editor.allocator(), depth)?;
        Ok(Session {
            recorder: Recorder::new(editor),
            entries,
            cursor: 0,
        })
    }

    /// The editing state. Takes no memory.
    pub fn editor(&self) -> &Editor
        ensures value { result.now ≡ self.now.editor }
        ensures present { state_of result.now ≡ present (history_of self.now) }
        ensures history { IsHistory (history_of self.now) }
        ensures leads { IsSession self.now }
    {
        self.recorder.editor()
    }

    /// How many strings the history has, undone ones too: with a depth, no more than that. Takes no memory.
    pub fn strings(&self) -> usize
        ensures value { result ≡ length self.now.strings }
        ensures history { result ≡ length (history_of self.now).notes }
        ensures depth { IsWithinDepth (history_of self.now).depth result }
    {
        self.entries.len()
    }

    /// How many strings are not undone. Takes no memory.
    pub fn cursor(&self) -> usize
        ensures value { result ≡ self.now.cursor }
        ensures within { result ≤ length self.now.strings }
    {
        self.cursor
    }

    /// The text of a string, counted from the oldest one that is kept. Takes no memory.
    pub fn string(&self, i: usize) -> &[u8]
        requires { i < length self.now.strings }
        ensures value { result.now ≡ (string_at self.now i).text }
        ensures history { result.now ≡ (note_at (history_of self.now) i).text }
    {
        self.entries.get(i).text.as_slice()
    }

    /// How many steps a string took. Takes no memory.
    pub fn steps(&self, i: usize) -> u64
        requires { i < length self.now.strings }
        ensures value { result ≡ (string_at self.now i).steps }
        ensures history { result ≡ (note_at (history_of self.now) i).steps }
    {
        self.entries.get(i).steps
    }

    /// The changes of a string, as an undo or a redo would turn them now. Takes no memory.
    pub fn entry(&self, i: usize) -> &Changes
        requires { i < length self.now.strings }
        ensures value { result.now ≡ (string_at self.now i).changes }
        ensures small { IsSmall (string_at self.now i)
            (state_after (history_of self.now).first (history_of self.now).notes i) }
    {
        record_laws();
        &self.entries.get(i).changes
    }

    /// Goes back to before the last string that is not undone, also after an exit. If there is none, nothing changes. Takes no memory.
    pub fn undo(&mut self) -> Result<(), NothingToUndo>
        ensures offers { IsOk result ↔ (0 < self.old.cursor) }
        ensures ok { OnOk result (self.new ≡ reverted self.old) }
        ensures history { OnOk result (history_of self.new ≡ undone (history_of self.old)) }
        ensures err { OnErr result (self.new ≡ self.old) }
    {
        if self.cursor == 0 {
            return Err(NothingToUndo);
        }
        record_laws();
        let i = self.cursor - 1;
        self.entries.turn(i, self.recorder.editor_mut(), Turn::Back);
        self.cursor = i;
        Ok(())
    }

    /// Goes on to the state after the first undone string, where there is one; otherwise nothing changes. Takes no memory.
    pub fn redo(&mut self) -> Result<(), NothingToRedo>
        ensures offers { IsOk result ↔ (self.old.cursor < length (history_of self.old).notes) }
        ensures ok { OnOk result (self.new ≡ applied self.old) }
        ensures history { OnOk result (history_of self.new ≡ redone (history_of self.old)) }
        ensures err { OnErr result ((self.new ≡ self.old)
            × (self.old.cursor ≡ length (history_of self.old).notes)) }
    {
        let i = self.cursor;
        if i == self.entries.len() {
            return Err(NothingToRedo);
        }
        record_laws();
        self.entries
            .turn(i, self.recorder.editor_mut(), Turn::Forth);
        self.cursor = i + 1;
        Ok(())
    }

    /// Cuts the last string that is not undone after its first `n` steps, if it took more, and drops the undone strings. If there is
    /// no such string, nothing changes. Takes no memory, also after an exit.
    pub fn rewind(&mut self, n: u64) -> Result<(), NothingToUndo>
        ensures offers { IsOk result ↔ (0 < self.old.cursor) }
        ensures ok { OnOk result (self.new ≡ cut_to n self.old) }
        ensures history { OnOk result (history_of self.new ≡ rewound n (history_of self.old)) }
        ensures err { OnErr result (self.new ≡ self.old) }
    {
        if self.cursor == 0 {
            return Err(NothingToUndo);
        }
        record_laws();
        let i = self.cursor - 1;
        let n = n.min(self.entries.get(i).steps);
        self.entries
            .turn(i, self.recorder.editor_mut(), Turn::Cut(n));
        self.entries.truncate(self.cursor);
        Ok(())
    }

    /// Drops the strings that are undone, so that none is left to redo. Takes no memory, also after an exit.
    pub fn forget(&mut self)
        ensures value { self.new ≡ forgotten self.old }
        ensures history { history_of self.new ≡ without_undone (history_of self.old) }
    {
        self.entries.truncate(self.cursor);
    }

    /// Runs a command string under a limit of steps, and notes it, however it ends; strings that are undone are dropped, and with a depth
    /// the first string where there is one too many. With a depth of 0 that is the string itself.
    ///
    /// Where memory is refused for the history the answer is [`Answer::NotBegun`], and after an exit [`Answer::AfterExit`]: then
    /// nothing has changed, and the undone strings are kept. A string that makes the session done ends with no code.
    pub fn run<T: Terminal>(&mut self, text: &[u8], limit: u64, term: &mut T) -> Answer
        ensures { RunsIn T.Terminal (self.old, term.old) (self.new, term.new) text.now result limit }
    {
        self.run_with(
            text,
            term,
            Options {
                limit,
                stop: &mut Never,
            },
            Unwatched,
        )
        .0
    }

    /// Runs a command string as [`Session::run`] does, by these options. Where it is asked to stop, it is noted as under a limit of the
    /// steps done. The watch is told where its run last stood: at the token or the fault where it stopped, or at the token whose step
    /// failed. It is told of the place of each step too. Of a string that is not begun it is told nothing.
    pub fn run_with<S: Stop, T: Terminal, W: Watch>(
        &mut self,
        text: &[u8],
        term: &mut T,
        options: Options<'_, S>,
        watch: W,
    ) -> (Answer, W)
        ensures run { RunsWithin (S.answered (stop_left options.exit)) options.entry.limit (string_outcome result.0)
            (RunsIn T.Terminal (self.old, term.old) (self.new, term.new) text.now result.0) }
        ensures still { StillSays (S.answered options.entry.stop.now) (S.answered (stop_left options.exit)) }
        ensures told { W.knows watch None → IfSome (outcome_of result.0)
            (KnowsLast (W.knows result.1) (present (history_of self.old)) text.now) }
        ensures visits { (wanted : ℕ → ℕ → Bool) (from : ℕ)
            → W.follows watch (wanted_in (present (history_of self.old)) text.now wanted from) 0
            → IfSome (outcome_of result.0) (λ outcome.
            W.follows result.1 (wanted_in (present (history_of self.old)) text.now wanted from) outcome.steps) }
        ensures unbegun { is_unbegun result.0 ≡ true → result.1 ≡ watch }
    {
        if self.editor().done() {
            return (Answer::AfterExit, watch);
        }
        if self.entries.keeps_none() {
            let editor = self.recorder.editor_mut();
            let ran = run_with(editor, text, term, options, watch);
            editor_laws(editor);
            return (Answer::Ended(ran.outcome), ran.watch);
        }
        let alloc = self.entries.alloc();
        let Ok(kept) = Text::copied(alloc, text) else {
            return (Answer::NotBegun, watch);
        };
        if self.entries.reserve().is_err() {
            return (Answer::NotBegun, watch);
        }
        record_laws();
        self.entries.truncate(self.cursor);
        let (changes, ran) = record_run(&mut self.recorder, text, term, options, watch);
        self.entries.note(Entry {
            text: kept,
            steps: ran.outcome.steps,
            changes: Changes::of(changes),
        });
        self.cursor = self.entries.len();
        (Answer::Ended(ran.outcome), ran.watch)
    }

    /// Where the session finds its memory.
    pub fn alloc(&self) -> Global {
        self.entries.alloc()
    }

    /// Answers one request, whichever it is.
    pub fn answer<T: Terminal>(&mut self, request: &Request, limit: u64, term: &mut T) -> Answer
        ensures { (typed : List ℕ)
            × Step limit (history_of self.old) request.now (record { answer = result; typed = typed })
            (history_of self.new)
            × Shows (T.screen term.old) (T.screen term.new) typed (is_terminal_failure result) }
    {
        match request {
            Request::Run(text) => self.run(text.as_slice(), limit, term),
            Request::Undo => match self.undo() {
                Ok(()) => Answer::Undone,
                Err(NothingToUndo) => Answer::NothingToUndo,
            },
            Request::Redo => match self.redo() {
                Ok(()) => Answer::Redone,
                Err(NothingToRedo) => Answer::NothingToRedo,
            },
            Request::Rewind(n) => match self.rewind(*n) {
                Ok(()) => Answer::Rewound,
                Err(NothingToUndo) => Answer::NothingToUndo,
            },
        }
    }

    /// Answers requests in order, one answer each. If memory is refused for the answers, none is begun and nothing has changed.
    pub fn play<T: Terminal>(
        &mut self,
        alloc: Global,
        requests: &[Request],
        limit: u64,
        term: &mut T,
    ) -> Result<Vec<Answer>, NoMemory>
        ensures play { IfOk result (λ answers. (replies : List Reply) × (answers.items ≡ answers_of replies)
            × Play limit (history_of self.old) requests.now replies (history_of self.new)
            × ShowsAll (T.screen term.old) (T.screen term.new) replies) }
        ensures err { OnErr result ((self.new ≡ self.old) × (term.new ≡ term.old)) }
    {
        let mut answers = Vec::with_capacity(alloc, requests.len())?;
        for request in requests {
            let answer = self.answer(request, limit, term);
            answers.push_reserved(answer);
        }
        Ok(answers)
    }
}
