//! A walk over the steps of a command string.
ghost use Rattle.std.specs.Prelude.{◌≡◌, ◌↔◌, ◌+◌, None, Some, false, ℕ, ◌≤◌, ◌<◌, [], OnOk, OnErr, IfNone, IfOk, IfSome, MatchOption, length, take, vec_len};
ghost use Rattle.teco_core.specs.declared.limits.TheConstants.{FILE_LIMIT};
ghost use Rattle.teco_core.specs.declared.code.Code.TheVariants.{Lim};
ghost use Rattle.teco_exec.specs.Options.{stop_left};
ghost use Rattle.teco_exec.specs.Places.{FindsWanted, wanted_in};
ghost use Rattle.teco_exec.specs.Runs.{RunsWithin};
ghost use Rattle.teco_exec.specs.Telling.{IsLastPlace};
ghost use Rattle.teco_replay.specs.Begun.{begun_state};
ghost use Rattle.teco_session.specs.History.{present};
ghost use Rattle.teco_session.specs.Kept.{history_of};
ghost use Rattle.teco_store.specs.State.{state_of};
ghost use Rattle.teco_debugger.specs.Finding.{IsAsNowFrom, last_change};
ghost use Rattle.teco_debugger.specs.Walk.{SameString, base, lacks_memory, led, meant, state_there};

use crate::finding::last_change;
use crate::{Opening, Part};
use std::alloc::Global;
use std::cell::Cell;
use std::marker::Model;
use teco_core::{Code, NoMemory, Profile};
use teco_exec::{
    Never, Options, Outcome, Place, Seeking, Stop, UntilFound, Wants, Watched, meaning_laws,
};
use teco_io::MemoryTerminal;
use teco_journal::Record;
use teco_replay::{Quiet, replay};
use teco_session::{Answer, Changes, Session};
use teco_store::Editor;
use teco_undo::record_laws;

/// A command string over an input and the strings before it, of which some steps are done.
///
/// A clause sees the state at the beginning, the strings before, the string, how many steps are done, and the changes that they made.
/// The state there is the one that the string means under a limit of just these steps.
#[derive(Drop)]
pub struct Walk {
    /// What the session began with.
    opening: Opening,
    text: Vec<u8>,
    steps: u64,
    /// The string is its last one.
    session: Session,
}

impl Model for Walk {
    ghost use Rattle.teco_debugger.specs.Walk.{KeptWalk, kept_walk, IsWalk};

    ghost Value = { KeptWalk };

    ghost view = { kept_walk };

    ghost invariant = { IsWalk };
}

/// What a run of the string from its beginning shows: how it ended, what it typed, and where it last stood, which is at the token
/// whose step comes, at a fault, or at the token whose step failed.
#[derive(Drop)]
pub struct Seen {
    pub outcome: Outcome,
    pub place: Option<Place>,
    pub typed: Vec<u8>,
}

/// Whether a run ended for want of memory. A terminal in memory fails for want of it alone.
pub fn lacks_memory(code: Option<Code>) -> bool
    ensures { result ≡ lacks_memory code }
{
    match code {
        Some(Code::Mem) => true,
        Some(Code::Tty) => true,
        _ => false,
    }
}

/// What a run that seeks a step comes to: the first that is sought, if one is found, and how it ended.
#[derive(Clone, Copy)]
struct Followed {
    first: Option<u64>,
    outcome: Outcome,
}

/// Whether a run may have been stopped below its limit.
fn is_cut(outcome: Outcome, limit: u64) -> bool
    ensures { result ≡ false → outcome.code ≡ Some Lim → limit ≤ outcome.steps }
{
    matches!(outcome.code, Some(Code::Lim)) && outcome.steps < limit
}

impl Walk {
    /// A walk at the beginning of a string, after all that was done to a session that began so.
    pub fn over(opening: Opening, text: Vec<u8>, mut session: Session) -> Result<Walk, NoMemory>
        requires small { vec_len opening.input ≤ FILE_LIMIT }
        requires first { (history_of session).first ≡ begun_state opening.profile opening.lines opening.input.items }
        requires depth { (history_of session).depth ≡ None }
        ensures first { IfOk result (λ walk. walk.first ≡ (history_of session).first) }
        ensures before { IfOk result (λ walk. walk.before ≡ take (history_of session).cursor (history_of session).notes) }
        ensures text { IfOk result (λ walk. walk.text ≡ text.items) }
        ensures steps { IfOk result (λ walk. walk.steps ≡ 0) }
    {
        // This shows that the strings lead from one state to the next.
        let _leads = session.editor();
        match session.run(text.as_slice(), 0, &mut Quiet) {
            Answer::Ended(outcome) => Ok(Walk {
                opening,
                text,
                steps: outcome.steps,
                session,
            }),
            _ => Err(NoMemory),
        }
    }

    /// A walk at the beginning of a string of this language, over an input of at most 2^30 bytes.
    pub fn new(profile: Profile, input: Vec<u8>, text: Vec<u8>) -> Result<Walk, NoMemory>
        requires { vec_len input ≤ FILE_LIMIT }
        ensures first { IfOk result (λ walk. walk.first ≡ begun_state profile 0 input.items) }
        ensures before { IfOk result (λ walk. walk.before ≡ []) }
        ensures text { IfOk result (λ walk. walk.text ≡ text.items) }
        ensures steps { IfOk result (λ walk. walk.steps ≡ 0) }
    {
        let opening = Opening {
            profile,
            lines: 0,
            input,
        };
        let session = opening.copy()?.session()?;
        Walk::over(opening, text, session)
    }

    /// Runs one more of the strings before on another session, under a limit of the steps that it took.
    fn run_before(&self, session: &mut Session, i: usize) -> Result<(), NoMemory>
        requires within { i < length self.now.before }
        requires led { history_of session.old ≡ led self.now.first (take i self.now.before) }
        ensures { OnOk result (history_of session.new ≡ led self.now.first (take (i + 1) self.now.before)) }
    {
        // This shows that each string led to the state after it.
        let _leads = self.session.editor();
        let text = Vec::from_slice(self.alloc(), self.session.string(i))?;
        let steps = self.session.steps(i);
        match replay(session, &[Record::Run { steps, text }], &mut Quiet) {
            Ok(()) => Ok(()),
            Err(_) => Err(NoMemory),
        }
    }

    /// Another session in the state before the string.
    fn session_before(&self) -> Result<Session, NoMemory>
        ensures { IfOk result (λ session. history_of session ≡ led self.now.first self.now.before) }
    {
        let opening = self.opening.copy()?;
        let mut session = opening.session()?;
        for i in 0..self.session.cursor().saturating_sub(1) {
            self.run_before(&mut session, i)?;
        }
        Ok(session)
    }

    /// Another walk over the same string, at the beginning.
    pub fn anew(&self) -> Result<Walk, NoMemory>
        ensures string { IfOk result (SameString self.now) }
        ensures steps { IfOk result (λ walk. walk.steps ≡ 0) }
    {
        let text = Vec::from_slice(self.alloc(), self.text.as_slice())?;
        Walk::over(self.opening.copy()?, text, self.session_before()?)
    }

    /// The allocator of the walk.
    pub fn alloc(&self) -> Global {
        *self.opening.input.allocator()
    }

    /// The command string.
    pub fn text(&self) -> &[u8]
        ensures { result.now ≡ self.now.text }
    {
        self.text.as_slice()
    }

    /// How many steps are done.
    pub fn steps(&self) -> u64
        ensures { result ≡ self.now.steps }
    {
        self.steps
    }

    /// The state there.
    pub fn editor(&self) -> &Editor
        ensures { state_of result.now ≡ state_there self.now }
    {
        self.session.editor()
    }

    /// The changes that led there, the first first; none where the string was not begun.
    pub fn changes(&self) -> Option<&Changes>
        ensures { MatchOption result (self.now.changes ≡ []) (λ changes. changes.now ≡ self.now.changes) }
    {
        let cursor = self.session.cursor();
        if cursor == 0 {
            return None;
        }
        Some(self.session.entry(cursor - 1))
    }

    // The same of the changes as they are listed.
    fn last_listed(&self, part: &Part) -> Option<u64>
        ensures { result ≡ last_change part.now self.now.changes }
    {
        match self.changes() {
            None => None,
            Some(changes) => last_change(part, changes),
        }
    }

    /// The steps that were done before the last change that is for a part of the state, where one is. Takes no memory.
    pub fn last_change(&self, part: &Part) -> Option<u64>
        ensures value { result ≡ last_change part.now self.now.changes }
        ensures made { IfSome result (λ n. n < self.now.steps) }

        // Since then it is as it is now, and always where no change is found.
        ensures since { IfSome result (λ n. IsAsNowFrom (n + 1) part.now self.now) }
        ensures ever { IfNone result (IsAsNowFrom 0 part.now self.now) }
    {
        // These show that the changes lead from one state to the next.
        let _leads = self.session.editor();
        record_laws();
        self.last_listed(part)
    }

    /// Goes to the state after the first `n` steps of the string, or after all that it takes where those are fewer. Going back takes
    /// the time of the changes since, going on that of `n` steps. For want of memory it stops after fewer steps, or stays.
    pub fn go(&mut self, n: u64) -> Result<(), NoMemory>
        ensures string { SameString self.old self.new }
        ensures state { OnOk result (state_there self.new ≡ (meant (base self.old) self.old.text n).state) }
        ensures back { n ≤ self.old.steps → self.new.steps ≡ n }
        ensures on { OnOk result (self.old.steps < n
            → self.new.steps ≡ (meant (base self.old) self.old.text n).steps) }
        ensures never_too_far { self.new.steps ≤ n }
    {
        if n <= self.steps {
            let _ = self.session.rewind(n);
            self.steps = n;
            return Ok(());
        }
        self.go_on(n)
    }

    /// Runs the string anew for at most `n` steps.
    fn go_on(&mut self, n: u64) -> Result<(), NoMemory>
        requires { self.old.steps ≤ n }
        ensures string { SameString self.old self.new }
        ensures state { OnOk result (state_there self.new ≡ (meant (base self.old) self.old.text n).state) }
        ensures steps { OnOk result (self.new.steps ≡ (meant (base self.old) self.old.text n).steps) }
        ensures never_too_far { self.new.steps ≤ n }
    {
        meaning_laws();
        let mut terminal = MemoryTerminal::new(self.alloc());
        let _ = self.session.undo();
        match self.session.run(self.text.as_slice(), n, &mut terminal) {
            Answer::Ended(outcome) => {
                self.steps = outcome.steps;
                if lacks_memory(outcome.code) {
                    return Err(NoMemory);
                }
                Ok(())
            }
            _ => {
                let _ = self.session.redo();
                Err(NoMemory)
            }
        }
    }

    /// Another session in the state after the first `n` steps of the string, or after all that it takes where those are fewer.
    pub fn session_after(&self, n: u64) -> Result<Session, NoMemory>
        ensures { IfOk result (λ session. present (history_of session) ≡ (meant (base self.now) self.now.text n).state) }
    {
        let mut session = self.session_before()?;
        let Answer::Ended(outcome) = session.run(self.text.as_slice(), n, &mut Quiet) else {
            return Err(NoMemory);
        };
        if lacks_memory(outcome.code) {
            return Err(NoMemory);
        }
        Ok(session)
    }

    /// Runs the string from its beginning under a limit of `n` steps, apart from the walk, and tells what that shows.
    pub fn look(&self, n: u64) -> Result<Seen, NoMemory>
        ensures place { IfOk result (λ seen. IfSome seen.place
            (λ p. IsLastPlace (base self.now) self.now.text seen.outcome.steps p)) }
        ensures told { IfOk result (λ seen. (seen.place ≡ None) ↔ (seen.outcome.code ≡ None)) }
        ensures steps { IfOk result (λ seen. seen.outcome.steps ≡ (meant (base self.now) self.now.text n).steps) }
        ensures code { IfOk result (λ seen. seen.outcome.code ≡ (meant (base self.now) self.now.text n).code) }
        ensures typed { IfOk result (λ seen. seen.typed.items ≡ (meant (base self.now) self.now.text n).typed) }
    {
        let mut session = self.session_before()?;
        self.look_on(&mut session, n)
    }

    /// Runs the string on a session in the state before it.
    fn look_on(&self, session: &mut Session, n: u64) -> Result<Seen, NoMemory>
        requires { present (history_of session.old) ≡ base self.now }
        ensures place { IfOk result (λ seen. IfSome seen.place
            (λ p. IsLastPlace (base self.now) self.now.text seen.outcome.steps p)) }
        ensures told { IfOk result (λ seen. (seen.place ≡ None) ↔ (seen.outcome.code ≡ None)) }
        ensures steps { IfOk result (λ seen. seen.outcome.steps ≡ (meant (base self.now) self.now.text n).steps) }
        ensures code { IfOk result (λ seen. seen.outcome.code ≡ (meant (base self.now) self.now.text n).code) }
        ensures typed { IfOk result (λ seen. seen.typed.items ≡ (meant (base self.now) self.now.text n).typed) }
    {
        let alloc = self.alloc();
        let mut terminal = MemoryTerminal::new(alloc);
        let options = Options {
            limit: n,
            stop: &mut Never,
        };
        let watch = Watched::new(alloc);
        let (answer, watch) = session.run_with(self.text.as_slice(), &mut terminal, options, watch);
        let Answer::Ended(outcome) = answer else {
            return Err(NoMemory);
        };
        if lacks_memory(outcome.code) {
            return Err(NoMemory);
        }
        let place = watch.into_place()?;
        Ok(Seen {
            outcome,
            place,
            typed: terminal.take(),
        })
    }

    /// Runs the string from its beginning, apart from the walk, up to the first step from `from` on that comes at a place which is
    /// wanted, or until it is asked to stop.
    fn follow<S: Stop, P: Wants + Copy + Drop>(
        &self,
        places: P,
        from: u64,
        has_found: &Cell<bool>,
        options: Options<'_, S>,
    ) -> Result<Followed, NoMemory>
        ensures found { IfOk result (λ it. FindsWanted (wanted_in (base self.now) self.now.text (P.wanted places) from) it.outcome.steps it.first) }
        ensures run { IfOk result (λ it. it.first ≡ None → RunsWithin (S.answered (stop_left options.exit)) options.entry.limit it.outcome
            (λ l. it.outcome.steps ≡ (meant (base self.now) self.now.text l).steps)) }
    {
        let mut session = self.session_before()?;
        let watch = Seeking::new(places, from, has_found);
        let (answer, watch) = session.run_with(self.text.as_slice(), &mut Quiet, options, watch);
        let Answer::Ended(outcome) = answer else {
            return Err(NoMemory);
        };
        let first = watch.found();
        let it = Followed { first, outcome };
        if it.first.is_none() && lacks_memory(it.outcome.code) {
            return Err(NoMemory);
        }
        Ok(it)
    }

    /// The first step from `from` on that comes at a place which is wanted, of those that the string takes under a limit. The string is
    /// run from its beginning up to there, apart from the walk.
    pub fn seek<P: Wants + Copy + Drop>(
        &self,
        places: P,
        from: u64,
        limit: u64,
    ) -> Result<Option<u64>, NoMemory>
        ensures { IfOk result (FindsWanted (wanted_in (base self.now) self.now.text (P.wanted places) from)
            (meant (base self.now) self.now.text limit).steps) }
    {
        let has_found = Cell::new(false);
        let options = Options {
            limit,
            stop: &mut UntilFound::new(&has_found),
        };
        let until = self.follow(places, from, &has_found, options)?;
        if until.first.is_some() || !is_cut(until.outcome, limit) {
            return Ok(until.first);
        }
        // It was stopped with nothing found. No run does so, but no clause says what a cell holds.
        let options = Options {
            limit,
            stop: &mut Never,
        };
        Ok(self.follow(places, from, &has_found, options)?.first)
    }
}
