//! A run: what C gives it, and what it tells.
ghost use Rattle.std.specs.Prelude.{◌≡◌, ◌⊎◌, ◌≤◌, length, take};
ghost use Rattle.teco_ffi.specs.Calls.{RunsToWithin};
ghost use Rattle.teco_ffi.specs.Places.{IsWhere};
ghost use Rattle.teco_ffi.specs.Runs.{KeepsGiven, RunsAsked, TellsNothing, TellsRun};

use crate::answers::{CLOSED, NOWHERE, number_of_answer, steps_of_answer};
use crate::flag::Asking;
use crate::frames::{OpenCall, tell_place};
use crate::places::{told_at, told_calls};
use crate::room::Room;
use crate::stopper::Stopper;
use teco_exec::{Never, Options, Stop, Watched};
use teco_session::{Answered, Session};

/// What a run is given, and what it tells. The first four are the caller's, and the rest is what the run tells.
#[repr(C)]
pub struct Run<'a> {
    /// How many steps the string may take.
    pub limit: u64,
    /// Who is asked before each step, and within a long search, whether it is to stop; a closed one asks for no stop.
    pub stopper: Stopper,
    /// Where the typed bytes go.
    pub room: &'a mut [u8],
    /// Where the open calls go, the latest first.
    pub frames: &'a mut [OpenCall],
    /// How many bytes were typed.
    pub made: usize,
    /// How many steps the string took.
    pub steps: u64,
    /// Where it stopped in the string itself: at a token, or at the outermost call.
    pub at: usize,
    /// Where it stopped in the innermost text.
    pub inner: usize,
    /// How many calls were open there.
    pub calls: usize,
}

/// Runs a string on an empty room, which keeps the room that it writes to, until it is asked to stop, and tells where it stopped.
fn run_on<S: Stop>(
    session: &mut Session,
    text: &[u8],
    limit: u64,
    stop: &mut S,
    term: &mut Room,
) -> Answered
    requires { term.old.count ≡ 0 }
    ensures same_reference { term.new.room.ghost_name ≡ term.old.room.ghost_name }
    ensures length { length term.new.room.now ≡ length term.old.room.now }
    ensures run { RunsToWithin (S.answered stop.new) limit session.old text.now result.answer
        (take term.new.count term.new.room.now) session.new }
    ensures place { IsWhere session.old text.now result.answer result.place }
{
    let watch = Watched::new(session.alloc());
    let options = Options { limit, stop };
    let (answer, watch) = session.run_with(text, term, options, watch);
    Answered {
        answer,
        place: watch.into_place(),
    }
}

/// Runs a string over a room until it is asked to stop, and tells where it stopped and how many bytes were typed.
fn run_in<S: Stop>(
    session: &mut Session,
    text: &[u8],
    limit: u64,
    stop: &mut S,
    room: &mut [u8],
) -> (Answered, usize)
    ensures run { RunsToWithin (S.answered stop.new) limit session.old text.now result.0.answer
        (take result.1 room.new) session.new }
    ensures place { IsWhere session.old text.now result.0.answer result.0.place }
    ensures within { result.1 ≤ length room.new }
{
    let mut term = Room::new(room);
    let answered = run_on(session, text, limit, stop, &mut term);
    (answered, term.count)
}

/// Runs a string over a room until a stopper, if it is open, asks to stop.
fn run_asked(
    session: &mut Session,
    text: &[u8],
    limit: u64,
    stopper: &mut Stopper,
    room: &mut [u8],
) -> (Answered, usize)
    ensures run { RunsAsked stopper.old.value limit session.old text.now result.0.answer
        (take result.1 room.new) session.new }
    ensures place { IsWhere session.old text.now result.0.answer result.0.place }
    ensures within { result.1 ≤ length room.new }
    ensures same { stopper.new ≡ stopper.old }
{
    match stopper.look() {
        None => run_in(session, text, limit, &mut Never, room),
        Some(flag) => run_in(session, text, limit, &mut Asking { flag }, room),
    }
}

impl Run<'_> {
    /// Runs a string on a session, and tells of it: the number of its answer.
    pub fn on(&mut self, session: &mut Session, text: &[u8]) -> u8
        ensures told { TellsRun session.old text.now result self.old self.new session.new }
        ensures within { self.new.made ≤ length self.new.room.now }
        ensures inside { (self.new.at ≡ NOWHERE) ⊎ (self.new.at ≤ length text.now) }
        ensures given { KeepsGiven self.old self.new }
    {
        let (answered, made) = run_asked(session, text, self.limit, &mut self.stopper, self.room);
        self.made = made;
        self.steps = steps_of_answer(answered.answer);
        self.at = told_at(&answered.place, text.len());
        self.inner = tell_place(&answered.place, self.frames);
        self.calls = told_calls(&answered.place);
        number_of_answer(answered.answer)
    }

    /// Tells that no string was run, since the handle is closed: its number.
    pub fn on_none(&mut self) -> u8
        ensures closed { result ≡ CLOSED }
        ensures nothing { TellsNothing self.old self.new }
        ensures given { KeepsGiven self.old self.new }
    {
        self.made = 0;
        self.steps = 0;
        self.at = NOWHERE;
        self.inner = NOWHERE;
        self.calls = 0;
        CLOSED
    }
}
