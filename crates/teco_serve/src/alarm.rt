//! How far a command string may run, and what asks it to stop.
ghost use Rattle.std.specs.Prelude.{◌≡◌, ◌↔◌, ◌⊎◌, ℕ, Option, IsTrue, None, true};
ghost use Rattle.std.specs.declared.time.Instant.{Instant};
ghost use Rattle.teco_serve.specs.Alarm.{AreApart, clock_answers};

use std::time::{Clock, Instant};
use teco_exec::{Patience, Stop};

/// How far a command string may run.
#[derive(Clone, Copy)]
pub struct Bounds {
    /// The most steps that it may take.
    pub steps: u64,
    /// The most seconds that it may run; without them it is never asked to stop.
    pub seconds: Option<u64>,
}

/// What is shown besides what commands type.
#[derive(Clone, Copy)]
pub struct Manner {
    /// Whether a star asks for commands.
    pub prompt: bool,
    /// Whether the code of an error is shown.
    pub shows_codes: bool,
}

/// How a stream of commands is served.
#[derive(Clone, Copy)]
pub struct Settings {
    /// How far each command string may run.
    pub bounds: Bounds,
    /// What is shown besides what they type.
    pub manner: Manner,
}

/// What asks a command string to stop when it has run long enough.
pub trait Alarm: Stop {
    /// A command string begins, which may run so many seconds.
    fn set(&mut self, seconds: u64)
        ensures span { (Self.answered self.new).span ≡ seconds }
        ensures fresh { (k : ℕ) → (Self.answered self.new).said k true → ⊥ };
}

/// What tells the time to an alarm.
pub trait Timer: Drop {
    // from what it was to what it is, a reading may have told this
    ghost tells: { Self → Self → Option Instant → Type 0 };

    /// Reads the time. It tells nothing if it can't be read.
    fn read(&mut self) -> Option<Instant>
        ensures { tells self.old self.new result };

    /// Reads the time by a shared reference. What it tells no contract says.
    fn peek(&self) -> Option<Instant>;
}

/// The clock of the system. What it tells no contract says.
#[derive(Drop)]
pub struct SystemTimer<'a, C: Clock> {
    clock: &'a C,
}

impl<'a, C: Clock> Timer for SystemTimer<'a, C> {
    ghost tells = { λ _ _ _. Unit {0} };

    fn read(&mut self) -> Option<Instant> {
        self.peek()
    }

    fn peek(&self) -> Option<Instant> {
        Instant::now(self.clock).ok()
    }
}

/// The most steps from one look at the clock to the next.
const MOST_STEPS: u64 = 16;

/// How many milliseconds may lie between two looks before there are fewer steps from one to the next.
const NEAR: u128 = 10;

/// An alarm by a clock.
///
/// It reads the clock when it is set, and then before each 16th step, or more often where steps take long, and also within a long search. It
/// asks a string to stop only after a reading that is so many seconds later than the first one. A clock that can't be read breaks off no
/// string.
#[derive(Drop)]
pub struct ClockAlarm<M: Timer> {
    timer: M,
    seconds: u64,
    /// What the clock told when the alarm was set.
    first: Option<Instant>,
    /// What it told last.
    last: Option<Instant>,
    /// The steps from one look to the next.
    pace: u64,
    /// After how many steps it looks next.
    next: u64,
}

impl<'a, C: Clock> ClockAlarm<SystemTimer<'a, C>> {
    /// It isn't set yet.
    pub fn new(clock: &'a C) -> ClockAlarm<SystemTimer<'a, C>> {
        ClockAlarm {
            timer: SystemTimer { clock },
            seconds: 0,
            first: None,
            last: None,
            pace: 1,
            next: 0,
        }
    }
}

impl<M: Timer> ClockAlarm<M> {
    /// It is set for so many seconds, which begin now.
    fn begin(&mut self, seconds: u64)
        ensures span { self.new.seconds ≡ seconds }
        ensures reads { M.tells self.old.timer self.new.timer self.new.first }
        ensures fresh { self.new.last ≡ None }
    {
        self.seconds = seconds;
        self.first = self.timer.read();
        self.last = None;
        self.pace = 1;
        self.next = 0;
    }

    /// Whether the seconds are over. It reads the clock, unless they were over before.
    fn is_over(&mut self) -> bool
        ensures over { IsTrue result ↔ AreApart self.new.seconds self.new.first self.new.last }
        ensures still { AreApart self.old.seconds self.old.first self.old.last
            → AreApart self.new.seconds self.new.first self.new.last }
        ensures span { self.new.seconds ≡ self.old.seconds }
        ensures begun { self.new.first ≡ self.old.first }
        ensures reads { (self.new.last ≡ self.old.last) ⊎ M.tells self.old.timer self.new.timer self.new.last }
    {
        if !are_apart(self.seconds, self.first, self.last) {
            self.last = self.timer.read();
        }
        are_apart(self.seconds, self.first, self.last)
    }

    /// Whether the seconds are over, by a look after so many steps. It sets when the next one is due.
    fn looks(&mut self, done: u64) -> bool
        ensures over { IsTrue result ↔ AreApart self.new.seconds self.new.first self.new.last }
        ensures still { AreApart self.old.seconds self.old.first self.old.last
            → AreApart self.new.seconds self.new.first self.new.last }
        ensures span { self.new.seconds ≡ self.old.seconds }
    {
        let before = self.last.or(self.first);
        let over = self.is_over();
        self.pace = pace_after(self.pace, before, self.last);
        self.next = done.saturating_add(self.pace);
        over
    }
}

/// The steps up to the next look: at most twice as many as up to this one, and fewer where they took long.
fn pace_after(pace: u64, before: Option<Instant>, now: Option<Instant>) -> u64 {
    match (before, now) {
        (Some(before), Some(now)) if now.duration_since(before).as_millis() > NEAR => (pace
            / 4).max(1),
        _ => pace.saturating_mul(2).min(MOST_STEPS),
    }
}

/// Whether so many seconds lie between two readings of a clock.
fn are_apart(seconds: u64, first: Option<Instant>, last: Option<Instant>) -> bool
    ensures { IsTrue result ↔ AreApart seconds first last }
{
    match (first, last) {
        (Some(first), Some(last)) => last.duration_since(first).as_secs() >= seconds,
        _ => false,
    }
}

impl<M: Timer> Patience for ClockAlarm<M> {
    fn has_ended(&self) -> bool {
        are_apart(self.seconds, self.first, self.timer.peek())
    }
}

impl<M: Timer> Stop for ClockAlarm<M> {
    ghost answered = { λ alarm. clock_answers alarm.seconds alarm.first alarm.last };

    #[inline(always)]
    fn asks(&mut self, done: u64) -> bool {
        done >= self.next && self.looks(done)
    }

    fn asks_now(&mut self, done: u64) -> bool {
        self.looks(done)
    }
}

impl<M: Timer> Alarm for ClockAlarm<M> {
    fn set(&mut self, seconds: u64) {
        self.begin(seconds);
    }
}
