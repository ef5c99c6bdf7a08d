//! Who may ask a run to stop.
ghost use Rattle.teco_exec.specs.Runs.{Answers, StillSays, never_asks};

use teco_search::Patience;

/// Who may ask a run to stop, before each of its steps and after one that was given up. Its patience says whether a search is to give up
/// within its step.
pub trait Stop: Patience {
    // the time that it gives, which stays, and what it has answered, and after how many steps
    ghost answered: { Self → Answers };

    /// Whether the run is to stop now, after so many steps.
    ///
    /// The steps are told so that a clock need not be read before each one.
    fn asks(&mut self, done: u64) -> bool
        ensures answers { (answered self.new).said done result }
        ensures still { StillSays (answered self.old) (answered self.new) };

    /// The same after a step that was given up: a clock is read, however few steps were done.
    fn asks_now(&mut self, done: u64) -> bool
        ensures answers { (answered self.new).said done result }
        ensures still { StillSays (answered self.old) (answered self.new) };
}

/// Nobody asks.
#[derive(Clone, Copy)]
pub struct Never;

impl Patience for Never {
    #[inline(always)]
    fn has_ended(&self) -> bool {
        false
    }
}

impl Stop for Never {
    ghost answered = { λ _. never_asks };

    #[inline(always)]
    fn asks(&mut self, _done: u64) -> bool {
        false
    }

    #[inline(always)]
    fn asks_now(&mut self, _done: u64) -> bool {
        false
    }
}
