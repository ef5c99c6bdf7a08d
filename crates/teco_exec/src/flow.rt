//! What a step of a text leads to, and what is counted.
ghost use Rattle.std.specs.Prelude.{◌≡◌, ◌≤◌};

use crate::stop::Stop;
use teco_core::{Code, Reg};
use teco_step::Work;

/// What one step of a text leads to.
#[derive(Clone, Copy)]
pub(crate) enum Flow {
    /// The text goes on at the cursor.
    On,
    /// A step comes that calls the text of this register, and then the text goes on at the cursor.
    Call(Reg),
    /// The text is over, and its caller goes on.
    Return,
    /// The whole run is over, by a step that ends the session.
    Over,
    /// The whole run is over, by a step that failed.
    Fail(Code),
    /// The whole run stops, before a step or at a fault.
    Stop(Code),
}

/// What one step of a token leads to.
#[derive(Clone, Copy)]
pub(crate) enum Progress {
    /// A further step of the same token, with this work left.
    Further(Work),
    /// The token is done.
    Done(Flow),
}

/// How a text came to its end.
#[derive(Clone, Copy)]
pub(crate) enum Exit {
    /// Its caller goes on.
    Return,
    /// The whole run is over, by a step that ends the session.
    Over,
    /// The whole run is over, by a step that failed.
    Fail(Code),
    /// The whole run stops, before a step or at a fault.
    Stop(Code),
}

impl Exit {
    ghost use Rattle.teco_exec.specs.Running.{code_left};

    /// The code that the run of a whole string ends by.
    pub fn code(self) -> Option<Code>
        ensures { result ≡ code_left self }
    {
        match self {
            Exit::Return | Exit::Over => None,
            Exit::Fail(code) | Exit::Stop(code) => Some(code),
        }
    }
}

/// The steps that are done, at most as many as the limit. It is lowered to them where the run is to stop.
#[derive(Drop)]
pub(crate) struct Steps {
    pub done: u64,
    pub limit: u64,
    ghost within: { done ≤ limit },
}

impl Steps {
    ghost use Rattle.std.specs.Prelude.{◌≡◌, ◌+◌, ◌<◌, ◌⊎◌, true, false};
    ghost use Rattle.teco_exec.specs.Runs.{StillSays};

    /// One step more is done.
    pub fn count(&mut self)
        requires { self.old.done < self.old.limit }
        ensures done { self.new.done ≡ self.old.done + 1 }
        ensures limit { self.new.limit ≡ self.old.limit }
    {
        self.done += 1;
    }

    /// How many steps are done after the one that comes.
    #[inline(always)]
    pub fn next(&self) -> u64
        requires { self.now.done < self.now.limit }
        ensures { result ≡ self.now.done + 1 }
    {
        self.done + 1
    }

    /// Whether no step may be begun: none is left, or the run is asked to stop.
    #[inline(always)]
    pub fn are_over<S: Stop>(&self, stop: &mut S) -> bool
        ensures over { result ≡ true
            → (self.now.done ≡ self.now.limit) ⊎ (S.answered stop.new).said self.now.done true }
        ensures left { result ≡ false → self.now.done < self.now.limit }
        ensures lets { result ≡ false → (S.answered stop.new).said self.now.done false }
        ensures still { StillSays (S.answered stop.old) (S.answered stop.new) }
    {
        self.done == self.limit || stop.asks(self.done)
    }
}
