//! The first step of a run that comes at a place which is sought.
ghost use Rattle.std.specs.Prelude.{◌≡◌, Bool, List, ℕ, max};
ghost use Rattle.teco_store.specs.State.{State};
ghost use Rattle.teco_exec.specs.Watching.{Seeks};
ghost use Rattle.teco_exec.specs.Places.{FindsWanted, Wanted, wanted_in};

use crate::cursor::Cursor;
use crate::stop::Stop;
use crate::watch::Watch;
use std::cell::Cell;
use teco_core::Reg;
use teco_scan::filler_end;
use teco_search::Patience;

/// Which places of a run are wanted.
pub trait Wants {
    // with so many calls open, and after so many bytes of the innermost text
    ghost wanted: { Self → ℕ → ℕ → Bool };

    /// Whether a token is wanted that comes after so many bytes of the innermost text, where so many calls are open.
    fn wants(&self, calls: usize, at: usize) -> bool
        ensures { result ≡ wanted self.now calls at };
}

/// A watch that seeks the first step, from one on, that comes at a place which is wanted. It takes no memory.
#[derive(Drop)]
pub struct Seeking<'a, P: Wants + Drop> {
    places: P,
    from: u64,
    found: Option<u64>,
    has_found: &'a Cell<bool>,
}

impl<'a, P: Wants + Drop> Seeking<'a, P> {
    /// Nothing is found so far. The cell is set once a step is.
    pub fn new(places: P, from: u64, has_found: &'a Cell<bool>) -> Seeking<'a, P>
        ensures { (s : State) (text : List ℕ) → Seeks P.wanted result (wanted_in s text (P.wanted places) from) 0 }
    {
        Seeking {
            places,
            from,
            found: None,
            has_found,
        }
    }

    /// The first of the steps so far that is sought, if one is.
    pub fn found(&self) -> Option<u64>
        ensures { (sought : Wanted) (steps : ℕ) → Seeks P.wanted self.now sought steps → FindsWanted sought steps result }
    {
        self.found
    }
}

/// The later of two steps.
fn later(a: u64, b: u64) -> u64
    ensures { result ≡ max a b }
{
    if a < b { b } else { a }
}

impl<'a, P: Wants + Drop> Watch for Seeking<'a, P> {
    ghost knows = { λ _ _. Unit {0} };

    ghost follows = { Seeks P.wanted };

    fn stepped(&mut self, old: u64, new: u64, calls: usize, at: usize, cursor: &Cursor) {
        let first = later(old, self.from);
        if self.found.is_some() || first >= new {
            return;
        }
        if self.places.wants(calls, filler_end(cursor.text.bytes, at)) {
            self.found = Some(first);
            self.has_found.set(true);
        }
    }

    #[inline(always)]
    fn stood(&mut self, _steps: u64, _at: usize, _cursor: &Cursor) {}

    #[inline(always)]
    fn called(&mut self, _register: Reg, _at: usize, _cursor: &Cursor) {}
}

/// Who asks a run to stop once a step is found.
#[derive(Clone, Copy)]
pub struct UntilFound<'a> {
    has_found: &'a Cell<bool>,
}

impl<'a> UntilFound<'a> {
    /// By the cell that a [`Seeking`] sets.
    pub fn new(has_found: &'a Cell<bool>) -> UntilFound<'a> {
        UntilFound { has_found }
    }
}

impl<'a> Patience for UntilFound<'a> {
    #[inline(always)]
    fn has_ended(&self) -> bool {
        false
    }
}

impl<'a> Stop for UntilFound<'a> {
    ghost use Rattle.teco_exec.specs.Runs.{Answers};

    ghost answered = { λ _. (let any : Answers = record { span = 0; said = λ _ _. Unit {0} } in any) };

    #[inline(always)]
    fn asks(&mut self, _done: u64) -> bool {
        self.has_found.get()
    }

    #[inline(always)]
    fn asks_now(&mut self, _done: u64) -> bool {
        self.has_found.get()
    }
}
