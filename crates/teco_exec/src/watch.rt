//! What is told of where a run last stood.
ghost use Rattle.std.specs.Prelude.{◌≡◌, ◌≤◌, ℕ, IfOk, IsSomeAnd, Ok, Option, None, Some, length};
ghost use Rattle.teco_scan.specs.Breaks.{IsTokenPlace};
ghost use Rattle.teco_exec.specs.Places.{Told, told_here, with_call, Wanted, StoodThrough};
ghost use Rattle.teco_exec.specs.View.{cursor as cursor_of};

use crate::cursor::Cursor;
use crate::place::{Call, Place};
use std::alloc::Global;
use teco_core::{NoMemory, Reg};
use teco_scan::{filler_end, first_fault};

/// Who is told where a run last stood: of the innermost text first, and then of each text that has called.
///
/// Only this crate has such types, since no other one knows a cursor.
pub trait Watch {
    // that it has been told nothing, or so
    ghost knows: { Self → Option Told → Type 0 };

    // that it has followed a run for so many steps, and seeks this in it
    ghost follows: { Self → Wanted → ℕ → Type 0 };

    /// The steps of a run from the one to the other, which is not among them, come at a place of this text, with so many calls open. It
    /// may be that some of them aren't done.
    fn stepped(&mut self, old: u64, new: u64, calls: usize, at: usize, cursor: &Cursor)
        requires within { at ≤ length cursor.now.text.bytes.now }
        requires order { old ≤ new }
        ensures knows { (p : Option Told) → knows self.old p → knows self.new p }
        ensures follows { (sought : Wanted) (done : ℕ) → StoodThrough sought old new calls cursor.now.text.bytes.now at
            → follows self.old sought old → old ≤ done → done ≤ new → follows self.new sought done };

    /// After so many steps the run stood at a place of this text, and then it stopped or its step failed.
    fn stood(&mut self, steps: u64, at: usize, cursor: &Cursor)
        requires { at ≤ length cursor.now.text.bytes.now }
        ensures told { knows self.old None → (to : ℕ) × IsTokenPlace cursor.now.text.bytes.now at to
            × knows self.new (Some (told_here cursor.now.text.profile steps cursor.now.text.bytes.now to (cursor_of cursor.now).blocks)) }
        ensures follows { (sought : Wanted) (done : ℕ) → follows self.old sought done → follows self.new sought done };

    /// That was in the text of this register, which is called at a place of this text.
    fn called(&mut self, register: Reg, at: usize, cursor: &Cursor)
        requires { at ≤ length cursor.now.text.bytes.now }
        ensures told { (p : Told) → knows self.old (Some p) → (to : ℕ) × IsTokenPlace cursor.now.text.bytes.now at to
            × knows self.new (Some (with_call p register to (cursor_of cursor.now).blocks)) }
        ensures follows { (sought : Wanted) (done : ℕ) → follows self.old sought done → follows self.new sought done };
}

/// Nobody watches.
#[derive(Clone, Copy)]
pub struct Unwatched;

impl Watch for Unwatched {
    ghost knows = { λ _ _. Unit {0} };

    ghost follows = { λ _ _ _. Unit {0} };

    #[inline(always)]
    fn stepped(&mut self, _old: u64, _new: u64, _calls: usize, _at: usize, _cursor: &Cursor) {}

    #[inline(always)]
    fn stood(&mut self, _steps: u64, _at: usize, _cursor: &Cursor) {}

    #[inline(always)]
    fn called(&mut self, _register: Reg, _at: usize, _cursor: &Cursor) {}
}

/// A watch that keeps the place, unless it lacks memory.
#[derive(Drop)]
pub struct Watched {
    alloc: Global,
    place: Place,
    has_stood: bool,
    lacks_memory: bool,
}

impl Watched {
    ghost use Rattle.teco_exec.specs.Watching.{KeepsPlace, Knows};
    ghost use Rattle.teco_exec.specs.Telling.{KnowsLast, TellsPlace};
    ghost use Rattle.teco_exec.specs.declared.outcome.Outcome.{Outcome};
    ghost use Rattle.teco_store.specs.State.{State};
    ghost use Rattle.std.specs.Prelude.{List};

    /// Nothing has been told. Takes no memory.
    pub fn new(alloc: Global) -> Watched
        ensures { Knows result None }
    {
        Watched {
            alloc,
            place: Place {
                steps: 0,
                at: 0,
                turns: Vec::new(alloc),
                calls: Vec::new(alloc),
                fault: None,
            },
            has_stood: false,
            lacks_memory: false,
        }
    }

    /// Where the run last stood of which it was told: None where it ended with no code, and an error where memory lacks for the place.
    pub fn into_place(self) -> Result<Option<Place>, NoMemory>
        ensures none { Knows self None → result ≡ Ok None }
        ensures told { (s : State) (text : List ℕ) (outcome : Outcome)
            → KnowsLast (Knows self) s text outcome → TellsPlace s text outcome result }
    {
        self.kept()
    }

    /// The place that it keeps.
    fn kept(self) -> Result<Option<Place>, NoMemory>
        ensures none { Knows self None → result ≡ Ok None }
        ensures some { (p : Told) → Knows self (Some p)
            → IfOk result (λ told. IsSomeAnd told (λ place. KeepsPlace place p)) }
    {
        let Watched {
            place,
            has_stood,
            lacks_memory,
            ..
        } = self;
        if lacks_memory {
            return Err(NoMemory);
        }
        if has_stood {
            return Ok(Some(place));
        }
        Ok(None)
    }
}

impl Watch for Watched {
    ghost use Rattle.teco_exec.specs.Watching.{Knows};

    ghost knows = { Knows };

    ghost follows = { λ _ _ _. Unit {0} };

    #[inline(always)]
    fn stepped(&mut self, _old: u64, _new: u64, _calls: usize, _at: usize, _cursor: &Cursor) {}

    fn stood(&mut self, steps: u64, at: usize, cursor: &Cursor) {
        self.has_stood = true;
        match cursor.blocks.turns(self.alloc) {
            Ok(turns) => {
                self.place.steps = steps;
                self.place.at = filler_end(cursor.text.bytes, at);
                self.place.fault = first_fault(cursor.text.profile, cursor.text.bytes);
                self.place.turns = turns;
            }
            Err(_) => self.lacks_memory = true,
        }
    }

    fn called(&mut self, register: Reg, at: usize, cursor: &Cursor) {
        match cursor.blocks.turns(self.alloc) {
            Ok(turns) => {
                let call = Call {
                    register,
                    at: filler_end(cursor.text.bytes, at),
                    turns,
                };
                if self.place.calls.push(call).is_err() {
                    self.lacks_memory = true;
                }
            }
            Err(_) => self.lacks_memory = true,
        }
    }
}
