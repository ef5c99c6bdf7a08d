//! The handle of a stopper that C keeps.
ghost use Rattle.std.specs.Prelude.{◌≡◌, MatchOption, IfSome, None, Some, Option};
ghost use Rattle.teco_ffi.specs.Handle.{holds};
ghost use Rattle.teco_ffi.specs.Stopper.{coded_flag, SeenFlag};
ghost use Rattle.teco_ffi.specs.contracts.flag.Flag.{the_row as flag_row};

use crate::flag::Flag;
use crate::handle::Inside;
use crate::parts::Parts;
use std::alloc::Global;
use std::marker::Model;
use std::mem::replace;
use std::ptr::null_mut;

/// The place of a flag, or null where it is closed. It is no `Drop`, as the handle of a session is none.
#[repr(C)]
pub struct Stopper {
    at: *mut Inside,
    alloc: Global,
    pub ghost value: { Option SeenFlag } by { coded_flag },
}

impl Model for Stopper {
    ghost also_owns = { λ t. holds flag_row t.alloc t.at t.value };
}

unsafe impl Send for Stopper {}

impl Stopper {
    ghost use Rattle.std.specs.Borrow.{sem};
    ghost use Rattle.teco_ffi.specs.FlagLending.{LendsFlag, with_flag};
    ghost use Rattle.teco_ffi.specs.Lending.{StaysTheSame};
    ghost use Rattle.teco_ffi.specs.contracts.stopper.Stopper.{the_row};

    /// A stopper that is closed. Takes no memory.
    pub fn closed(alloc: Global) -> Stopper
        ensures { result.value ≡ None }
    {
        Stopper {
            at: null_mut(),
            alloc,
        }
    }

    /// A stopper of the flag whose box was taken apart. Takes no memory.
    pub fn of_parts(parts: Parts<Flag, Global>) -> Stopper
        ensures { result.value ≡ Some parts.value }
    {
        let Parts { ptr, alloc } = parts;
        Stopper {
            at: ptr as *mut Inside,
            alloc,
        }
    }

    fn into_parts(self) -> Option<Parts<Flag, Global>>
        ensures { MatchOption result (self.value ≡ None) (λ parts. self.value ≡ Some parts.value) }
    {
        let Stopper { at, alloc } = self;
        if at.is_null() {
            None
        } else {
            Some(Parts {
                ptr: at as *mut Flag,
                alloc,
            })
        }
    }

    /// The flag, if the stopper is open, where it is.
    fn flag(&mut self) -> Option<&mut Flag>
        ensures* writes_back { sem 𝓛 (LendsFlag self.entry result) }
        ensures value { MatchOption result (self.old.value ≡ None)
            (λ flag. self.old.value ≡ Some flag.now) }
        ensures unchanged { IfSome result (λ flag. with_flag self.old flag.now ≡ self.old) }
    {
        let at = self.at;
        if at.is_null() {
            None
        } else {
            Some(unsafe { &mut *(at as *mut Flag) })
        }
    }

    /// The flag, if the stopper is open. The stopper stays the same. Takes no memory.
    pub fn look(&mut self) -> Option<&Flag>
        ensures* same { sem 𝓛 (StaysTheSame the_row self.entry) }
        ensures value { MatchOption result (self.old.value ≡ None)
            (λ flag. self.old.value ≡ Some flag.now) }
    {
        match self.flag() {
            None => None,
            Some(flag) => Some(flag),
        }
    }

    /// Puts another stopper in its place; the flag that was here is freed. Takes no memory.
    pub fn put(&mut self, other: Stopper)
        ensures { self.new.value ≡ other.value }
    {
        match replace(self, other).into_parts() {
            None => {}
            Some(parts) => drop(parts.into_box()),
        }
    }

    /// Opens the stopper with this flag; the one that was here is freed. Takes no memory.
    pub fn open(&mut self, flag: Box<Flag>)
        ensures { self.new.value ≡ Some flag.value }
    {
        self.put(Stopper::of_parts(Parts::of(flag)));
    }

    /// Closes the stopper; the flag that was here is freed. Takes no memory.
    pub fn close(&mut self, alloc: Global)
        ensures { self.new.value ≡ None }
    {
        self.put(Stopper::closed(alloc));
    }
}
