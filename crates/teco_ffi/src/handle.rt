//! The handle that C keeps.
ghost use Rattle.std.specs.Prelude.{◌≡◌, MatchOption, IfSome, None, Some, Option};
ghost use Rattle.teco_ffi.specs.Handle.{holds, coded_held, Kept};
ghost use Rattle.teco_session.specs.contracts.session.Session.{the_row as kept_row};

use crate::parts::Parts;
use std::alloc::Global;
use std::marker::Model;
use std::mem::replace;
use std::ptr::null_mut;
use teco_session::Session;

/// What a handle leads to is never seen by C.
#[repr(C)]
pub struct Inside {
    byte: u8,
}

/// The place of a session, or null where it is closed. It is no `Drop`: no function here can let one go, so no session is lost.
// A stopper is the same over a flag, and one generic struct would do for both; but an export takes no generic one. Nor can a handle be seen
// as such a struct where it lies, since memory holds it under the name of its type.
#[repr(C)]
pub struct Teco {
    at: *mut Inside,
    alloc: Global,
    pub ghost value: { Option Kept } by { coded_held },
}

impl Model for Teco {
    ghost also_owns = { λ t. holds kept_row t.alloc t.at t.value };
}

impl Teco {
    ghost use Rattle.std.specs.Borrow.{sem};
    ghost use Rattle.teco_ffi.specs.Lending.{LendsSession, StaysTheSame, with_session};
    ghost use Rattle.teco_ffi.specs.contracts.handle.Teco.{the_row};

    /// A handle that is closed. Takes no memory.
    pub fn closed(alloc: Global) -> Teco
        ensures { result.value ≡ None }
    {
        Teco {
            at: null_mut(),
            alloc,
        }
    }

    /// A handle of the session whose box was taken apart. Takes no memory.
    pub fn of_parts(parts: Parts<Session, Global>) -> Teco
        ensures { result.value ≡ Some parts.value }
    {
        let Parts { ptr, alloc } = parts;
        Teco {
            at: ptr as *mut Inside,
            alloc,
        }
    }

    fn into_parts(self) -> Option<Parts<Session, Global>>
        ensures { MatchOption result (self.value ≡ None) (λ parts. self.value ≡ Some parts.value) }
    {
        let Teco { at, alloc } = self;
        if at.is_null() {
            None
        } else {
            Some(Parts {
                ptr: at as *mut Session,
                alloc,
            })
        }
    }

    /// The session, if the handle is open, to be changed where it is. A handle whose session is left as it was is the same handle.
    /// Takes no memory.
    pub fn session(&mut self) -> Option<&mut Session>
        ensures* writes_back { sem 𝓛 (LendsSession self.entry result) }
        ensures value { MatchOption result (self.old.value ≡ None)
            (λ session. self.old.value ≡ Some session.now) }
        ensures unchanged { IfSome result (λ session. with_session self.old session.now ≡ self.old) }
    {
        let at = self.at;
        if at.is_null() {
            None
        } else {
            Some(unsafe { &mut *(at as *mut Session) })
        }
    }

    /// The session, if the handle is open, to be looked at where it is. The handle stays the same. Takes no memory.
    pub fn look(&mut self) -> Option<&Session>
        ensures* same { sem 𝓛 (StaysTheSame the_row self.entry) }
        ensures value { MatchOption result (self.old.value ≡ None)
            (λ session. self.old.value ≡ Some session.now) }
    {
        match self.session() {
            None => None,
            Some(session) => Some(session),
        }
    }

    /// Puts another handle in its place; the session that was here is freed. Takes no memory.
    pub fn put(&mut self, other: Teco)
        ensures { self.new.value ≡ other.value }
    {
        match replace(self, other).into_parts() {
            None => {}
            Some(parts) => drop(parts.into_box()),
        }
    }

    /// Opens the handle with this session; the one that was here is freed. Takes no memory.
    pub fn open(&mut self, session: Box<Session>)
        ensures { self.new.value ≡ Some session.value }
    {
        self.put(Teco::of_parts(Parts::of(session)));
    }

    /// Closes the handle; the session that was here is freed. Takes no memory.
    pub fn close(&mut self, alloc: Global)
        ensures { self.new.value ≡ None }
    {
        self.put(Teco::closed(alloc));
    }
}
