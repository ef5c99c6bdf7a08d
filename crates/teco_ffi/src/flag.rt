//! The flag of a stopper, which two handles share.
ghost use Rattle.teco_ffi.specs.Stops.{flag_answers};

use std::alloc::Global;
use std::sync::Arc;
use std::sync::atomic::{AtomicBool, Ordering};
use teco_core::NoMemory;
use teco_exec::{Patience, Stop};

/// Whether runs are asked to stop. What the flag holds no contract tells, since another thread may set it at any time.
#[derive(Drop)]
pub struct Flag {
    asked: Arc<AtomicBool, Global>,
}

impl Flag {
    /// A flag that asks nothing, in two boxes.
    pub fn pair(alloc: Global) -> Result<(Box<Flag>, Box<Flag>), NoMemory> {
        let there = Arc::new(alloc, AtomicBool::new(false))?;
        let here = Arc::try_clone(&there)?;
        let mine = Box::new(alloc, Flag { asked: here })?;
        Ok((mine, Box::new(alloc, Flag { asked: there })?))
    }

    /// Asks runs to stop, or takes it back. Takes no memory, and waits for nobody.
    pub fn set(&self, asked: bool) {
        self.asked.store(asked, Ordering::SeqCst);
    }

    /// Whether runs are asked to stop. Takes no memory, and waits for nobody.
    #[inline(always)]
    pub fn is_set(&self) -> bool {
        self.asked.load(Ordering::SeqCst)
    }
}

/// A flag asks a run to stop.
#[derive(Clone, Copy)]
pub struct Asking<'a> {
    pub flag: &'a Flag,
}

impl<'a> Patience for Asking<'a> {
    fn has_ended(&self) -> bool {
        self.flag.is_set()
    }
}

impl<'a> Stop for Asking<'a> {
    ghost answered = { λ _. flag_answers };

    #[inline(always)]
    fn asks(&mut self, _done: u64) -> bool {
        self.flag.is_set()
    }

    #[inline(always)]
    fn asks_now(&mut self, _done: u64) -> bool {
        self.flag.is_set()
    }
}
