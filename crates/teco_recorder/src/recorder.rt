//! A listener that writes what each request did.
ghost use Rattle.std.specs.Prelude.{◌≡◌, is_some};
ghost use Rattle.teco_recorder.specs.Recording.{RecordsHeard, Settles, recording};

use crate::open_file::OpenFile;
use std::alloc::Global;
use teco_cli::Line;
use teco_core::Code;
use teco_fs::{Disk, Reason, reason_of};
use teco_journal::Entry;
use teco_serve::{Bounds, Fate, Listens};
use teco_session::{Answered, Session};

/// Writes the line of what each request did to the file of the session, before its answer is shown. Whatever it hears, another one hears too.
#[derive(Drop)]
pub struct Recorder<'a, D: Disk, L: Listens> {
    pub alloc: Global,
    pub disk: &'a mut D,
    pub file: &'a mut OpenFile<D>,
    /// Whether each line outlasts a crash of the machine before the answer is shown.
    pub syncs: bool,
    /// Why a line could not be written. After that no more are.
    pub broken: Option<Reason>,
    pub listener: &'a mut L,
}

impl<'a, D: Disk, L: Listens> Recorder<'a, D, L> {
    /// Waits until all that was written outlasts a crash of the machine.
    pub fn settle(&mut self)
        ensures settles { Settles (recording (D.seen self.old.disk.now) self.old.file.now (is_some self.old.broken))
            (recording (D.seen self.new.disk.now) self.new.file.now (is_some self.new.broken)) }
        ensures same_disk { self.new.disk.ghost_name ≡ self.old.disk.ghost_name }
        ensures same_listener { self.new.listener.ghost_name ≡ self.old.listener.ghost_name }
        ensures same_file { self.new.file.ghost_name ≡ self.old.file.ghost_name }
        ensures listener { self.new.listener.now ≡ self.old.listener.now }
    {
        if self.broken.is_some() {
            return;
        }
        if let Err(error) = self.file.sync(self.disk) {
            self.broken = Some(reason_of(error));
        }
    }
}

impl<'a, D: Disk, L: Listens> Listens for Recorder<'a, D, L> {
    ghost hears = { λ old new heard. (new.disk.ghost_name ≡ old.disk.ghost_name)
        × (new.listener.ghost_name ≡ old.listener.ghost_name)
        × L.hears old.listener.now new.listener.now heard
        × RecordsHeard (recording (D.seen old.disk.now) old.file.now (is_some old.broken))
        (recording (D.seen new.disk.now) new.file.now (is_some new.broken)) heard
        × (new.file.ghost_name ≡ old.file.ghost_name) };

    fn wants_place(&self) -> bool {
        self.listener.wants_place()
    }

    fn did(&mut self, entry: Entry<'_>) {
        if self.broken.is_none() {
            if let Err(error) = self.file.add(self.alloc, self.disk, entry, self.syncs) {
                self.broken = Some(reason_of(error));
            }
        }
        self.listener.did(entry);
    }

    fn ran(
        &mut self,
        text: &[u8],
        begins: u64,
        answered: &Answered,
        bounds: Bounds,
        session: &Session,
    ) {
        self.listener.ran(text, begins, answered, bounds, session);
    }

    fn moved(&mut self, begins: u64, code: Option<Code>, session: &Session) {
        self.listener.moved(begins, code, session);
    }

    fn left(&mut self, bytes: &[u8], broken_off: bool) {
        self.listener.left(bytes, broken_off);
    }

    fn ended(&mut self, line: &Line, input: &str, fate: Fate) {
        self.listener.ended(line, input, fate);
    }
}
