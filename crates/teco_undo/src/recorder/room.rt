//! Memory for changes is found before any of them is made.
ghost use Rattle.std.specs.Prelude.{◌≡◌, ℕ, ◌+◌, ◌<◌, ◌≤◌, ◌^◌, length, [], IfOk, IsOk, MatchOption, OnOk};
ghost use Rattle.std.specs.Vec.{vec_capacity};
ghost use Rattle.teco_undo.specs.Holding.{held_apart};
ghost use Rattle.teco_undo.specs.Follows.{StillFollows};
ghost use Rattle.teco_store.specs.State.{IsSound};

use crate::recorder::Recorder;
use teco_core::NoMemory;
use teco_store::SHORT_LIMIT;

// How many places so many changes take among those that are held apart, which are all of them from 2^32 steps on.
fn places_apart(done: u64, changes: usize, apart: usize) -> usize
    ensures enough { apart ≤ result }
    ensures late { 2 ^ 32 ≤ done → changes ≤ result }
    ensures least { (n : ℕ) → apart ≤ n → (2 ^ 32 ≤ done → changes ≤ n) → result ≤ n }
{
    if done >= 4_294_967_296 && apart < changes {
        changes
    } else {
        apart
    }
}

impl Recorder {
    // Finds room for so many more changes, and for so many of them that are held apart.
    #[inline(always)]
    pub(super) fn reserve(&mut self, changes: usize, apart: usize) -> Result<(), NoMemory>
        ensures full { self.new.full ≡ self.old.full }
        ensures sound { IsSound self.new.full.room (length self.new.full.stored) self.new.full.body }
        ensures spare { OnOk result (changes ≤ self.new.spare) }
        ensures apart { OnOk result (apart ≤ self.new.apart) }
        ensures with_room { changes ≤ self.old.spare → apart ≤ self.old.apart → IsOk result }
        ensures keeps { StillFollows self.old self.new }
    {
        if self.done >= 4_294_967_296 {
            return self.reserve_late(changes, apart);
        }
        self.reserve_early(changes, apart)
    }

    // The same before 2^32 steps.
    #[inline(always)]
    pub(super) fn reserve_early(&mut self, changes: usize, apart: usize) -> Result<(), NoMemory>
        requires early { self.old.done < 2 ^ 32 }
        ensures full { self.new.full ≡ self.old.full }
        ensures sound { IsSound self.new.full.room (length self.new.full.stored) self.new.full.body }
        ensures done { self.new.done ≡ self.old.done }
        ensures spare { OnOk result (changes ≤ self.new.spare) }
        ensures apart { OnOk result (apart ≤ self.new.apart) }
        ensures with_room { changes ≤ self.old.spare → apart ≤ self.old.apart → IsOk result }
        ensures keeps { StillFollows self.old self.new }
    {
        // This shows that what the editor holds is within its limits.
        let _shown = self.editor.shown();
        self.entry.reserve(changes, apart)
    }

    // The same after 2^32 steps, when all are held apart.
    #[cold]
    #[inline(never)]
    pub(super) fn reserve_late(&mut self, changes: usize, apart: usize) -> Result<(), NoMemory>
        ensures full { self.new.full ≡ self.old.full }
        ensures sound { IsSound self.new.full.room (length self.new.full.stored) self.new.full.body }
        ensures spare { OnOk result (changes ≤ self.new.spare) }
        ensures apart { OnOk result (apart ≤ self.new.apart) }
        ensures with_room { changes ≤ self.old.spare → apart ≤ self.old.apart → IsOk result }
        ensures keeps { StillFollows self.old self.new }
    {
        // This shows that what the editor holds is within its limits.
        let _shown = self.editor.shown();
        let places = places_apart(self.done, changes, apart);
        self.entry.reserve(changes, places)
    }

    // Makes room for a text of `len` bytes.
    pub(super) fn reserve_text(&mut self, len: usize) -> Result<(), NoMemory>
        ensures body { self.new.full.body ≡ self.old.full.body }
        ensures stored { self.new.full.stored ≡ self.old.full.stored }
        ensures spare { self.new.spare ≡ self.old.spare }
        ensures apart { self.new.apart ≡ self.old.apart }
        ensures room { OnOk result (len ≤ self.new.full.room) }
        ensures sound { IsSound self.new.full.room (length self.new.full.stored) self.new.full.body }
        ensures keeps { StillFollows self.old self.new }
    {
        // This shows that what the editor holds is within its limits.
        let _shown = self.editor.shown();
        self.editor.reserve(len)
    }

    // Finds room for so many more changes, for so many of them that are held apart, and for a text of `len` bytes.
    pub(super) fn find_room(
        &mut self,
        changes: usize,
        apart: usize,
        len: usize,
    ) -> Result<(), NoMemory>
        ensures body { self.new.full.body ≡ self.old.full.body }
        ensures stored { self.new.full.stored ≡ self.old.full.stored }
        ensures sound { IsSound self.new.full.room (length self.new.full.stored) self.new.full.body }
        ensures spare { OnOk result (changes ≤ self.new.spare) }
        ensures apart { OnOk result (apart ≤ self.new.apart) }
        ensures room { OnOk result (len ≤ self.new.full.room) }
        ensures keeps { StillFollows self.old self.new }
    {
        self.reserve(changes, apart)?;
        self.reserve_text(len)
    }

    // Finds memory for so many changes, for so many of them that are held apart, for `bytes` bytes that are to be noted, and for a text
    // of `len` bytes.
    pub(super) fn find_memory(
        &mut self,
        changes: usize,
        apart: usize,
        bytes: usize,
        len: usize,
    ) -> Result<Vec<u8>, NoMemory>
        ensures body { self.new.full.body ≡ self.old.full.body }
        ensures stored { self.new.full.stored ≡ self.old.full.stored }
        ensures sound { IsSound self.new.full.room (length self.new.full.stored) self.new.full.body }
        ensures ok { IfOk result (λ v. (v.items ≡ []) × (vec_capacity v ≡ bytes)) }
        ensures spare { OnOk result (changes ≤ self.new.spare) }
        ensures apart { OnOk result (apart ≤ self.new.apart) }
        ensures room { OnOk result (len ≤ self.new.full.room) }
        ensures keeps { StillFollows self.old self.new }
    {
        self.find_room(changes, apart, len)?;
        Vec::with_capacity(self.editor.allocator(), bytes)
    }

    // Finds room for so many changes, for so many of them that are held apart beside the splice, and for a text of `len` bytes; and
    // memory for `bytes` bytes that are to be noted, where they are not few.
    pub(super) fn find_held(
        &mut self,
        changes: usize,
        apart: usize,
        bytes: usize,
        len: usize,
    ) -> Result<Option<Vec<u8>>, NoMemory>
        requires { apart ≤ 1 }
        ensures body { self.new.full.body ≡ self.old.full.body }
        ensures stored { self.new.full.stored ≡ self.old.full.stored }
        ensures sound { IsSound self.new.full.room (length self.new.full.stored) self.new.full.body }
        ensures held { IfOk result (λ held. MatchOption held (bytes ≤ SHORT_LIMIT)
            (λ v. (v.items ≡ []) × (bytes ≤ vec_capacity v) × (SHORT_LIMIT < bytes))) }
        ensures spare { OnOk result (changes ≤ self.new.spare) }
        ensures apart { OnOk result (apart + held_apart bytes ≤ self.new.apart) }
        ensures room { OnOk result (len ≤ self.new.full.room) }
        ensures keeps { StillFollows self.old self.new }
    {
        let apart = apart + usize::from(bytes != 1);
        if bytes <= SHORT_LIMIT {
            self.find_room(changes, apart, len)?;
            return Ok(None);
        }
        let held = self.find_memory(changes, apart, bytes, len)?;
        Ok(Some(held))
    }
}
