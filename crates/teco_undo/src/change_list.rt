//! Changes in order: what most of them hold lies in 12 bytes.
ghost use Rattle.std.specs.Prelude.{◌≡◌, ◌↔◌, ◌+◌, ◌<◌, ◌≤◌, ◌^◌, ◌++◌, ◌∷◌, [], length, option_to_list, slice_index_or, IsOk, IsSome, OnOk};
ghost use Rattle.std.proofs.Common.{set};
ghost use Rattle.teco_store.specs.ChangeView.{small_turn};
ghost use Rattle.teco_store.specs.Turn.{held_by, body_after, turn_after, note_after, full_after, Stands, FitsFull, Number, Point};
ghost use Rattle.teco_store.specs.Kinds.{kind_of, way_back, ChangesOnly};
ghost use Rattle.teco_undo.specs.Listing.{no_note};
ghost use Rattle.teco_undo.specs.Slots.{FitsSlot};
ghost use Rattle.teco_store.specs.State.{Body};

use crate::slot::{Slot, SlotValue, halves_of};
use std::alloc::Global;
use std::marker::Model;
use teco_core::{NoMemory, Reg};
use teco_store::change::{PartChange, SmallChange};
use teco_store::{Change, ChangeKind, Desk, Editor, change_laws};

// Puts the pointer at a place, and gives the one where it stood.
#[inline(always)]
fn swap_pointer(editor: &mut Editor, pointer: u32) -> u32
    requires { FitsFull (Point pointer) editor.old }
    ensures editor { editor.new ≡ full_after (Point pointer) editor.old }
    ensures pointer { Point result ≡ turn_after (Point pointer) editor.old.body }
{
    // This shows that what the editor holds is within its limits.
    let _shown = editor.shown();
    let there = editor.pointer() as u32;
    let _held = editor.put_small(SmallChange::Point(pointer));
    there
}

/// Changes, in the order in which they were made.
///
/// One of a number, of the pointer, of a flag or of a byte takes 12 bytes. What is larger is held apart, and so is what was noted after 2^32
/// steps. A clause sees them as the changes, and how many more have room.
pub struct ChangeList {
    slots: Vec<Slot>,
    apart: Vec<Change>,
}

// Its parts go here, and a crate that lets changes go calls this.
impl Drop for ChangeList {
    fn drop(self) {
        let ChangeList { slots: _, apart: _ } = self;
    }
}

impl Model for ChangeList {
    ghost use Rattle.teco_undo.specs.Listing.{ChangeListing, listed_in, IsChangeListing};

    ghost Value = { ChangeListing };

    ghost view = { listed_in };

    ghost invariant = { IsChangeListing };
}

impl ChangeList {
    /// None. Takes no memory.
    pub(crate) fn new(alloc: Global) -> ChangeList
        ensures { result.items ≡ [] }
    {
        ChangeList {
            slots: Vec::new(alloc),
            apart: Vec::new(alloc),
        }
    }

    /// How many there are.
    pub fn len(&self) -> usize
        ensures { result ≡ length self.now.items }
    {
        self.slots.len()
    }

    /// The steps that were done before a change.
    pub fn step(&self, i: usize) -> u64
        requires { i < length self.now.items }
        ensures { result ≡ (slice_index_or self.now.items i no_note).step }
    {
        let slot = self.slots[i];
        match slot.small() {
            SmallChange::HeldApart(place) => self.apart[place].step(),
            _ => u64::from(slot.step),
        }
    }

    /// The bytes of the text of a change, if it has one.
    pub fn held(&self, i: usize) -> usize
        requires { i < length self.now.items }
        ensures { result ≡ held_by (slice_index_or self.now.items i no_note).turn }
    {
        match self.slots[i].small() {
            SmallChange::HeldApart(place) => self.apart[place].held(),
            SmallChange::InsertByte { .. } => 1,
            _ => 0,
        }
    }

    /// What a change is for, and of a splice how many bytes a turn takes out and puts in. Takes no memory.
    pub fn kind(&self, i: usize) -> ChangeKind
        requires { i < length self.now.items }
        ensures kind { result ≡ kind_of (slice_index_or self.now.items i no_note).turn }

        // A turn changes nothing else, and leaves a change that goes back.
        ensures only { (b : Body) → ChangesOnly result b
            (body_after (slice_index_or self.now.items i no_note).turn b) }
        ensures back { (b : Body) → Stands (slice_index_or self.now.items i no_note).turn b
            → kind_of (turn_after (slice_index_or self.now.items i no_note).turn b) ≡ way_back result }
    {
        change_laws();
        match self.slots[i].small() {
            SmallChange::HeldApart(place) => self.apart[place].kind(),
            small => small.kind(),
        }
    }

    /// Swaps what a change holds with what stands in its place. Takes no memory.
    ///
    /// Most changes are of a number, so that is asked first. Only the value is written.
    #[inline(always)]
    pub(crate) fn turn(&mut self, i: usize, editor: &mut Editor)
        requires within { i < length self.old.items }
        requires fits { FitsFull (slice_index_or self.old.items i no_note).turn editor.old }
        ensures editor { editor.new ≡ full_after (slice_index_or self.old.items i no_note).turn editor.old }
        ensures items { self.new.items ≡ set self.old.items i
            (note_after (slice_index_or self.old.items i no_note) editor.old.body) }
    {
        let slot = &mut self.slots[i];
        let value = slot.value;
        if let SlotValue::Number(q, _) = value {
            if let SlotValue::Number(_, number) = &mut slot.value {
                *number = editor.put_number(q, *number);
            }
        } else {
            self.turn_other(i, editor);
        }
    }

    // The same of a change of any kind.
    #[inline(always)]
    fn turn_other(&mut self, i: usize, editor: &mut Editor)
        requires within { i < length self.old.items }
        requires fits { FitsFull (slice_index_or self.old.items i no_note).turn editor.old }
        ensures editor { editor.new ≡ full_after (slice_index_or self.old.items i no_note).turn editor.old }
        ensures items { self.new.items ≡ set self.old.items i
            (note_after (slice_index_or self.old.items i no_note) editor.old.body) }
    {
        // This shows that what the editor holds is within its limits.
        let _shown = editor.shown();
        let slot = &mut self.slots[i];
        match slot.small() {
            SmallChange::HeldApart(place) => self.apart[place].turn(editor),
            SmallChange::Point(pointer) => {
                slot.value = SlotValue::Point(swap_pointer(editor, pointer));
            }
            small => {
                let value = SlotValue::of(editor.put_small(small));
                slot.value = value;
            }
        }
    }

    /// Finds room for so many more, and for so many that are held apart.
    #[inline(always)]
    pub(crate) fn reserve(&mut self, changes: usize, apart: usize) -> Result<(), NoMemory>
        ensures items { self.new.items ≡ self.old.items }
        ensures spare { OnOk result (changes ≤ self.new.spare) }
        ensures apart { OnOk result (apart ≤ self.new.apart) }
        ensures succeeds { changes ≤ self.old.spare → apart ≤ self.old.apart → IsOk result }
    {
        self.slots.reserve(changes)?;
        self.apart.reserve(apart)
    }

    /// Notes a change of a kind that has slots, at a place that was found. Takes no memory.
    #[inline(always)]
    pub(crate) fn push(&mut self, step: u32, small: SmallChange)
        requires spare { 0 < self.old.spare }
        requires fits { FitsSlot small }
        ensures items { self.new.items
            ≡ self.old.items ++ record { step = step; turn = small_turn small } ∷ [] }
        ensures spare { self.new.spare + 1 ≡ self.old.spare }
        ensures apart { self.new.apart ≡ self.old.apart }
    {
        let value = SlotValue::of(small);
        self.slots.push_reserved(Slot { step, value });
    }

    /// Notes a number that stood in a register, at a place that was found. Takes no memory.
    #[inline(always)]
    pub(crate) fn push_number(&mut self, step: u32, q: Reg, number: i32)
        requires { 0 < self.old.spare }
        ensures items { self.new.items
            ≡ self.old.items ++ record { step = step; turn = Number q number } ∷ [] }
        ensures spare { self.new.spare + 1 ≡ self.old.spare }
        ensures apart { self.new.apart ≡ self.old.apart }
    {
        let value = SlotValue::Number(q, number);
        self.slots.push_reserved(Slot { step, value });
    }

    /// Notes a change that is held apart, at places that were found. Takes no memory.
    pub(crate) fn push_apart(&mut self, step: u64, part: PartChange)
        requires spare { 0 < self.old.spare }
        requires apart { 0 < self.old.apart }
        ensures items { self.new.items ≡ self.old.items ++ record { step = step; turn = part } ∷ [] }
        ensures spare { self.new.spare + 1 ≡ self.old.spare }
        ensures apart { self.new.apart + 1 ≡ self.old.apart }
    {
        let (high, value) = halves_of(self.apart.len());
        self.apart.push_reserved(Change::new(step, part));
        self.slots.push_reserved(Slot { step: high, value });
    }

    /// Takes off the last change, if there is one. Takes no memory.
    #[inline(always)]
    pub fn pop(&mut self) -> Option<Change>
        ensures items { self.old.items ≡ self.new.items ++ option_to_list result }
        ensures variant { IsSome result ↔ (0 < length self.old.items) }
    {
        let Some(slot) = self.slots.pop() else {
            return None;
        };
        match slot.small() {
            SmallChange::HeldApart(_) => match self.apart.pop() {
                Some(change) => Some(change),
                // The last of those held apart is there, by what always holds of the list.
                None => unreachable!(),
            },
            small => Some(Change::small(u64::from(slot.step), small)),
        }
    }

    /// Drops all of them, and keeps the memory.
    pub(crate) fn clear(&mut self)
        ensures { self.new.items ≡ [] }
    {
        self.slots.clear();
        self.apart.clear();
    }

    /// Gives back what memory they do not need.
    pub fn shrink_to_fit(&mut self)
        ensures { self.new.items ≡ self.old.items }
    {
        self.slots.shrink_to_fit();
        self.apart.shrink_to_fit();
    }
}
