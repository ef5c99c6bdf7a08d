//! A desk that notes each change, so that it can be turned back.
ghost use Rattle.std.specs.Prelude.{◌≡◌, ℕ, ◌+◌, ◌<◌, ◌≤◌, ◌^◌, length, [], take, MatchOption};
ghost use Rattle.std.specs.Vec.{vec_capacity};
ghost use Rattle.teco_undo.specs.Holding.{held_apart};
ghost use Rattle.teco_store.specs.ChangeView.{small_turn, turn_of, HasRoom};
ghost use Rattle.teco_undo.specs.Entry.{weight};
ghost use Rattle.teco_undo.specs.Slots.{HasSlot};
ghost use Rattle.teco_undo.specs.Follows.{Follows, FollowsAfterChanges};
ghost use Rattle.teco_store.specs.State.{IsSound, state_of};
ghost use Rattle.teco_store.specs.Trail.{Trail};
ghost use Rattle.teco_store.specs.Turn.{body_after, full_after, FitsFull, Number, Splice};

mod pages;
mod recording;
mod room;
mod texts;

use crate::change_list::ChangeList;
use std::marker::Model;
use std::mem;
use teco_core::{Reg, TEXT_LIMIT};
use teco_store::change::{PartChange, PartValue, SmallChange};
use teco_store::{Editor, SHORT_LIMIT};

/// An editor whose changes are noted: each call of `Desk` finds all memory first and then makes its changes.
///
/// A clause sees it as the editor, the changes that were noted, the steps done, and how many more changes have room: at all, and of those
/// that are held apart.
#[derive(Drop)]
pub struct Recorder {
    editor: Editor,
    entry: ChangeList,
    done: u64,
}

impl Model for Recorder {
    ghost use Rattle.teco_undo.specs.Follows.{Recording};
    ghost use Rattle.teco_undo.specs.Listing.{spare_after};

    ghost Value = { Recording };

    ghost view = { λ r. record { full = r.editor; notes = r.entry.items; done = r.done; spare = spare_after r.done r.entry; apart = r.entry.apart } };
}

impl Recorder {
    ghost use Rattle.std.specs.Borrow.{sem};
    ghost use Rattle.teco_undo.specs.Lending.{LendsEditor};

    /// A recorder of an editor's changes. Takes no memory.
    pub fn new(editor: Editor) -> Recorder
        ensures full { result.full ≡ editor }
    {
        Recorder {
            entry: ChangeList::new(editor.allocator()),
            editor,
            done: 0,
        }
    }

    /// Notes what comes, and nothing else, and drops what is stored beyond the output's end: it was written and taken back. Takes no
    /// memory.
    pub fn begin(&mut self)
        ensures full { self.new.full
            ≡ record self.old.full { stored = take self.old.full.body.output self.old.full.stored } }
        ensures state { state_of self.new.full ≡ state_of self.old.full }
        ensures empty { (self.new.notes ≡ []) × (self.new.done ≡ 0) }

        // It follows whatever begins here.
        ensures follows { (t : Trail) → t.steps ≡ 0 → t.states 0 ≡ state_of self.old.full
            → t.floor ≤ self.old.full.room → Follows self.new t }
    {
        // This shows that what the editor holds is within its limits.
        let _shown = self.editor.shown();
        self.editor.forget_beyond();
        self.entry.clear();
        self.done = 0;
    }

    /// Gives what was noted. Takes no memory.
    pub fn take(&mut self) -> ChangeList
        ensures full { self.new.full ≡ self.old.full }
        ensures entry { result.items ≡ self.old.notes }
    {
        let alloc = self.editor.allocator();
        mem::replace(&mut self.entry, ChangeList::new(alloc))
    }

    /// The editor. Takes no memory.
    pub fn editor(&self) -> &Editor
        ensures { result.now ≡ self.now.full }
    {
        &self.editor
    }

    /// The editor, for what is not noted. Takes no memory.
    pub fn editor_mut(&mut self) -> &mut Editor
        ensures* writes_back { sem 𝓛 (LendsEditor self.entry result) }
        ensures value { result.now ≡ self.old.full }
    {
        &mut self.editor
    }

    // Puts a value that lies in its change in its place, and notes what stood there. After 2^32 steps it is held apart.
    #[inline(always)]
    fn note(&mut self, small: SmallChange)
        requires spare { 0 < self.old.spare }
        requires here { HasSlot small }
        requires fits { FitsFull (small_turn small) self.old.full }
        requires rises { self.old.full.body.output ≤ (body_after (small_turn small) self.old.full.body).output }
        ensures full { self.new.full ≡ full_after (small_turn small) self.old.full }
        ensures sound { IsSound self.new.full.room (length self.new.full.stored) self.new.full.body }
        ensures spare { self.new.spare + 1 ≡ self.old.spare }
        ensures apart { (k : ℕ) → k ≤ self.new.spare → k ≤ self.old.apart → k ≤ self.new.apart }
        ensures goes { FollowsAfterChanges (weight (small_turn small) self.old.full.body) 1 self.old self.new }
    {
        if self.done >= 4_294_967_296 {
            self.note_apart(PartValue::Small(small));
        } else {
            self.note_early(small);
        }
    }

    // The same before 2^32 steps.
    #[inline(always)]
    fn note_early(&mut self, small: SmallChange)
        requires early { self.old.done < 2 ^ 32 }
        requires spare { 0 < self.old.spare }
        requires here { HasSlot small }
        requires fits { FitsFull (small_turn small) self.old.full }
        requires rises { self.old.full.body.output ≤ (body_after (small_turn small) self.old.full.body).output }
        ensures full { self.new.full ≡ full_after (small_turn small) self.old.full }
        ensures sound { IsSound self.new.full.room (length self.new.full.stored) self.new.full.body }
        ensures spare { self.new.spare + 1 ≡ self.old.spare }
        ensures apart { (k : ℕ) → k ≤ self.new.spare → k ≤ self.old.apart → k ≤ self.new.apart }
        ensures goes { FollowsAfterChanges (weight (small_turn small) self.old.full.body) 1 self.old self.new }
    {
        // This shows that what the editor holds is within its limits.
        let _shown = self.editor.shown();
        let held = self.editor.put_small(small);
        self.entry.push(self.done as u32, held);
    }

    // Puts a number into a register before 2^32 steps, and notes the one that stood there. It is the commonest change, and in line in each
    // command that sets a number, so it is written for itself.
    #[inline(always)]
    fn note_number(&mut self, q: Reg, number: i32)
        requires early { self.old.done < 2 ^ 32 }
        requires spare { 0 < self.old.spare }
        requires fits { FitsFull (Number q number) self.old.full }
        ensures full { self.new.full ≡ full_after (Number q number) self.old.full }
        ensures goes { FollowsAfterChanges 0 1 self.old self.new }
    {
        // This shows that what the editor holds is within its limits.
        let _shown = self.editor.shown();
        let there = self.editor.put_number(q, number);
        self.entry.push_number(self.done as u32, q, there);
    }

    // Puts a value in its place, and notes what stood there, which is held apart.
    fn note_apart(&mut self, kind: PartValue)
        requires spare { 0 < self.old.spare }
        requires apart { 0 < self.old.apart }
        requires room { HasRoom kind }
        requires fits { FitsFull (turn_of kind) self.old.full }
        requires rises { self.old.full.body.output ≤ (body_after (turn_of kind) self.old.full.body).output }
        ensures full { self.new.full ≡ full_after (turn_of kind) self.old.full }
        ensures sound { IsSound self.new.full.room (length self.new.full.stored) self.new.full.body }
        ensures spare { self.new.spare + 1 ≡ self.old.spare }
        ensures apart { self.new.apart + 1 ≡ self.old.apart }
        ensures goes { FollowsAfterChanges (weight (turn_of kind) self.old.full.body) 1 self.old self.new }
    {
        let held = self.editor.put(kind);
        self.entry.push_apart(self.done, PartChange::new(held));
    }

    // Puts `ins` for the `there` bytes at `at`, and notes those that stood there in `held`, which is empty.
    fn exchange(&mut self, at: usize, there: usize, ins: &[u8], pointer: usize, held: Vec<u8>)
        requires spare { 0 < self.old.spare }
        requires apart { 0 < self.old.apart }
        requires empty { held.items ≡ [] }
        requires memory { there + length ins.now ≤ vec_capacity held }
        requires there { at + there ≤ length self.old.full.body.text }
        requires lands { pointer + there ≤ length self.old.full.body.text + length ins.now }
        requires small { length self.old.full.body.text + length ins.now ≤ TEXT_LIMIT + there }
        requires room { length self.old.full.body.text + length ins.now ≤ self.old.full.room + there }
        ensures full { self.new.full ≡ full_after (Splice at there pointer ins.now) self.old.full }
        ensures sound { IsSound self.new.full.room (length self.new.full.stored) self.new.full.body }
        ensures spare { self.new.spare + 1 ≡ self.old.spare }
        ensures apart { self.new.apart + 1 ≡ self.old.apart }
        ensures goes { FollowsAfterChanges (there + length ins.now) 1 self.old self.new }
    {
        // This shows that what the editor holds is within its limits.
        let _shown = self.editor.shown();
        let held = self.editor.exchange(at, there, ins, pointer, held);
        self.entry.push_apart(self.done, PartChange::new(held));
    }

    // Puts a byte in at `at`, or takes it out there, and notes that in the change itself.
    fn exchange_byte(&mut self, at: usize, there: usize, ins: &[u8], pointer: usize)
        requires spare { 0 < self.old.spare }
        requires one { there + length ins.now ≡ 1 }
        requires there { at + there ≤ length self.old.full.body.text }
        requires lands { pointer + there ≤ length self.old.full.body.text + length ins.now }
        requires small { length self.old.full.body.text + length ins.now ≤ TEXT_LIMIT + there }
        requires room { length self.old.full.body.text + length ins.now ≤ self.old.full.room + there }
        ensures full { self.new.full ≡ full_after (Splice at there pointer ins.now) self.old.full }
        ensures sound { IsSound self.new.full.room (length self.new.full.stored) self.new.full.body }
        ensures spare { self.new.spare + 1 ≡ self.old.spare }
        ensures goes { FollowsAfterChanges (there + length ins.now) 1 self.old self.new }
    {
        // This shows that what the editor holds is within its limits.
        let _shown = self.editor.shown();
        if there == 0 {
            self.note(SmallChange::InsertByte {
                at: at as u32,
                pointer: pointer as u32,
                byte: ins[0],
            });
        } else {
            self.note(SmallChange::RemoveByte {
                at: at as u32,
                pointer: pointer as u32,
            });
        }
    }

    // Puts `ins` for the `there` bytes at `at`, and notes those that stood there, which are few: as a short text, or in the change itself.
    fn replace_few(&mut self, at: usize, there: usize, ins: &[u8], pointer: usize)
        requires spare { 0 < self.old.spare }
        requires apart { held_apart (there + length ins.now) ≤ self.old.apart }
        requires short { there + length ins.now ≤ SHORT_LIMIT }
        requires there { at + there ≤ length self.old.full.body.text }
        requires lands { pointer + there ≤ length self.old.full.body.text + length ins.now }
        requires small { length self.old.full.body.text + length ins.now ≤ TEXT_LIMIT + there }
        requires room { length self.old.full.body.text + length ins.now ≤ self.old.full.room + there }
        ensures full { self.new.full ≡ full_after (Splice at there pointer ins.now) self.old.full }
        ensures sound { IsSound self.new.full.room (length self.new.full.stored) self.new.full.body }
        ensures spare { self.new.spare + 1 ≡ self.old.spare }
        ensures goes { FollowsAfterChanges (there + length ins.now) 1 self.old self.new }
    {
        // This shows that what the editor holds is within its limits.
        let _shown = self.editor.shown();
        if there + ins.len() == 1 {
            self.exchange_byte(at, there, ins, pointer);
        } else {
            let held = self.editor.exchange_short(at, there, ins, pointer);
            self.entry.push_apart(self.done, PartChange::new(held));
        }
    }

    // Puts `ins` for the `there` bytes at `at`, and notes those that stood there, in memory if that was found.
    fn replace(
        &mut self,
        at: usize,
        there: usize,
        ins: &[u8],
        pointer: usize,
        held: Option<Vec<u8>>,
    )
        requires spare { 0 < self.old.spare }
        requires apart { held_apart (there + length ins.now) ≤ self.old.apart }
        requires memory { MatchOption held (there + length ins.now ≤ SHORT_LIMIT)
            (λ v. (v.items ≡ []) × (there + length ins.now ≤ vec_capacity v) × (SHORT_LIMIT < there + length ins.now)) }
        requires there { at + there ≤ length self.old.full.body.text }
        requires lands { pointer + there ≤ length self.old.full.body.text + length ins.now }
        requires small { length self.old.full.body.text + length ins.now ≤ TEXT_LIMIT + there }
        requires room { length self.old.full.body.text + length ins.now ≤ self.old.full.room + there }
        ensures full { self.new.full ≡ full_after (Splice at there pointer ins.now) self.old.full }
        ensures sound { IsSound self.new.full.room (length self.new.full.stored) self.new.full.body }
        ensures spare { self.new.spare + 1 ≡ self.old.spare }
        ensures goes { FollowsAfterChanges (there + length ins.now) 1 self.old self.new }
    {
        match held {
            None => self.replace_few(at, there, ins, pointer),
            Some(held) => self.exchange(at, there, ins, pointer, held),
        }
    }
}
