//! Pages come in and go out, and what stood there is noted.
ghost use Rattle.std.specs.Prelude.{◌≡◌, ◌+◌, ◌<◌, ◌≤◌, ◌^◌, ◌++◌, [], length, take, drop, slice_range, IfOk, IfSome, OnOk, OnErr};
ghost use Rattle.std.specs.Arc.{arc_value};
ghost use Rattle.std.specs.Vec.{vec_capacity};
ghost use Rattle.teco_undo.specs.Holding.{CanHold};
ghost use Rattle.teco_store.specs.PageSpan.{IsPageSpan};
ghost use Rattle.teco_undo.specs.Follows.{FollowsAfterChanges, StillFollows};
ghost use Rattle.teco_store.specs.Page.{brought, form_feed_if, left_of, page, written, IsAsRead};
ghost use Rattle.teco_store.specs.State.{IsSound, state_of, with_stored};
ghost use Rattle.teco_store.specs.Turn.{full_after, lent, IsLent, Splice};

use crate::held::Held;
use crate::recorder::Recorder;
use std::alloc::Global;
use std::sync::Arc;
use teco_core::{FILE_LIMIT, NoMemory, TEXT_LIMIT};
use teco_store::change::{Loan, PartChange, PartValue, SmallChange};
use teco_store::{Desk, PageSpan};

impl Recorder {
    // Stores what is between two places of the text after the output, with a form feed where one is asked for.
    pub(super) fn store_part(
        &mut self,
        from: usize,
        to: usize,
        form_feed: bool,
    ) -> Result<(), NoMemory>
        requires ordered { from ≤ to }
        requires there { to ≤ length self.old.full.body.text }
        ensures ok { OnOk result (self.new.full
            ≡ with_stored self.old.full (drop from (take to self.old.full.body.text)
            ++ form_feed_if form_feed) self.old.full.room) }
        ensures err { OnErr result (self.new.full ≡ self.old.full) }
        ensures spare { self.new.spare ≡ self.old.spare }
        ensures apart { self.new.apart ≡ self.old.apart }
        ensures sound { IsSound self.new.full.room (length self.new.full.stored) self.new.full.body }
        ensures keeps { StillFollows self.old self.new }
    {
        // This shows that what the editor holds is within its limits.
        let _shown = self.editor.shown();
        self.editor.store_part(from, to, form_feed)
    }

    // Stores the page after the output, and the input from its place up to another. A page that stands in the input isn't copied.
    pub(super) fn store_upto(&mut self, from: Option<usize>, upto: usize) -> Result<(), NoMemory>
        requires from { IfSome from (IsAsRead self.old.full.body) }
        requires order { self.old.full.body.place ≤ upto }
        requires within { upto ≤ length self.old.full.body.input }
        ensures ok { OnOk result (self.new.full
            ≡ with_stored self.old.full (written (state_of self.old.full)
            ++ slice_range self.old.full.body.input self.old.full.body.place upto) self.old.full.room) }
        ensures err { OnErr result (self.new.full ≡ self.old.full) }
        ensures spare { self.new.spare ≡ self.old.spare }
        ensures apart { self.new.apart ≡ self.old.apart }
        ensures sound { IsSound self.new.full.room (length self.new.full.stored) self.new.full.body }
        ensures keeps { StillFollows self.old self.new }
    {
        // This shows that what the editor holds is within its limits.
        let _shown = self.editor.shown();
        self.editor.store_upto(from, upto)
    }

    // Finds room for so many changes, two of them held apart, and what holds the page in the buffer, which `len` bytes are to replace:
    // its place in the input, or memory.
    pub(super) fn hold_page(
        &mut self,
        changes: usize,
        there: usize,
        len: usize,
    ) -> Result<Held, NoMemory>
        requires there { there ≡ length self.old.full.body.text }
        requires few { there + len < 2 ^ 64 }
        ensures body { self.new.full.body ≡ self.old.full.body }
        ensures stored { self.new.full.stored ≡ self.old.full.stored }
        ensures held { IfOk result (CanHold self.new.full.body 0 there len) }
        ensures spare { OnOk result (changes ≤ self.new.spare) }
        ensures apart { OnOk result (2 ≤ self.new.apart) }
        ensures room { OnOk result (len ≤ self.new.full.room) }
        ensures sound { IsSound self.new.full.room (length self.new.full.stored) self.new.full.body }
        ensures keeps { StillFollows self.old self.new }
    {
        if let Some(from) = self.editor.place_of_page() {
            self.find_room(changes, 2, len)?;
            return Ok(Held::Input(from));
        }
        let held = self.find_memory(changes, 2, there + len, len)?;
        Ok(Held::Memory(held))
    }

    // Stores the page after the output, and the input from its place up to another. The text of the page is given: it isn't copied.
    fn store_shared(&mut self, text: &Arc<Vec<u8>, Global>, upto: usize) -> Result<(), NoMemory>
        requires text { (arc_value text.now).items ≡ self.old.full.body.text }
        requires order { self.old.full.body.place ≤ upto }
        requires within { upto ≤ length self.old.full.body.input }
        ensures ok { OnOk result (self.new.full
            ≡ with_stored self.old.full (written (state_of self.old.full)
            ++ slice_range self.old.full.body.input self.old.full.body.place upto) self.old.full.room) }
        ensures err { OnErr result (self.new.full ≡ self.old.full) }
        ensures spare { self.new.spare ≡ self.old.spare }
        ensures apart { self.new.apart ≡ self.old.apart }
        ensures sound { IsSound self.new.full.room (length self.new.full.stored) self.new.full.body }
        ensures keeps { StillFollows self.old self.new }
    {
        // This shows that what the editor holds is within its limits.
        let _shown = self.editor.shown();
        self.editor.store_shared(text, upto)
    }

    // Stores the page after the output, and the input from its place up to another; and takes the text out, which is noted. There is room
    // for both. A page that stands in the input isn't copied, and any other is held once, by the output and the change.
    fn take_out(&mut self, from: Option<usize>, upto: usize) -> Result<(), NoMemory>
        requires spare { 0 < self.old.spare }
        requires apart { 0 < self.old.apart }
        requires from { IfSome from (IsAsRead self.old.full.body) }
        requires order { self.old.full.body.place ≤ upto }
        requires within { upto ≤ length self.old.full.body.input }
        ensures body { OnOk result (self.new.full.body ≡ record self.old.full.body { text = []; pointer = 0 }) }
        ensures stored { OnOk result (self.new.full.stored ≡ take self.old.full.body.output self.old.full.stored
            ++ (written (state_of self.old.full)
            ++ slice_range self.old.full.body.input self.old.full.body.place upto)) }
        ensures err { OnErr result (self.new.full ≡ self.old.full) }
        ensures sound { IsSound self.new.full.room (length self.new.full.stored) self.new.full.body }
        ensures spare { OnOk result (self.new.spare + 1 ≡ self.old.spare) }
        ensures apart { OnOk result (self.new.apart + 1 ≡ self.old.apart) }
        ensures goes { OnOk result (FollowsAfterChanges (length self.old.full.body.text) 1 self.old self.new) }
        ensures keeps { OnErr result (StillFollows self.old self.new) }
    {
        // This shows that what the editor holds is within its limits.
        let there = self.editor.len();
        if let Some(from) = from {
            self.store_upto(Some(from), upto)?;
            self.put_input(0, 0, 0, there, 0, Held::Input(from));
            return Ok(());
        }
        let text = self.editor.shared_text()?;
        self.store_shared(&text, upto)?;
        self.note_apart(PartValue::TakeOut(text, 0));
        Ok(())
    }

    // Finds room, stores the page after the output and the rest of the input, and takes the text out, which is noted. There is then room
    // for two changes more, one of them held apart.
    pub(super) fn write_rest(&mut self) -> Result<(), NoMemory>
        ensures body { OnOk result (self.new.full.body ≡ record self.old.full.body { text = []; pointer = 0 }) }
        ensures stored { OnOk result (self.new.full.stored ≡ take self.old.full.body.output self.old.full.stored
            ++ (written (state_of self.old.full) ++ left_of self.old.full.body)) }
        ensures body_same { OnErr result (self.new.full.body ≡ self.old.full.body) }
        ensures stored_same { OnErr result (self.new.full.stored ≡ self.old.full.stored) }
        ensures sound { IsSound self.new.full.room (length self.new.full.stored) self.new.full.body }
        ensures spare { OnOk result (2 ≤ self.new.spare) }
        ensures apart { OnOk result (1 ≤ self.new.apart) }
        ensures goes { OnOk result (FollowsAfterChanges (length self.old.full.body.text) 1 self.old self.new) }
        ensures keeps { OnErr result (StillFollows self.old self.new) }
    {
        // This shows that what the editor holds is within its limits.
        let _shown = self.editor.shown();
        let from = self.editor.place_of_page();
        let over = self.editor.input().len();
        self.find_room(3, 2, 0)?;
        self.take_out(from, over)
    }

    // Puts `count` bytes of the input from `from` on for the `there` bytes at `at`. It notes those that stood there in memory that was
    // found, or lends the bytes to a text that stands in the input too, and notes where.
    pub(super) fn put_input(
        &mut self,
        from: usize,
        count: usize,
        at: usize,
        there: usize,
        pointer: usize,
        held: Held,
    )
        requires spare { 0 < self.old.spare }
        requires apart { 0 < self.old.apart }
        requires within { from + count ≤ length self.old.full.body.input }
        requires held { CanHold self.old.full.body at there count held }
        requires there { at + there ≤ length self.old.full.body.text }
        requires lands { pointer + there ≤ length self.old.full.body.text + count }
        requires small { length self.old.full.body.text + count ≤ TEXT_LIMIT + there }
        requires room { length self.old.full.body.text + count ≤ self.old.full.room + there }
        ensures full { self.new.full ≡ full_after (Splice at there pointer
            (lent self.old.full.body.input from count)) self.old.full }
        ensures sound { IsSound self.new.full.room (length self.new.full.stored) self.new.full.body }
        ensures spare { self.new.spare + 1 ≡ self.old.spare }
        ensures apart { self.new.apart + 1 ≡ self.old.apart }
        ensures goes { FollowsAfterChanges (there + count) 1 self.old self.new }
    {
        // This shows that what the editor holds is within its limits.
        let _shown = self.editor.shown();
        match held {
            Held::Memory(held) => {
                let held = self
                    .editor
                    .exchange_input(from, count, at, there, pointer, held);
                self.entry.push_apart(self.done, PartChange::new(held));
            }
            Held::Input(there_from) => self.note_apart(PartValue::Lend(Loan {
                from: from as u32,
                len: count as u32,
                old_from: there_from as u32,
                old_len: there as u32,
                pointer: pointer as u32,
            })),
        }
    }

    // Brings in the next page for the `there` bytes at `at`; the output then ends at `end`, within what is stored.
    pub(super) fn bring_page(
        &mut self,
        span: PageSpan,
        at: usize,
        there: usize,
        pointer: usize,
        end: usize,
        held: Held,
    )
        requires spare { 2 ≤ self.old.spare }
        requires apart { 2 ≤ self.old.apart }
        requires span { IsPageSpan span self.old.full.body }
        requires held { CanHold self.old.full.body at there (length (page self.old.full.body)) held }
        requires there { at + there ≤ length self.old.full.body.text }
        requires lands { pointer + there ≤ length self.old.full.body.text + length (page self.old.full.body) }
        requires small { length self.old.full.body.text + length
            (page self.old.full.body) ≤ TEXT_LIMIT + there }
        requires room { length self.old.full.body.text + length
            (page self.old.full.body) ≤ self.old.full.room + there }
        requires rises { self.old.full.body.output ≤ end }
        requires ends { (end ≤ length self.old.full.stored) × (end ≤ FILE_LIMIT) }
        ensures full { self.new.full
            ≡ record self.old.full { body = brought self.old.full.body at there pointer end } }
        ensures goes { FollowsAfterChanges (there + length (page self.old.full.body)) 2 self.old self.new }
    {
        let PageSpan { len, form_feed } = span;
        let from = self.editor().place();
        let place = from + len + usize::from(form_feed);
        self.put_input(from, len, at, there, pointer, held);
        self.note_apart(PartValue::Small(SmallChange::Pages {
            place: place as u32,
            end: end as u32,
            form_feed,
        }));
    }
}
