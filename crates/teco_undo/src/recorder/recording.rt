//! The calls of a desk, each of which notes what it changes.
ghost use Rattle.std.specs.Prelude.{◌≡◌, ◌<◌, ◌≤◌, length, IsOk, OnErr, OnOk};
ghost use Rattle.teco_store.specs.ChangeView.{small_turn, turn_of, HasRoom};
ghost use Rattle.teco_undo.specs.Entry.{weight};
ghost use Rattle.teco_undo.specs.Follows.{Follows, StillFollows};
ghost use Rattle.teco_undo.specs.Slots.{HasSlot};
ghost use Rattle.teco_store.specs.State.{IsSound, state_of};
ghost use Rattle.teco_store.specs.Trail.{Trail, moved};
ghost use Rattle.teco_store.specs.Turn.{body_after, full_after, FitsFull};
ghost use Rattle.teco_store.specs.declared.desk.Refused.TheVariants.{Big};

use crate::held::Held;
use crate::recorder::Recorder;
use crate::recorder::texts::count_of;
use teco_core::{CaseMode, Profile, PushList, Reg, Registers, TEXT_LIMIT};
use teco_store::change::{PartValue, SmallChange};
use teco_store::{Desk, Refused, Slices, is_long, is_past};

impl Recorder {
    // Finds room for one change whose value lies in it, and makes it. After 2^32 steps it is held apart.
    #[inline(always)]
    fn change(&mut self, small: SmallChange) -> Result<(), Refused>
        requires here { HasSlot small }
        requires fits { IsSound self.old.full.room (length self.old.full.stored) self.old.full.body
            → FitsFull (small_turn small) self.old.full }
        requires rises { self.old.full.body.output ≤ (body_after (small_turn small) self.old.full.body).output }
        ensures ok { OnOk result (self.new.full ≡ full_after (small_turn small) self.old.full) }
        ensures only_memory { result ≡ Err Big → ⊥ }
        ensures err { OnErr result (self.new.full ≡ self.old.full) }
        ensures follows { OnOk result ((t : Trail) → Follows self.old t
            → Follows self.new (moved t (weight (small_turn small) self.old.full.body))) }
        ensures keeps { OnErr result (StillFollows self.old self.new) }
        ensures with_room { 0 < self.old.spare → IsOk result }
    {
        if self.done >= 4_294_967_296 {
            return self.change_apart(PartValue::Small(small));
        }
        self.reserve_early(1, 0)?;
        self.note_early(small);
        Ok(())
    }

    // Finds room for one change that is held apart, and makes it.
    fn change_apart(&mut self, kind: PartValue) -> Result<(), Refused>
        requires room { HasRoom kind }
        requires fits { IsSound self.old.full.room (length self.old.full.stored) self.old.full.body
            → FitsFull (turn_of kind) self.old.full }
        requires rises { self.old.full.body.output ≤ (body_after (turn_of kind) self.old.full.body).output }
        ensures ok { OnOk result (self.new.full ≡ full_after (turn_of kind) self.old.full) }
        ensures only_memory { result ≡ Err Big → ⊥ }
        ensures err { OnErr result (self.new.full ≡ self.old.full) }
        ensures follows { OnOk result ((t : Trail) → Follows self.old t
            → Follows self.new (moved t (weight (turn_of kind) self.old.full.body))) }
        ensures keeps { OnErr result (StillFollows self.old self.new) }
        ensures with_room { 0 < self.old.spare → 0 < self.old.apart → IsOk result }
    {
        self.reserve(1, 1)?;
        self.note_apart(kind);
        Ok(())
    }
}

impl Desk for Recorder {
    ghost use Rattle.teco_undo.specs.Follows.{Follows, follows_eases};

    ghost state = { λ r. state_of r.full };

    ghost follows = { Follows };

    ghost has_places = { λ r changes apart. (changes ≤ r.spare) × (apart ≤ r.apart) };

    ghost eases = { follows_eases };

    fn profile(&self) -> Profile {
        self.editor.profile()
    }

    fn halves(&self) -> (&[u8], &[u8]) {
        self.editor.halves()
    }

    fn pointer(&self) -> usize {
        self.editor.pointer()
    }

    fn registers(&self) -> &Registers {
        self.editor.registers()
    }

    fn pushed(&self) -> &PushList {
        self.editor.pushed()
    }

    fn place(&self) -> usize {
        self.editor.place()
    }

    fn is_input_over(&self) -> bool {
        self.editor.is_input_over()
    }

    fn output(&self) -> Slices<'_> {
        self.editor.output()
    }

    fn flag(&self) -> bool {
        self.editor.flag()
    }

    fn last_search(&self) -> Option<&[u8]> {
        self.editor.last_search()
    }

    fn last_result(&self) -> bool {
        self.editor.last_result()
    }

    fn done(&self) -> bool {
        self.editor.done()
    }

    fn case_mode(&self) -> CaseMode {
        self.editor.case_mode()
    }

    fn splice(
        &mut self,
        at: usize,
        del: usize,
        ins: &[u8],
        point: Option<usize>,
    ) -> Result<(), Refused> {
        let kept = self.editor().len() - del;
        if is_past(TEXT_LIMIT, kept, ins.len()) {
            return Err(Refused::Big);
        }
        let held = self.find_held(1, 0, del + ins.len(), kept + ins.len())?;
        self.replace(at, del, ins, point.unwrap_or(at + ins.len()), held);
        Ok(())
    }

    // Where the pointer is already, nothing is noted. Out of line, so that what calls it can stand in line.
    #[inline(never)]
    fn point(&mut self, place: usize) -> Result<(), Refused> {
        if place == self.editor.pointer() {
            return Ok(());
        }
        self.change(SmallChange::Point(place as u32))
    }

    #[inline(always)]
    fn set_number(&mut self, q: Reg, number: i32) -> Result<(), Refused> {
        // This shows that the register is one of 36.
        let _index = q.index();
        if self.done >= 4_294_967_296 {
            return self.change_apart(PartValue::Small(SmallChange::Number(q, number)));
        }
        self.reserve_early(1, 0)?;
        self.note_number(q, number);
        Ok(())
    }

    fn set_text(&mut self, q: Reg, text: Vec<u8>) -> Result<(), Refused> {
        // This shows that the register is one of 36.
        let _index = q.index();
        if text.len() > TEXT_LIMIT {
            return Err(Refused::Big);
        }
        self.change_apart(PartValue::Text(q, text))
    }

    fn push(&mut self, q: Reg) -> Result<(), Refused> {
        let value = self.editor().registers().value(q).copy()?;
        self.change_apart(PartValue::Push(value))
    }

    fn pop(&mut self, q: Reg) -> Result<(), Refused> {
        // This shows that the register is one of 36.
        let _index = q.index();
        self.change_apart(PartValue::PopInto(q))
    }

    fn read_page(&mut self) -> Result<(), Refused> {
        let editor = self.editor();
        let span = editor.span();
        if span.len > TEXT_LIMIT {
            return Err(Refused::Big);
        }
        let there = editor.len();
        let end = editor.shown();
        let held = self.hold_page(2, there, span.len)?;
        self.bring_page(span, 0, there, 0, end, held);
        Ok(())
    }

    fn append_page(&mut self) -> Result<(), Refused> {
        let editor = self.editor();
        let there = editor.len();
        if editor.is_input_over() {
            return Ok(());
        }
        let span = editor.span();
        if is_past(TEXT_LIMIT, there, span.len) {
            return Err(Refused::Big);
        }
        let pointer = editor.pointer();
        let end = editor.shown();
        let held = self.find_memory(2, 2, span.len, there + span.len)?;
        self.bring_page(span, there, 0, pointer, end, Held::Memory(held));
        Ok(())
    }

    fn turn_page(&mut self) -> Result<(), Refused> {
        let editor = self.editor();
        let span = editor.span();
        if span.len > TEXT_LIMIT {
            return Err(Refused::Big);
        }
        let Some(end) = editor.end_after_page() else {
            return Err(Refused::Big);
        };
        let there = editor.len();
        let place = editor.place();
        let held = self.hold_page(2, there, span.len)?;
        self.store_upto(held.place(), place)?;
        self.bring_page(span, 0, there, 0, end, held);
        Ok(())
    }

    fn write_out(&mut self, from: usize, to: usize, form_feed: bool) -> Result<(), Refused> {
        let editor = self.editor();
        let Some(end) = editor.end_after_part(from, to, form_feed) else {
            return Err(Refused::Big);
        };
        let place = editor.place();
        let flag = editor.flag();
        self.reserve(1, 1)?;
        self.store_part(from, to, form_feed)?;
        self.note_apart(PartValue::Small(SmallChange::Pages {
            place: place as u32,
            end: end as u32,
            form_feed: flag,
        }));
        Ok(())
    }

    fn note_search(
        &mut self,
        text: Option<&[u8]>,
        found: bool,
        place: usize,
    ) -> Result<(), Refused> {
        if is_long(text) {
            return Err(Refused::Big);
        }
        let text = self.editor().fresh_text(text)?;
        self.reserve(3, count_of(&text))?;
        self.note_result(text, found);
        self.note(SmallChange::Point(place as u32));
        Ok(())
    }

    fn note_replace(
        &mut self,
        text: Option<&[u8]>,
        at: usize,
        del: usize,
        ins: &[u8],
    ) -> Result<(), Refused> {
        let kept = self.editor().len() - del;
        if is_long(text) || is_past(TEXT_LIMIT, kept, ins.len()) {
            return Err(Refused::Big);
        }
        let text = self.editor().fresh_text(text)?;
        let apart = count_of(&text);
        let held = self.find_held(3, apart, del + ins.len(), kept + ins.len())?;
        self.note_result(text, true);
        self.replace(at, del, ins, at + ins.len(), held);
        Ok(())
    }

    fn finish(&mut self) -> Result<(), Refused> {
        let editor = self.editor();
        let Some(end) = editor.end_after_rest() else {
            return Err(Refused::Big);
        };
        let over = editor.input().len();
        self.write_rest()?;
        self.note_apart(PartValue::Small(SmallChange::Pages {
            place: over as u32,
            end: end as u32,
            form_feed: false,
        }));
        self.note(SmallChange::Done(true));
        Ok(())
    }

    fn set_case(&mut self, mode: CaseMode) -> Result<(), Refused> {
        self.change(SmallChange::Mode(mode))
    }

    fn step_done(&mut self, steps: u64) {
        self.done = steps;
    }
}
