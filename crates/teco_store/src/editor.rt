//! The editor: one editing state.
ghost use Rattle.std.specs.Prelude.{◌≡◌, ◌≤◌, vec_len, IfOk};
ghost use Rattle.teco_store.specs.State.{new_full, new_paged_full, state_of, with_body, with_profile};

mod changing;
mod putting;
mod storing;

use crate::desk::{Desk, Refused};
use crate::noting::is_long;
use crate::output::Output;
use crate::pages::{is_past, replace_text};
use crate::slices::Slices;
use std::marker::Model;
use teco_core::{CaseMode, FILE_LIMIT, NoMemory, Profile, PushList, Reg, Registers, TEXT_LIMIT};
use teco_gap::GapBuffer;

/// The editing state: the buffer with its pointer, the registers and the push-down list, the input and the output, and what the last
/// search left.
///
/// A clause sees it as its body, the output that is stored, and the capacity of the buffer. The output ends after its first `shown`
/// bytes: what is stored beyond them was written and taken back, and the next write drops it. A page ends at a form feed, and after
/// `page_lines` lines where that is not 0.
pub struct Editor {
    profile: Profile,
    text: GapBuffer,
    pointer: usize,
    registers: Registers,
    pushed: PushList,
    input: Vec<u8>,
    place: usize,
    page_lines: usize,
    output: Output,
    shown: usize,
    form_feed: bool,
    last_search: Option<Vec<u8>>,
    last_found: bool,
    done: bool,
    case_mode: CaseMode,
}

// Its parts go here, and a crate that lets an editor go calls this.
impl Drop for Editor {
    fn drop(self) {
        let Editor {
            profile: _,
            text: _,
            pointer: _,
            registers: _,
            pushed: _,
            input: _,
            place: _,
            page_lines: _,
            output: _,
            shown: _,
            form_feed: _,
            last_search: _,
            last_found: _,
            done: _,
            case_mode: _,
        } = self;
    }
}

impl Model for Editor {
    ghost use Rattle.teco_store.specs.State.{Full};
    ghost use Rattle.teco_store.specs.View.{full_in, IsEditor};

    ghost Value = { Full };

    ghost view = { full_in };

    ghost invariant = { IsEditor };
}

impl Editor {
    /// The beginning of a session with this input. Takes no memory.
    pub fn new(input: Vec<u8>) -> Editor
        requires { vec_len input ≤ FILE_LIMIT }
        ensures { result ≡ new_full input.items }
    {
        Editor::with_page_lines(input, 0)
    }

    /// The beginning of a session with this input, whose pages end after so many lines too; 0 is any number of lines. Takes no memory.
    pub fn with_page_lines(input: Vec<u8>, lines: usize) -> Editor
        requires { vec_len input ≤ FILE_LIMIT }
        ensures { result ≡ new_paged_full lines input.items }
    {
        let alloc = *input.allocator();
        Editor {
            profile: Profile::Named,
            text: GapBuffer::new(),
            pointer: 0,
            registers: Registers::new(alloc),
            pushed: PushList::new(alloc),
            input,
            place: 0,
            page_lines: lines,
            output: Output::new(alloc),
            shown: 0,
            form_feed: false,
            last_search: None,
            last_found: false,
            done: false,
            case_mode: CaseMode::Exact,
        }
    }

    /// The same editor, whose command strings are read in this profile. Takes no memory.
    pub fn with_profile(self, profile: Profile) -> Editor
        ensures { result ≡ with_body self (with_profile profile self.body) }
    {
        let mut editor = self;
        editor.profile = profile;
        editor
    }
}

impl Desk for Editor {
    ghost state = { state_of };

    ghost follows = { λ _ _. Unit {0} };

    ghost has_places = { λ _ _ _. Unit {0} };

    ghost eases = { λ _ _ h. h };

    fn profile(&self) -> Profile {
        self.profile
    }

    fn halves(&self) -> (&[u8], &[u8]) {
        self.text.halves()
    }

    fn pointer(&self) -> usize {
        self.pointer
    }

    fn registers(&self) -> &Registers {
        &self.registers
    }

    fn pushed(&self) -> &PushList {
        &self.pushed
    }

    fn place(&self) -> usize {
        self.place
    }

    fn is_input_over(&self) -> bool {
        self.place == self.input.len()
    }

    fn output(&self) -> Slices<'_> {
        self.output.slices(&self.input, self.shown)
    }

    fn flag(&self) -> bool {
        self.form_feed
    }

    fn last_search(&self) -> Option<&[u8]> {
        match &self.last_search {
            None => None,
            Some(text) => Some(text.as_slice()),
        }
    }

    fn last_result(&self) -> bool {
        self.last_found
    }

    fn done(&self) -> bool {
        self.done
    }

    fn case_mode(&self) -> CaseMode {
        self.case_mode
    }

    fn splice(
        &mut self,
        at: usize,
        del: usize,
        ins: &[u8],
        point: Option<usize>,
    ) -> Result<(), Refused> {
        let kept = self.text.len() - del;
        if ins.len() > TEXT_LIMIT - kept {
            return Err(Refused::Big);
        }
        self.text
            .reserve(*self.input.allocator(), kept + ins.len())?;
        self.text.splice(at, del, ins);
        self.pointer = match point {
            Some(place) => place,
            None => at + ins.len(),
        };
        Ok(())
    }

    fn point(&mut self, place: usize) -> Result<(), Refused> {
        self.pointer = place;
        Ok(())
    }

    fn set_number(&mut self, q: Reg, number: i32) -> Result<(), Refused> {
        self.registers.set_number(q, number);
        Ok(())
    }

    fn set_text(&mut self, q: Reg, text: Vec<u8>) -> Result<(), Refused> {
        if text.len() > TEXT_LIMIT {
            return Err(Refused::Big);
        }
        self.registers.set_text(q, text);
        Ok(())
    }

    fn push(&mut self, q: Reg) -> Result<(), Refused> {
        let value = self.registers.value(q).copy()?;
        self.pushed.push(value);
        Ok(())
    }

    fn pop(&mut self, q: Reg) -> Result<(), Refused> {
        let value = self.pushed.pop();
        self.registers.set(q, value);
        Ok(())
    }

    fn read_page(&mut self) -> Result<(), Refused> {
        let span = self.span();
        if span.len > TEXT_LIMIT {
            return Err(Refused::Big);
        }
        let there = self.len();
        let end = self.shown();
        self.reserve(span.len)?;
        self.bring_page(span, 0, there, 0, end);
        Ok(())
    }

    fn append_page(&mut self) -> Result<(), Refused> {
        let there = self.len();
        if self.is_input_over() {
            return Ok(());
        }
        let span = self.span();
        if is_past(TEXT_LIMIT, there, span.len) {
            return Err(Refused::Big);
        }
        let pointer = self.pointer();
        let end = self.shown();
        self.reserve(there + span.len)?;
        self.bring_page(span, there, 0, pointer, end);
        Ok(())
    }

    fn turn_page(&mut self) -> Result<(), Refused> {
        let span = self.span();
        if span.len > TEXT_LIMIT {
            return Err(Refused::Big);
        }
        let Some(end) = self.end_after_page() else {
            return Err(Refused::Big);
        };
        let there = self.len();
        self.reserve(span.len)?;
        self.store_upto(self.place_of_page(), self.place)?;
        self.bring_page(span, 0, there, 0, end);
        Ok(())
    }

    fn write_out(&mut self, from: usize, to: usize, form_feed: bool) -> Result<(), Refused> {
        let Some(end) = self.end_after_part(from, to, form_feed) else {
            return Err(Refused::Big);
        };
        self.store_part(from, to, form_feed)?;
        self.shown = end;
        Ok(())
    }

    #[inline(always)]
    fn note_search(
        &mut self,
        text: Option<&[u8]>,
        found: bool,
        place: usize,
    ) -> Result<(), Refused> {
        if is_long(text) {
            return Err(Refused::Big);
        }
        self.note_text(text)?;
        self.last_found = found;
        self.pointer = place;
        Ok(())
    }

    fn note_replace(
        &mut self,
        text: Option<&[u8]>,
        at: usize,
        del: usize,
        ins: &[u8],
    ) -> Result<(), Refused> {
        let kept = self.len() - del;
        if is_long(text) || is_past(TEXT_LIMIT, kept, ins.len()) {
            return Err(Refused::Big);
        }
        self.reserve(kept + ins.len())?;
        self.note_text(text)?;
        self.text.splice(at, del, ins);
        self.pointer = at + ins.len();
        self.last_found = true;
        Ok(())
    }

    fn finish(&mut self) -> Result<(), Refused> {
        let Some(end) = self.end_after_rest() else {
            return Err(Refused::Big);
        };
        let over = self.input.len();
        self.store_upto(self.place_of_page(), over)?;
        replace_text(&mut self.text, &[]);
        self.pointer = 0;
        self.place = over;
        self.shown = end;
        self.form_feed = false;
        self.done = true;
        Ok(())
    }

    fn set_case(&mut self, mode: CaseMode) -> Result<(), Refused> {
        self.case_mode = mode;
        Ok(())
    }

    fn step_done(&mut self, _steps: u64) {}
}
