//! How an editor gets room, and how its output is stored before it counts.
ghost use Rattle.std.specs.Prelude.{◌≡◌, ◌+◌, ◌≤◌, ◌++◌, length, take, drop, slice_range, IfOk, IfSome, OnOk, OnErr};
ghost use Rattle.std.specs.Arc.{arc_value};
ghost use Rattle.teco_store.specs.PageSpan.{IsPageSpan};
ghost use Rattle.teco_store.specs.Page.{finished, form_feed_if, left_of, with_next_page, with_range_written, written, IsAsRead};
ghost use Rattle.teco_store.specs.State.{Extends, IsEnd, IsSound, state_of, with_stored};

use crate::editor::Editor;
use crate::output::place_read;
use crate::pages::{PageSpan, append_within, end_after, next_page, part};
use std::alloc::Global;
use std::sync::Arc;
use teco_core::NoMemory;

impl Editor {
    /// The input, as it was given. Takes no memory.
    pub fn input(&self) -> &[u8]
        ensures { result.now ≡ (state_of self.now).input }
    {
        self.input.as_slice()
    }

    /// How many bytes of the output there are.
    pub fn shown(&self) -> usize
        ensures value { result ≡ self.now.body.output }
        ensures sound { IsSound self.now.room (length self.now.stored) self.now.body }
    {
        self.shown
    }

    /// How many bytes the text has.
    pub fn len(&self) -> usize
        ensures value { result ≡ length self.now.body.text }
        ensures sound { IsSound self.now.room (length self.now.stored) self.now.body }
    {
        self.text.len()
    }

    /// How many bytes the next page of the input has, and whether a form feed ends it.
    pub fn span(&self) -> PageSpan
        ensures span { IsPageSpan result self.now.body }
        ensures sound { IsSound self.now.room (length self.now.stored) self.now.body }
    {
        let page = next_page(&self.input[self.place..], self.page_lines);
        PageSpan {
            len: page.bytes.len(),
            form_feed: page.form_feed,
        }
    }

    /// Where in the input the page in the buffer stands as it was read, if it stands there.
    pub fn place_of_page(&self) -> Option<usize>
        ensures { IfSome result (IsAsRead self.now.body) }
    {
        let (before, after) = self.text.halves();
        place_read(&self.input[..self.place], before, after, self.form_feed)
    }

    /// Drops what is stored beyond the output's end.
    pub fn forget_beyond(&mut self)
        ensures editor { self.new ≡ record self.old { stored = take self.old.body.output self.old.stored } }
        ensures extends { Extends self.old self.new }
    {
        self.output.cut(&self.input, self.shown);
    }

    /// Makes room for a text of `len` bytes.
    pub fn reserve(&mut self, len: usize) -> Result<(), NoMemory>
        ensures body { self.new.body ≡ self.old.body }
        ensures stored { self.new.stored ≡ self.old.stored }
        ensures room { OnOk result (len ≤ self.new.room) }
        ensures extends { Extends self.old self.new }
    {
        self.text.reserve(*self.input.allocator(), len)
    }

    /// The allocator of its parts.
    pub fn allocator(&self) -> Global {
        *self.input.allocator()
    }

    /// Where the output ends once what is between two places of the text is written; none where that is past the limit.
    pub fn end_after_part(&self, from: usize, to: usize, form_feed: bool) -> Option<usize>
        requires ordered { from ≤ to }
        requires there { to ≤ length self.now.body.text }
        ensures { IsEnd result (length (with_range_written (state_of self.now) from to form_feed).output) }
    {
        // This shows that the text has less than 2^63 bytes.
        let _len = self.text.len();
        end_after(self.shown, to - from + usize::from(form_feed))
    }

    /// Where it ends once the page is written.
    pub fn end_after_page(&self) -> Option<usize>
        ensures { IsEnd result (length (with_next_page (state_of self.now)).output) }
    {
        end_after(self.shown, self.text.len() + usize::from(self.form_feed))
    }

    /// Where it ends once the page and the rest of the input are written.
    pub fn end_after_rest(&self) -> Option<usize>
        ensures { IsEnd result (length (finished (state_of self.now)).output) }
    {
        let left = self.input.len() - self.place;
        end_after(
            self.shown,
            self.text.len() + usize::from(self.form_feed) + left,
        )
    }

    /// Stores what is between two places of the text after the output, with a form feed where one is asked for.
    pub fn store_part(&mut self, from: usize, to: usize, form_feed: bool) -> Result<(), NoMemory>
        requires ordered { from ≤ to }
        requires there { to ≤ length self.old.body.text }
        ensures ok { OnOk result (self.new
            ≡ with_stored self.old (drop from (take to self.old.body.text)
            ++ form_feed_if form_feed) self.old.room) }
        ensures err { OnErr result (self.new ≡ self.old) }
        ensures extends { Extends self.old self.new }
    {
        let (before, after) = self.text.halves();
        let halves = part(before, after, from, to);
        self.output.copy(&self.input, self.shown, halves, form_feed)
    }

    /// Stores the page after the output, and the input from its place up to another. A page that stands in the input isn't copied.
    pub fn store_upto(&mut self, from: Option<usize>, upto: usize) -> Result<(), NoMemory>
        requires from { IfSome from (IsAsRead self.old.body) }
        requires order { self.old.body.place ≤ upto }
        requires within { upto ≤ length self.old.body.input }
        ensures ok { OnOk result (self.new
            ≡ with_stored self.old (written (state_of self.old)
            ++ slice_range self.old.body.input self.old.body.place upto) self.old.room) }
        ensures err { OnErr result (self.new ≡ self.old) }
        ensures extends { Extends self.old self.new }
    {
        let halves = self.text.halves();
        let rest = (self.place, upto);
        self.output.store(&self.input, self.shown, from, halves, self.form_feed, rest)
    }

    /// A copy of the text, which may have several owners.
    pub fn shared_text(&self) -> Result<Arc<Vec<u8>, Global>, NoMemory>
        ensures { IfOk result (λ text. (arc_value text).items ≡ self.now.body.text) }
    {
        let alloc = self.allocator();
        // This shows that the text has less than 2^63 bytes.
        let _len = self.text.len();
        let (before, after) = self.text.halves();
        let mut text = Vec::with_capacity(alloc, before.len() + after.len())?;
        append_within(&mut text, before);
        append_within(&mut text, after);
        Ok(Arc::new(alloc, text)?)
    }

    /// Stores the page after the output, and the input from its place up to another. The text of the page is given: it is shared, and not
    /// copied.
    pub fn store_shared(&mut self, text: &Arc<Vec<u8>, Global>, upto: usize) -> Result<(), NoMemory>
        requires text { (arc_value text.now).items ≡ self.old.body.text }
        requires order { self.old.body.place ≤ upto }
        requires within { upto ≤ length self.old.body.input }
        ensures ok { OnOk result (self.new
            ≡ with_stored self.old (written (state_of self.old)
            ++ slice_range self.old.body.input self.old.body.place upto) self.old.room) }
        ensures err { OnErr result (self.new ≡ self.old) }
        ensures extends { Extends self.old self.new }
    {
        let rest = (self.place, upto);
        self.output
            .share(&self.input, self.shown, text, self.form_feed, rest)
    }
}
