//! A text that is shared with other owners, as a part of an output that is not copied.
ghost use Rattle.std.specs.Prelude.{◌≡◌, ℕ, ◌+◌, ◌<◌, ◌≤◌, ◌^◌, ◌++◌, length, take, slice_range, None, IsTrue, OnOk, OnErr};
ghost use Rattle.std.specs.Arc.{arc_value};
ghost use Rattle.std.specs.List.{All};
ghost use Rattle.std.specs.Vec.{vec_capacity};
ghost use Rattle.teco_store.specs.Output.{bytes_of, text_in, IsIn};
ghost use Rattle.teco_store.specs.Page.{form_feed_if};
ghost use Rattle.teco_store.specs.Parts.{EndsWithin};

use crate::output::Output;
use crate::parts::Part;
use std::alloc::Global;
use std::sync::Arc;
use teco_core::NoMemory;

// Whether all parts end within so many bytes of the source.
fn end_within(parts: &[Part], end: usize) -> bool
    ensures { IsTrue result → All (EndsWithin end) parts.now }
{
    parts.iter().all(|part| part.ends_within(end))
}

impl Output {
    // The text that is shared, if there is one.
    pub(super) fn shared(&self) -> &[u8]
        ensures { result.now ≡ text_in self.now.shared }
    {
        match &self.shared {
            None => &[],
            Some(text) => text.as_slice(),
        }
    }

    // Drops the shared text, where no part has any of its bytes. Takes the time of the parts where there is such a text.
    pub(super) fn forget_shared(&mut self, input: &[u8])
        requires part { IsIn self.old input.now }
        ensures bytes { bytes_of self.new input.now ≡ bytes_of self.old input.now }
        ensures part { IsIn self.new input.now }
    {
        if self.shared.is_some() && end_within(&self.parts, input.len()) {
            self.shared = None;
        }
    }

    // Shares a text, which it puts at the end. There is room for the part.
    fn lend_text(&mut self, input: &[u8], text: Arc<Vec<u8>, Global>)
        requires none { self.old.shared ≡ None }
        requires part { IsIn self.old input.now }
        requires few { (length self.old.own.items < 2 ^ 32) × (self.old.len < 2 ^ 32)
            × (length input.now + length (arc_value text).items < 2 ^ 32) }
        requires parts { length self.old.parts.items < vec_capacity self.old.parts }
        ensures bytes { bytes_of self.new input.now ≡ bytes_of self.old input.now ++ (arc_value text).items }
        ensures part { IsIn self.new input.now }
        ensures own { self.new.own ≡ self.old.own }
        ensures len { self.new.len ≡ self.old.len + length (arc_value text).items }
        ensures parts { (length self.new.parts.items ≤ length self.old.parts.items + 1)
            × (vec_capacity self.old.parts ≤ vec_capacity self.new.parts) }
    {
        let from = input.len();
        let upto = from + text.len();
        self.shared = Some(text);
        self.lend(from, upto);
    }

    // Stores a text, with a form feed where one is asked for, and the rest of the input from one place up to another, after the first
    // `shown` bytes. The text is shared, unless another one is.
    pub(crate) fn share(
        &mut self,
        input: &[u8],
        shown: usize,
        text: &Arc<Vec<u8>, Global>,
        form_feed: bool,
        rest: (usize, usize),
    ) -> Result<(), NoMemory>
        requires part { IsIn self.old input.now }
        requires there { shown ≤ length (bytes_of self.old input.now) }
        requires few { (shown + (length (arc_value text.now).items + 1) < 2 ^ 32)
            × (length input.now + length (arc_value text.now).items < 2 ^ 32) }
        requires order { rest.0 ≤ rest.1 }
        requires within { rest.1 ≤ length input.now }
        ensures ok { OnOk result (bytes_of self.new input.now ≡ take shown (bytes_of self.old input.now)
            ++ (((arc_value text.now).items ++ form_feed_if form_feed) ++ slice_range input.now rest.0 rest.1)) }
        ensures err { OnErr result (bytes_of self.new input.now ≡ bytes_of self.old input.now) }
        ensures part { IsIn self.new input.now }
    {
        if self.shared.is_some() {
            let halves: (&[u8], &[u8]) = (&[], text.as_slice());
            return self.store(input, shown, None, halves, form_feed, rest);
        }
        let text = Arc::try_clone(text)?;
        self.make_room(input, shown, 1)?;
        self.lend_text(input, text);
        self.put(&[], &[], form_feed);
        self.lend(rest.0, rest.1);
        Ok(())
    }
}
