//! The output of an editor. What is written as it stands in the input is not copied, nor is a text that is shared.
ghost use Rattle.std.specs.Prelude.{◌≡◌, ℕ, List, None, ◌+◌, ◌-◌, ◌<◌, ◌≤◌, ◌^◌, ◌++◌, [], ◌∷◌, length, take, drop, slice_range, option_to_list, IfSome, OnOk, OnErr};
ghost use Rattle.std.specs.List.{All, sum_by};
ghost use Rattle.std.specs.Vec.{vec_capacity};
ghost use Rattle.teco_store.specs.Output.{bytes_of, kept, source_of, text_in, IsCounted, IsCut, IsIn, IsMore, IsSame};
ghost use Rattle.teco_store.specs.Page.{form_feed_if};
ghost use Rattle.teco_store.specs.Parts.{own_size, IsOrdered};
ghost use Rattle.teco_store.specs.Slices.{bytes_in};

mod sharing;

use crate::pages::{append_within, form_feed_bytes};
use crate::parts::Part;
use crate::slices::Slices;
use std::alloc::Global;
use std::sync::Arc;
use teco_core::NoMemory;

/// What is stored of an output: bytes of its own, and parts in order, which take those in turn or are parts of its source.
///
/// The source is the input, and after it a text that has other owners too, which an exit wrote. Pages that are written as they were read
/// lengthen the last part. Other bytes are copied, and nothing else is for them.
#[derive(Drop)]
pub(crate) struct Output {
    own: Vec<u8>,
    parts: Vec<Part>,
    len: usize,
    shared: Option<Arc<Vec<u8>, Global>>,
}

/// Where an output is cut: so many parts stay, and a front of the next one. These have so many own bytes.
#[derive(Clone, Copy)]
pub(crate) struct Cut {
    parts: usize,
    front: Option<Part>,
    own: usize,
}

// Where the page stands at the end of what was read, if it stands there.
pub(crate) fn place_read(read: &[u8], before: &[u8], after: &[u8], form_feed: bool) -> Option<usize>
    ensures { IfSome result (λ at. (at ≤ length read.now)
        × (drop at read.now ≡ (before.now ++ after.now) ++ form_feed_if form_feed)) }
{
    let left = read.strip_suffix(form_feed_bytes(form_feed))?;
    let left = left.strip_suffix(after)?;
    let left = left.strip_suffix(before)?;
    Some(left.len())
}

// Puts a part after others, which have room for it.
fn push_within(parts: &mut Vec<Part>, part: Part)
    requires { length parts.old.items < vec_capacity parts.old }
    ensures items { parts.new.items ≡ parts.old.items ++ part ∷ [] }
    ensures capacity { vec_capacity parts.old ≤ vec_capacity parts.new }
{
    if parts.push(part).is_err() {
        unreachable!();
    }
}

// Puts two parts after others, as one where they join. There is room for them.
fn push_both(parts: &mut Vec<Part>, last: Part, part: Part)
    requires room { length parts.old.items + 1 < vec_capacity parts.old }
    requires ordered { All IsOrdered parts.old.items × IsOrdered last × IsOrdered part }
    requires few { own_size last + own_size part < 2 ^ 32 }
    ensures more { IsMore (parts.old.items ++ last ∷ []) part parts.new.items }
    ensures capacity { vec_capacity parts.old ≤ vec_capacity parts.new }
{
    match last.with(part) {
        Some(both) => push_within(parts, both),
        None => {
            push_within(parts, last);
            push_within(parts, part);
        }
    }
}

// Puts a part after others, or makes the last one longer by it. There is room for one more.
fn add(parts: &mut Vec<Part>, part: Part)
    requires room { length parts.old.items < vec_capacity parts.old }
    requires ordered { All IsOrdered parts.old.items × IsOrdered part }
    requires few { sum_by own_size parts.old.items + own_size part < 2 ^ 32 }
    ensures more { IsMore parts.old.items part parts.new.items }
    ensures capacity { vec_capacity parts.old ≤ vec_capacity parts.new }
{
    match parts.pop() {
        Some(last) => push_both(parts, last, part),
        None => push_within(parts, part),
    }
}

// Drops all but the parts before a cut.
fn keep(parts: &mut Vec<Part>, cut: Cut)
    requires { cut.parts + length (option_to_list cut.front) ≤ length parts.old.items }
    ensures items { parts.new.items ≡ kept parts.old.items cut }
    ensures capacity { vec_capacity parts.old ≤ vec_capacity parts.new }
{
    parts.truncate(cut.parts);
    if let Some(front) = cut.front {
        push_within(parts, front);
    }
}

impl Output {
    // Nothing.
    pub(crate) fn new(alloc: Global) -> Output
        ensures own { result.own.items ≡ [] }
        ensures parts { result.parts.items ≡ [] }
        ensures len { result.len ≡ 0 }
        ensures shared { result.shared ≡ None }
    {
        Output {
            own: Vec::new(alloc),
            parts: Vec::new(alloc),
            len: 0,
            shared: None,
        }
    }

    // The first `shown` bytes.
    pub(crate) fn slices<'a>(&'a self, input: &'a [u8], shown: usize) -> Slices<'a>
        requires there { shown ≤ length (bytes_of self.now input.now) }
        ensures { bytes_in result ≡ take shown (bytes_of self.now input.now) }
    {
        Slices::new(&self.own, input, self.shared(), &self.parts, shown)
    }

    // Where it is cut after the first `shown` bytes. Takes the time of the parts beyond.
    fn cut_at(&self, shown: usize) -> Cut
        requires counted { IsCounted self.now }
        requires there { shown ≤ self.now.len }
        ensures { IsCut self.now shown result }
    {
        let mut parts = self.parts.len();
        let mut own = self.own.len();
        let mut over = self.len - shown;
        while parts > 0 {
            let last = self.parts[parts - 1];
            parts -= 1;
            own -= last.own();
            if over < last.len() {
                let front = last.without(over);
                return Cut {
                    parts,
                    front: Some(front),
                    own: own + front.own(),
                };
            }
            over -= last.len();
        }
        Cut {
            parts: 0,
            front: None,
            own: 0,
        }
    }

    // Drops all but the first `shown` bytes, which end at the cut.
    fn keep(&mut self, shown: usize, cut: Cut)
        requires counted { IsCounted self.old }
        requires cut { IsCut self.old shown cut }
        ensures counted { IsCounted self.new }
        ensures bytes { (input : List ℕ) → IsIn self.old input → IsIn self.new input
            × (bytes_of self.new input ≡ take shown (bytes_of self.old input)) }
        ensures len { self.new.len ≡ shown }
        ensures shared { self.new.shared ≡ self.old.shared }
        ensures own { (length self.new.own.items ≡ cut.own)
            × (vec_capacity self.old.own ≤ vec_capacity self.new.own) }
        ensures parts { (length self.new.parts.items ≤ cut.parts + 1)
            × (vec_capacity self.old.parts ≤ vec_capacity self.new.parts) }
    {
        keep(&mut self.parts, cut);
        self.own.truncate(cut.own);
        self.len = shown;
    }

    // Drops all but the first `shown` bytes, and the shared text where none of these are its.
    pub(crate) fn cut(&mut self, input: &[u8], shown: usize)
        requires part { IsIn self.old input.now }
        requires there { shown ≤ self.old.len }
        ensures bytes { bytes_of self.new input.now ≡ take shown (bytes_of self.old input.now) }
        ensures part { IsIn self.new input.now }
    {
        let cut = self.cut_at(shown);
        self.keep(shown, cut);
        self.forget_shared(input);
    }

    // Finds room for so many own bytes and for three parts after a cut.
    fn reserve(&mut self, cut: Cut, more: usize) -> Result<(), NoMemory>
        requires cut { cut.parts ≤ length self.old.parts.items }
        requires few { cut.own + more < 2 ^ 64 }
        ensures same { IsSame self.old self.new }
        ensures own { OnOk result (cut.own + more ≤ vec_capacity self.new.own) }
        ensures parts { OnOk result (cut.parts + 4 ≤ vec_capacity self.new.parts) }
    {
        let own = (cut.own + more).saturating_sub(self.own.len());
        self.own.reserve(own)?;
        let parts = (cut.parts + 4).saturating_sub(self.parts.len());
        self.parts.reserve(parts)?;
        Ok(())
    }

    // Drops all but the first `shown` bytes, where there is room for so many own bytes and for three parts after them.
    fn make_room(&mut self, input: &[u8], shown: usize, more: usize) -> Result<(), NoMemory>
        requires part { IsIn self.old input.now }
        requires there { shown ≤ length (bytes_of self.old input.now) }
        requires few { shown + more < 2 ^ 64 }
        ensures ok { OnOk result (bytes_of self.new input.now ≡ take shown (bytes_of self.old input.now)) }
        ensures err { OnErr result (bytes_of self.new input.now ≡ bytes_of self.old input.now) }
        ensures part { IsIn self.new input.now }
        ensures shared { self.new.shared ≡ self.old.shared }
        ensures len { OnOk result ((self.new.len ≡ shown) × (length self.new.own.items ≤ shown)) }
        ensures own { OnOk result (length self.new.own.items + more ≤ vec_capacity self.new.own) }
        ensures parts { OnOk result (length self.new.parts.items + 3 ≤ vec_capacity self.new.parts) }
    {
        let cut = self.cut_at(shown);
        self.reserve(cut, more)?;
        self.keep(shown, cut);
        Ok(())
    }

    // Copies the two parts of a text, and a form feed where one is asked for, to the end. There is room for them.
    fn put(&mut self, before: &[u8], after: &[u8], form_feed: bool)
        requires counted { IsCounted self.old }
        requires few { (length self.old.own.items + (length before.now + length after.now + 1) < 2 ^ 32)
            × (self.old.len + (length before.now + length after.now + 1) < 2 ^ 32) }
        requires own { length self.old.own.items + (length before.now + length after.now + length
            (form_feed_if form_feed)) ≤ vec_capacity self.old.own }
        requires parts { length self.old.parts.items < vec_capacity self.old.parts }
        ensures bytes { (input : List ℕ) → IsIn self.old input → IsIn self.new input × (bytes_of self.new input
            ≡ bytes_of self.old input ++ ((before.now ++ after.now) ++ form_feed_if form_feed)) }
        ensures few { (length self.new.own.items < 2 ^ 32) × (self.new.len < 2 ^ 32) }
        ensures parts { (length self.new.parts.items ≤ length self.old.parts.items + 1)
            × (vec_capacity self.old.parts ≤ vec_capacity self.new.parts) }
    {
        let count = before.len() + after.len() + usize::from(form_feed);
        append_within(&mut self.own, before);
        append_within(&mut self.own, after);
        append_within(&mut self.own, form_feed_bytes(form_feed));
        add(&mut self.parts, Part::Own(count as u32));
        self.len += count;
    }

    // Puts the source from one place up to another at the end. There is room for the part.
    fn lend(&mut self, from: usize, upto: usize)
        requires counted { IsCounted self.old }
        requires order { (from ≤ upto) × (upto < 2 ^ 32) }
        requires few { (length self.old.own.items < 2 ^ 32) × (self.old.len < 2 ^ 32) }
        requires parts { length self.old.parts.items < vec_capacity self.old.parts }
        ensures bytes { (input : List ℕ) → IsIn self.old input → upto ≤ length (source_of self.old input)
            → IsIn self.new input × (bytes_of self.new input
            ≡ bytes_of self.old input ++ slice_range (source_of self.old input) from upto) }
        ensures within { (input : List ℕ) → upto ≤ length input
            → slice_range (source_of self.old input) from upto ≡ slice_range input from upto }
        ensures own { self.new.own ≡ self.old.own }
        ensures len { self.new.len ≡ self.old.len + (upto - from) }
        ensures count { (length self.new.parts.items ≤ length self.old.parts.items + 1)
            × (vec_capacity self.old.parts ≤ vec_capacity self.new.parts) }
    {
        if from < upto {
            let part = Part::Lent {
                from: from as u32,
                upto: upto as u32,
            };
            add(&mut self.parts, part);
            self.len += upto - from;
        }
    }

    // Copies the two parts of a text, and a form feed where one is asked for, after the first `shown` bytes.
    pub(crate) fn copy(
        &mut self,
        input: &[u8],
        shown: usize,
        halves: (&[u8], &[u8]),
        form_feed: bool,
    ) -> Result<(), NoMemory>
        requires part { IsIn self.old input.now }
        requires there { shown ≤ length (bytes_of self.old input.now) }
        requires few { shown + (length halves.0.now + length halves.1.now + 1) < 2 ^ 32 }
        ensures ok { OnOk result (bytes_of self.new input.now ≡ take shown (bytes_of self.old input.now)
            ++ ((halves.entry.0.now ++ halves.entry.1.now) ++ form_feed_if form_feed)) }
        ensures err { OnErr result (bytes_of self.new input.now ≡ bytes_of self.old input.now) }
        ensures part { IsIn self.new input.now }
        ensures few { OnOk result ((length self.new.own.items < 2 ^ 32) × (self.new.len < 2 ^ 32)) }
        ensures parts { OnOk result (length self.new.parts.items < vec_capacity self.new.parts) }
    {
        let more = halves.0.len() + halves.1.len() + usize::from(form_feed);
        self.make_room(input, shown, more)?;
        self.put(halves.0, halves.1, form_feed);
        Ok(())
    }

    // Puts the input from one place up to another after the first `shown` bytes.
    fn lend_after(
        &mut self,
        input: &[u8],
        shown: usize,
        from: usize,
        upto: usize,
    ) -> Result<(), NoMemory>
        requires part { IsIn self.old input.now }
        requires there { shown ≤ length (bytes_of self.old input.now) }
        requires few { (shown < 2 ^ 32) × (upto < 2 ^ 32) }
        requires order { from ≤ upto }
        requires within { upto ≤ length input.now }
        ensures ok { OnOk result (bytes_of self.new input.now
            ≡ take shown (bytes_of self.old input.now) ++ slice_range input.now from upto) }
        ensures err { OnErr result (bytes_of self.new input.now ≡ bytes_of self.old input.now) }
        ensures part { IsIn self.new input.now }
    {
        self.make_room(input, shown, 0)?;
        self.lend(from, upto);
        Ok(())
    }

    // Stores a page, which is the two parts of a text with its form feed, and the rest of the input from one place up to another, after
    // the first `shown` bytes. A page that stands in the input from a place on is not copied.
    pub(crate) fn store(
        &mut self,
        input: &[u8],
        shown: usize,
        from: Option<usize>,
        halves: (&[u8], &[u8]),
        form_feed: bool,
        rest: (usize, usize),
    ) -> Result<(), NoMemory>
        requires part { IsIn self.old input.now }
        requires there { shown ≤ length (bytes_of self.old input.now) }
        requires few { (shown + (length halves.0.now + length halves.1.now + 1) < 2 ^ 32) × (rest.1 < 2 ^ 32) }
        requires from { IfSome from (λ at. (at ≤ length (take rest.0 input.now))
            × (drop at (take rest.0 input.now) ≡ (halves.0.now ++ halves.1.now) ++ form_feed_if form_feed)) }
        requires order { rest.0 ≤ rest.1 }
        requires within { rest.1 ≤ length input.now }
        ensures ok { OnOk result (bytes_of self.new input.now ≡ take shown (bytes_of self.old input.now)
            ++ (((halves.entry.0.now ++ halves.entry.1.now) ++ form_feed_if form_feed)
            ++ slice_range input.now rest.0 rest.1)) }
        ensures err { OnErr result (bytes_of self.new input.now ≡ bytes_of self.old input.now) }
        ensures part { IsIn self.new input.now }
    {
        match from {
            Some(at) => self.lend_after(input, shown, at, rest.1),
            None => {
                self.copy(input, shown, halves, form_feed)?;
                self.lend(rest.0, rest.1);
                Ok(())
            }
        }
    }
}
