//! The entries of a session: of every string that has begun, or of the last ones.
ghost use Rattle.std.specs.Prelude.{◌≡◌, [], ◌∷◌, ◌++◌, ◌<◌, ◌≤◌, true, length, take, None, Some, IfOk, IsOk, OnOk};
ghost use Rattle.std.proofs.Common.{set};
ghost use Rattle.teco_store.specs.State.{with_body};
ghost use Rattle.teco_session.specs.Strings.{IsWithinDepth, entry_at, keeps_none, newest};
ghost use Rattle.teco_session.specs.Turns.{FitsTurn, body_turned, string_turned};
ghost use Rattle.teco_session.specs.Entries.{kept_string, strings_of, depth_of, HasPlace};

use crate::entry::{Entry, Turn};
use circular_buffer::HeapCircularBuffer;
use std::alloc::Global;
use teco_core::NoMemory;
use teco_store::Editor;

/// The entries of the strings of a session, the oldest first.
pub enum Entries {
    /// Every string that has begun.
    All(Vec<Entry>),
    /// The last strings, as many as the depth.
    Last(HeapCircularBuffer<Entry>),
}

// They go here, and a crate that lets entries go calls this.
impl Drop for Entries {
    fn drop(self) {
        match self {
            Entries::All(_) => {}
            Entries::Last(_) => {}
        }
    }
}

impl Entries {
    /// None of a session that keeps so many strings, or every string where there is no depth. Room for a ring of this depth is found here.
    pub fn of_depth(alloc: Global, depth: Option<usize>) -> Result<Entries, NoMemory>
        ensures none { IfOk result (λ entries. (strings_of entries ≡ []) × (depth_of entries ≡ depth)) }
        ensures every { depth ≡ None → IsOk result }
    {
        match depth {
            None => Ok(Entries::All(Vec::new(alloc))),
            Some(depth) => Ok(Entries::Last(HeapCircularBuffer::with_capacity(alloc, depth)?)),
        }
    }

    /// Whether no string is kept, since the depth is 0. Takes no memory.
    pub fn keeps_none(&self) -> bool
        ensures depth { result ≡ keeps_none (depth_of self.now) }
        ensures none { result ≡ true → length (strings_of self.now) ≤ 0 }
    {
        match self {
            Entries::All(_) => false,
            Entries::Last(ring) => ring.capacity() == 0,
        }
    }

    /// Where memory for strings comes from.
    pub fn alloc(&self) -> Global {
        match self {
            Entries::All(all) => *all.allocator(),
            Entries::Last(ring) => *ring.allocator(),
        }
    }

    /// How many there are. Takes no memory.
    pub fn len(&self) -> usize
        ensures value { result ≡ length (strings_of self.now) }
        ensures depth { IsWithinDepth (depth_of self.now) result }
    {
        match self {
            Entries::All(all) => all.len(),
            Entries::Last(ring) => ring.len(),
        }
    }

    /// The entry at a place. Takes no memory.
    pub fn get(&self, i: usize) -> &Entry
        requires { i < length (strings_of self.now) }
        ensures { kept_string result.now ≡ entry_at (strings_of self.now) i }
    {
        match self {
            Entries::All(all) => &all[i],
            Entries::Last(ring) => match ring.get(i) {
                Some(entry) => entry,
                // The ring has this place, by what the call requires.
                None => unreachable!(),
            },
        }
    }

    /// Turns the string at a place so. Takes no memory.
    pub fn turn(&mut self, i: usize, editor: &mut Editor, way: Turn)
        requires within { i < length (strings_of self.old) }
        requires fits { FitsTurn way editor.old.room (length editor.old.stored)
            (entry_at (strings_of self.old) i).changes editor.old.body }
        ensures editor { editor.new
            ≡ with_body editor.old (body_turned way (entry_at (strings_of self.old) i).changes editor.old.body) }
        ensures strings { strings_of self.new
            ≡ set (strings_of self.old) i (string_turned way (entry_at (strings_of self.old) i) editor.old.body) }
        ensures depth { depth_of self.new ≡ depth_of self.old }
    {
        match self {
            Entries::All(all) => all[i].turn(editor, way),
            Entries::Last(ring) => match ring.get_mut(i) {
                Some(entry) => entry.turn(editor, way),
                // The ring has this place, by what the call requires.
                None => unreachable!(),
            },
        }
    }

    /// Drops the entries from a place on. Takes no memory.
    pub fn truncate(&mut self, n: usize)
        ensures strings { strings_of self.new ≡ take n (strings_of self.old) }
        ensures depth { depth_of self.new ≡ depth_of self.old }
        ensures place { HasPlace self.old → HasPlace self.new }
    {
        match self {
            Entries::All(all) => all.truncate(n),
            Entries::Last(ring) => ring.truncate_back(n),
        }
    }

    /// Finds a place for one more entry; a ring has one, since its oldest one goes.
    pub fn reserve(&mut self) -> Result<(), NoMemory>
        ensures strings { strings_of self.new ≡ strings_of self.old }
        ensures depth { depth_of self.new ≡ depth_of self.old }
        ensures ok { OnOk result (HasPlace self.new) }
    {
        match self {
            Entries::All(all) => all.reserve(1),
            Entries::Last(_) => Ok(()),
        }
    }

    /// Notes an entry as the last one, at the place that was found; where that makes more than the depth, the first one goes. Takes no
    /// memory.
    pub fn note(&mut self, entry: Entry)
        requires { HasPlace self.old }
        ensures strings { strings_of self.new
            ≡ newest (depth_of self.old) (strings_of self.old ++ kept_string entry ∷ []) }
        ensures depth { depth_of self.new ≡ depth_of self.old }
    {
        match self {
            Entries::All(all) => all.push_reserved(entry),
            Entries::Last(ring) => {
                ring.push_back(entry);
            }
        }
    }
}
