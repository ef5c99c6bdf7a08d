//! The text of a search is noted, with the one that it takes the place of.
ghost use Rattle.std.specs.Prelude.{◌≡◌, ℕ, ◌+◌, ◌≤◌, length, option_map, option_to_list};
ghost use Rattle.teco_undo.specs.Follows.{FollowsAfterChanges};
ghost use Rattle.teco_store.specs.Search.{fresh_load, length_of, text_after};
ghost use Rattle.teco_store.specs.State.{IsSound};

use crate::recorder::Recorder;
use teco_core::TEXT_LIMIT;
use teco_store::Desk;
use teco_store::change::{PartValue, SmallChange};

// How many changes of a text that is noted are held apart.
pub(super) fn count_of(text: &Option<Vec<u8>>) -> usize
    ensures { result ≡ length (option_to_list text.now) }
{
    match text {
        None => 0,
        Some(_) => 1,
    }
}

impl Recorder {
    // Makes a text the last search text, and notes the one that was; none leaves it. What the search came to is noted too, where that changes.
    pub(super) fn note_result(&mut self, text: Option<Vec<u8>>, found: bool)
        requires spare { 2 ≤ self.old.spare }
        requires apart { length (option_to_list text) ≤ self.old.apart }
        requires small { length_of (option_map (λ v. v.items) text) ≤ TEXT_LIMIT }
        ensures full { self.new.full ≡ record self.old.full {
          body = record self.old.full.body {
            last_search = text_after self.old.full.body.last_search
                (option_map (λ v. v.items) text);
            last_found = found;
          };
        } }
        ensures sound { IsSound self.new.full.room (length self.new.full.stored) self.new.full.body }
        ensures spare { self.old.spare ≤ self.new.spare + 2 }
        ensures apart { (k : ℕ) → k ≤ self.new.spare
            → k + length (option_to_list text) ≤ self.old.apart → k ≤ self.new.apart }
        ensures goes { FollowsAfterChanges (fresh_load self.old.full.body.last_search
            (option_map (λ v. v.items) text)) 2 self.old self.new }
    {
        // This shows that what the editor holds is within its limits.
        let _shown = self.editor.shown();
        if let Some(text) = text {
            self.note_apart(PartValue::Search(Some(text)));
        }
        if found != self.editor.last_result() {
            self.note(SmallChange::Found(found));
        }
    }
}
