//! Parts of an editor are changed, and nothing of what stood there is kept.
ghost use Rattle.std.specs.Prelude.{◌≡◌, ◌+◌, ◌≤◌, length, option_map, None, IfOk, IsOk, OnOk, OnErr};
ghost use Rattle.std.specs.Option.{option_copied};
ghost use Rattle.teco_store.specs.PageSpan.{IsPageSpan};
ghost use Rattle.teco_store.specs.Page.{brought, page};
ghost use Rattle.teco_store.specs.Search.{fresh, is_last, length_of, text_after};
ghost use Rattle.teco_store.specs.State.{with_body};

use crate::editor::Editor;
use crate::pages::PageSpan;
use teco_core::{FILE_LIMIT, NoMemory, TEXT_LIMIT};

impl Editor {
    // Brings in the next page for the `there` bytes at `at`; the output then ends at `end`, within what is stored.
    pub(super) fn bring_page(
        &mut self,
        span: PageSpan,
        at: usize,
        there: usize,
        pointer: usize,
        end: usize,
    )
        requires span { IsPageSpan span self.old.body }
        requires there { at + there ≤ length self.old.body.text }
        requires lands { pointer + there ≤ length self.old.body.text + length (page self.old.body) }
        requires small { length self.old.body.text + length (page self.old.body) ≤ TEXT_LIMIT + there }
        requires room { length self.old.body.text + length (page self.old.body) ≤ self.old.room + there }
        requires ends { (end ≤ length self.old.stored) × (end ≤ FILE_LIMIT) }
        ensures { self.new ≡ with_body self.old (brought self.old.body at there pointer end) }
    {
        let PageSpan { len, form_feed } = span;
        self.text
            .splice(at, there, &self.input[self.place..self.place + len]);
        self.pointer = pointer;
        self.place += len + usize::from(form_feed);
        self.shown = end;
        self.form_feed = form_feed;
    }

    // Whether a text is the last search text.
    #[inline(always)]
    fn is_last_search(&self, text: &[u8]) -> bool
        ensures { result ≡ is_last self.now.body.last_search text.now }
    {
        match &self.last_search {
            None => false,
            Some(last) => text == last.as_slice(),
        }
    }

    /// A copy of a text to be noted; none where it is the last one again.
    pub fn fresh_text(&self, text: Option<&[u8]>) -> Result<Option<Vec<u8>>, NoMemory>
        ensures copy { IfOk result (λ f. option_map (λ v. v.items) f
            ≡ fresh self.now.body.last_search (option_copied text.entry)) }
        ensures none { fresh self.now.body.last_search (option_copied text.entry) ≡ None → IsOk result }
    {
        let Some(text) = text else {
            return Ok(None);
        };
        if self.is_last_search(text) {
            return Ok(None);
        }
        Ok(Some(Vec::from_slice(*self.input.allocator(), text)?))
    }

    // Makes a text the last search text; none leaves it. The same text again takes no memory.
    #[inline(always)]
    pub(super) fn note_text(&mut self, text: Option<&[u8]>) -> Result<(), NoMemory>
        requires { length_of (option_copied text) ≤ TEXT_LIMIT }
        ensures ok { OnOk result (self.new ≡ with_body self.old (record self.old.body {
          last_search = text_after self.old.body.last_search (option_copied text.entry);
        })) }
        ensures err { OnErr result (self.new ≡ self.old) }
        ensures none { fresh self.old.body.last_search (option_copied text.entry) ≡ None → IsOk result }
    {
        let Some(text) = text else {
            return Ok(());
        };
        if self.is_last_search(text) {
            return Ok(());
        }
        self.last_search = Some(Vec::from_slice(*self.input.allocator(), text)?);
        Ok(())
    }
}
