//! What a session keeps of a string, and how it is turned.
ghost use Rattle.std.specs.Prelude.{◌≡◌, length};
ghost use Rattle.teco_session.specs.Turns.{FitsTurn, body_turned, string_turned};
ghost use Rattle.teco_store.specs.State.{with_body};

use crate::changes::Changes;
use crate::text::Text;
use teco_store::Editor;

/// A string that has begun: its text, the whole steps that it took, and its changes.
#[derive(Drop)]
pub struct Entry {
    pub text: Text,
    pub steps: u64,
    pub changes: Changes,
}

/// How a string is turned.
#[derive(Clone, Copy)]
pub enum Turn {
    /// What it did is taken back, and what does it again is kept.
    Back,
    /// What it did is done again, and what takes it back is kept.
    Forth,
    /// The steps after the first so many are taken back, and their changes are dropped.
    Cut(u64),
}

const _: () = prove!(size_of::<Entry>() <= 96);

impl Entry {
    ghost use Rattle.teco_session.specs.Entries.{kept_string};

    /// Turns the string so. Takes no memory.
    pub fn turn(&mut self, editor: &mut Editor, way: Turn)
        requires { FitsTurn way editor.old.room (length editor.old.stored) self.old.changes
            editor.old.body }
        ensures editor { editor.new
            ≡ with_body editor.old (body_turned way self.old.changes editor.old.body) }
        ensures entry { kept_string self.new ≡ string_turned way (kept_string self.old) editor.old.body }
    {
        match way {
            Turn::Back => self.changes.revert(editor),
            Turn::Forth => self.changes.apply(editor),
            Turn::Cut(n) => {
                self.changes.rewind(editor, n);
                self.steps = n;
            }
        }
    }
}
