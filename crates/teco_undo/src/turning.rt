//! Changes and entries are turned: nothing of it takes memory, or fails.
ghost use Rattle.std.specs.Prelude.{◌≡◌, ◌≤◌, length};
ghost use Rattle.teco_undo.specs.Entry.{body_back, notes_back, body_forth, notes_forth, before, since, FitsBack, FitsForth};
ghost use Rattle.teco_undo.specs.Follows.{IsInOrder};
ghost use Rattle.teco_store.specs.State.{IsSound};
ghost use Rattle.teco_store.specs.Turn.{full_after, note_after, IsRevertible, IsApplicable};

use crate::change_list::ChangeList;
use teco_store::{Change, Editor};

/// Takes back what the change did. Takes no memory.
pub fn revert(editor: &mut Editor, change: &mut Change)
    requires { IsRevertible change.old.turn editor.old }
    ensures editor { editor.new ≡ full_after change.old.turn editor.old }
    ensures change { change.new ≡ note_after change.old editor.old.body }

    // Applied, it gives back both.
    ensures fits { IsApplicable change.new.turn editor.new }
    ensures editor_again { full_after change.new.turn editor.new ≡ editor.old }
    ensures change_again { note_after change.new editor.new.body ≡ change.old }
{
    // This shows that what the editor holds is within its limits.
    let _shown = editor.shown();
    change.turn(editor);
}

/// Does again what the change did. Takes no memory.
pub fn apply(editor: &mut Editor, change: &mut Change)
    requires { IsApplicable change.old.turn editor.old }
    ensures editor { editor.new ≡ full_after change.old.turn editor.old }
    ensures change { change.new ≡ note_after change.old editor.old.body }

    // Reverted, it gives back both.
    ensures fits { IsRevertible change.new.turn editor.new }
    ensures editor_again { full_after change.new.turn editor.new ≡ editor.old }
    ensures change_again { note_after change.new editor.new.body ≡ change.old }
{
    // This shows that what the editor holds is within its limits.
    let _shown = editor.shown();
    change.turn(editor);
}

// Reverts each change, the last first.
fn revert_each(editor: &mut Editor, entry: &mut ChangeList)
    requires { FitsBack editor.old.room entry.old.items editor.old.body }
    ensures editor { editor.new ≡ record editor.old { body = body_back entry.old.items editor.old.body } }
    ensures entry { entry.new.items ≡ notes_back entry.old.items editor.old.body }
{
    let mut i = entry.len();
    while i > 0 {
        i -= 1;
        // This shows that what the editor holds is within its limits.
        let _shown = editor.shown();
        entry.turn(i, editor);
    }
}

// Applies each change, the first first.
fn apply_each(editor: &mut Editor, entry: &mut ChangeList)
    requires { FitsForth editor.old.room (length editor.old.stored) entry.old.items editor.old.body }
    ensures editor { editor.new ≡ record editor.old { body = body_forth entry.old.items editor.old.body } }
    ensures entry { entry.new.items ≡ notes_forth entry.old.items editor.old.body }
{
    for i in 0..entry.len() {
        entry.turn(i, editor);
    }
}

/// Reverts all changes, the last first. Takes no memory.
pub fn revert_all(editor: &mut Editor, entry: &mut ChangeList)
    requires { FitsBack editor.old.room entry.old.items editor.old.body }
    ensures editor { editor.new ≡ record editor.old { body = body_back entry.old.items editor.old.body } }
    ensures entry { entry.new.items ≡ notes_back entry.old.items editor.old.body }

    // Applied, they give back both.
    ensures fits { FitsForth editor.new.room (length editor.new.stored) entry.new.items editor.new.body }
    ensures body_again { body_forth entry.new.items editor.new.body ≡ editor.old.body }
    ensures entry_again { notes_forth entry.new.items editor.new.body ≡ entry.old.items }
    ensures sound { IsSound editor.new.room (length editor.new.stored) editor.new.body }
    ensures end { editor.new.body.output ≤ editor.old.body.output }
{
    // This shows that what the editor holds is within its limits.
    let _shown = editor.shown();
    revert_each(editor, entry);
}

/// Applies all changes, the first first. Takes no memory.
pub fn apply_all(editor: &mut Editor, entry: &mut ChangeList)
    requires { FitsForth editor.old.room (length editor.old.stored) entry.old.items editor.old.body }
    ensures editor { editor.new ≡ record editor.old { body = body_forth entry.old.items editor.old.body } }
    ensures entry { entry.new.items ≡ notes_forth entry.old.items editor.old.body }

    // Reverted, they give back both.
    ensures fits { FitsBack editor.new.room entry.new.items editor.new.body }
    ensures body_again { body_back entry.new.items editor.new.body ≡ editor.old.body }
    ensures entry_again { notes_back entry.new.items editor.new.body ≡ entry.old.items }
    ensures sound { IsSound editor.new.room (length editor.new.stored) editor.new.body }
    ensures end { editor.old.body.output ≤ editor.new.body.output }
{
    // This shows that what the editor holds is within its limits.
    let _shown = editor.shown();
    apply_each(editor, entry);
}

/// Reverts the changes that were made after so many steps, the last first, and drops them. Takes no memory.
pub fn rewind(editor: &mut Editor, entry: &mut ChangeList, steps: u64)
    requires fits { FitsBack editor.old.room entry.old.items editor.old.body }
    requires order { IsInOrder entry.old.items }
    ensures editor { editor.new ≡ record editor.old {
      body = body_back
          (since steps entry.old.items) editor.old.body;
    } }
    ensures entry { entry.new.items ≡ before steps entry.old.items }
{
    let mut kept = entry.len();
    while kept > 0 {
        kept -= 1;
        if entry.step(kept) < steps {
            break;
        }
        // This shows that what the editor holds is within its limits.
        let _shown = editor.shown();
        entry.turn(kept, editor);
        drop(entry.pop());
    }
}
