//! The changes of a string, of which a single one lies in its entry.
ghost use Rattle.std.specs.Prelude.{◌≡◌, ◌<◌, length, slice_index_or};
ghost use Rattle.teco_undo.specs.Entry.{body_back, body_forth, notes_back, notes_forth, before, since, FitsBack, FitsForth};
ghost use Rattle.teco_undo.specs.Follows.{IsInOrder};
ghost use Rattle.teco_store.specs.Kinds.{kind_of, way_back, ChangesOnly};
ghost use Rattle.teco_undo.specs.Listing.{no_note};
ghost use Rattle.teco_store.specs.State.{with_body, Body};
ghost use Rattle.teco_store.specs.Turn.{body_after, turn_after, held_by, Stands};

use std::marker::Model;
use teco_store::{Change, ChangeKind, Editor};
use teco_undo::{ChangeList, apply, apply_all, revert, revert_all, rewind};

/// Where the changes of a string lie: a single one in the entry, more of them in memory of their own.
#[derive(Drop)]
pub(crate) enum ChangesForm {
    Empty,
    One(Change),
    Many(ChangeList),
}

/// The changes of a string, in the order in which they were made. A single one takes no memory but its text's.
///
/// A clause sees them as a list.
#[derive(Drop)]
pub struct Changes {
    form: ChangesForm,
}

impl Model for Changes {
    ghost use Rattle.std.specs.Prelude.{List};
    ghost use Rattle.teco_store.specs.Turn.{Note};
    ghost use Rattle.teco_session.specs.Forms.{changes_of};

    ghost Value = { List Note };

    ghost view = { λ c. changes_of c.form };
}

impl Changes {
    /// These changes. What memory they do not need is given back.
    pub fn of(mut changes: ChangeList) -> Changes
        ensures { result ≡ changes.items }
    {
        if changes.len() > 1 {
            // A short string has a few changes, and room for more of them was found at each step.
            changes.shrink_to_fit();
            return Changes {
                form: ChangesForm::Many(changes),
            };
        }
        match changes.pop() {
            Some(change) => Changes {
                form: ChangesForm::One(change),
            },
            None => Changes {
                form: ChangesForm::Empty,
            },
        }
    }

    /// How many there are. Takes no memory.
    pub fn len(&self) -> usize
        ensures { result ≡ length self.now }
    {
        match &self.form {
            ChangesForm::Empty => 0,
            ChangesForm::One(_) => 1,
            ChangesForm::Many(changes) => changes.len(),
        }
    }

    /// The steps that were done before one of them. Takes no memory.
    pub fn step(&self, k: usize) -> u64
        requires { k < length self.now }
        ensures { result ≡ (slice_index_or self.now k no_note).step }
    {
        match &self.form {
            // There is none, and the call requires one.
            ChangesForm::Empty => unreachable!(),
            ChangesForm::One(change) => change.step(),
            ChangesForm::Many(changes) => changes.step(k),
        }
    }

    /// The bytes of the text of one of them, if it has one. Takes no memory.
    pub fn held(&self, k: usize) -> usize
        requires { k < length self.now }
        ensures { result ≡ held_by (slice_index_or self.now k no_note).turn }
    {
        match &self.form {
            // There is none, and the call requires one.
            ChangesForm::Empty => unreachable!(),
            ChangesForm::One(change) => change.held(),
            ChangesForm::Many(changes) => changes.held(k),
        }
    }

    /// What one of them is for, and of a splice how many bytes a turn takes out and puts in. Takes no memory.
    pub fn kind(&self, k: usize) -> ChangeKind
        requires { k < length self.now }
        ensures kind { result ≡ kind_of (slice_index_or self.now k no_note).turn }

        // A turn changes nothing else, and leaves a change that goes back.
        ensures only { (b : Body) → ChangesOnly result b
            (body_after (slice_index_or self.now k no_note).turn b) }
        ensures back { (b : Body) → Stands (slice_index_or self.now k no_note).turn b
            → kind_of (turn_after (slice_index_or self.now k no_note).turn b) ≡ way_back result }
    {
        match &self.form {
            // There is none, and the call requires one.
            ChangesForm::Empty => unreachable!(),
            ChangesForm::One(change) => change.kind(),
            ChangesForm::Many(changes) => changes.kind(k),
        }
    }

    /// Reverts all of them, the last first. Takes no memory.
    pub fn revert(&mut self, editor: &mut Editor)
        requires { FitsBack editor.old.room self.old editor.old.body }
        ensures editor { editor.new ≡ with_body editor.old (body_back self.old editor.old.body) }
        ensures changes { self.new ≡ notes_back self.old editor.old.body }
    {
        match &mut self.form {
            ChangesForm::Empty => {}
            ChangesForm::One(change) => revert(editor, change),
            ChangesForm::Many(changes) => revert_all(editor, changes),
        }
    }

    /// Applies all of them, the first first. Takes no memory.
    pub fn apply(&mut self, editor: &mut Editor)
        requires { FitsForth editor.old.room (length editor.old.stored) self.old editor.old.body }
        ensures editor { editor.new ≡ with_body editor.old (body_forth self.old editor.old.body) }
        ensures changes { self.new ≡ notes_forth self.old editor.old.body }
    {
        match &mut self.form {
            ChangesForm::Empty => {}
            ChangesForm::One(change) => apply(editor, change),
            ChangesForm::Many(changes) => apply_all(editor, changes),
        }
    }

    /// Reverts those that were made after so many steps, the last first, and drops them. Takes no memory.
    pub fn rewind(&mut self, editor: &mut Editor, steps: u64)
        requires fits { FitsBack editor.old.room self.old editor.old.body }
        requires order { IsInOrder self.old }
        ensures editor { editor.new
            ≡ with_body editor.old (body_back (since steps self.old) editor.old.body) }
        ensures changes { self.new ≡ before steps self.old }
    {
        match &mut self.form {
            ChangesForm::Empty => {}
            ChangesForm::One(change) => {
                if change.step() >= steps {
                    revert(editor, change);
                    self.form = ChangesForm::Empty;
                }
            }
            ChangesForm::Many(changes) => rewind(editor, changes, steps),
        }
    }
}
