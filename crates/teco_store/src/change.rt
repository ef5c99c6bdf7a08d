//! Changes: a part of the state, and the value that is to be put there.
ghost use Rattle.std.specs.Prelude.{◌≡◌, ◌≤◌};
ghost use Rattle.teco_store.specs.ChangeView.{small_turn, turn_of, HasRoom, IsHere};
ghost use Rattle.teco_store.specs.Kinds.{kind_of, way_back, ChangesOnly};
ghost use Rattle.teco_store.specs.State.{Body};
ghost use Rattle.teco_store.specs.Turn.{body_after, turn_after, note_after, full_after, held_by, Stands, FitsFull};

use crate::change_kind::ChangeKind;
use crate::editor::Editor;
use crate::short_text::ShortText;
use std::alloc::Global;
use std::marker::Model;
use std::mem;
use std::sync::Arc;
use teco_core::{CaseMode, Reg, Value};

/// So many bytes of the text from a place on, and a place for the pointer.
#[derive(Clone, Copy)]
pub struct TextSpan {
    pub at: u32,
    pub len: u32,
    pub pointer: u32,
}

impl TextSpan {
    // The kind of a change that puts so many bytes in their place.
    fn kind(&self, came: usize) -> ChangeKind
        ensures { result ≡ ChangeKind.Splice self.now.at self.now.len came }
    {
        ChangeKind::Splice {
            at: self.at as usize,
            gone: self.len as usize,
            came,
        }
    }
}

/// So many bytes of the input from a place on for the whole text, and a place for the pointer. The text before is other bytes of the input.
#[derive(Clone, Copy)]
pub struct Loan {
    pub from: u32,
    pub len: u32,
    pub old_from: u32,
    pub old_len: u32,
    pub pointer: u32,
}

impl Loan {
    // The kind of a change that lends them.
    fn kind(&self) -> ChangeKind
        ensures { result ≡ ChangeKind.Splice 0 self.now.old_len self.now.len }
    {
        let (gone, came) = (self.old_len as usize, self.len as usize);
        ChangeKind::Splice { at: 0, gone, came }
    }
}

/// A part of the state with a value for it that lies in the change itself; or the place of a change that is held apart.
#[derive(Clone, Copy)]
pub enum SmallChange {
    InsertByte {
        at: u32,
        pointer: u32,
        byte: u8,
    },
    RemoveByte {
        at: u32,
        pointer: u32,
    },
    Point(u32),
    Number(Reg, i32),
    Pages {
        place: u32,
        end: u32,
        form_feed: bool,
    },
    Found(bool),
    Done(bool),
    Mode(CaseMode),
    HeldApart(usize),
}

impl SmallChange {
    /// What it is for.
    pub fn kind(self) -> ChangeKind
        requires { IsHere self }
        ensures { result ≡ kind_of (small_turn self) }
    {
        match self {
            SmallChange::InsertByte { at, .. } => ChangeKind::Splice {
                at: at as usize,
                gone: 0,
                came: 1,
            },
            SmallChange::RemoveByte { at, .. } => ChangeKind::Splice {
                at: at as usize,
                gone: 1,
                came: 0,
            },
            SmallChange::Point(_) => ChangeKind::Point,
            SmallChange::Number(q, _) => ChangeKind::Number(q),
            SmallChange::Pages { .. } => ChangeKind::Pages,
            SmallChange::Found(_) => ChangeKind::Found,
            SmallChange::Done(_) => ChangeKind::Done,
            SmallChange::Mode(_) => ChangeKind::Mode,
            // Its value lies in it, by what the call requires.
            SmallChange::HeldApart(_) => unreachable!(),
        }
    }
}

/// The part of the state that a change is for, with the value.
#[derive(Drop)]
pub enum PartValue {
    Small(SmallChange),
    Splice(TextSpan, Vec<u8>),
    Short(TextSpan, ShortText),
    Lend(Loan),
    /// A text with other owners too, for a text of no bytes, and a place for the pointer.
    PutIn(Arc<Vec<u8>, Global>, u32),
    /// The whole text, which has other owners too, and a place for the pointer.
    TakeOut(Arc<Vec<u8>, Global>, u32),
    Text(Reg, Vec<u8>),
    Push(Value),
    TakeOff,
    PopInto(Reg),
    PutBack(Reg, Value),
    Search(Option<Vec<u8>>),
}

/// A part of the state and the value that is to be put there.
///
/// It holds the text that it takes the place of, and no other. Turned, it holds what stood there. A page that stands in the input as it
/// was read is not held: the change names its place. A text that an exit wrote is held once, by the change and by the output together.
#[derive(Drop)]
pub struct PartChange {
    kind: PartValue,
}

impl Model for PartChange {
    ghost use Rattle.teco_store.specs.Turn.{Turn};
    ghost use Rattle.teco_store.specs.ChangeView.{turn_of, HasRoom};

    ghost Value = { Turn };

    ghost view = { λ p. turn_of p.kind };

    ghost invariant = { λ p. HasRoom p.kind };
}

impl PartChange {
    /// A value for a part of the state.
    pub fn new(kind: PartValue) -> PartChange
        requires { HasRoom kind }
        ensures { result ≡ turn_of kind }
    {
        PartChange { kind }
    }

    /// The bytes of its text, if it has one.
    pub fn held(&self) -> usize
        ensures { result ≡ held_by self.now }
    {
        match &self.kind {
            PartValue::Splice(_, held) | PartValue::Text(_, held) => held.len(),
            PartValue::Search(Some(held)) => held.len(),
            PartValue::Short(_, held) => held.len(),
            PartValue::PutIn(text, _) | PartValue::TakeOut(text, _) => text.len(),
            PartValue::Push(value) | PartValue::PutBack(_, value) => value.text.len(),
            PartValue::Small(SmallChange::InsertByte { .. }) => 1,
            PartValue::Small(_)
            | PartValue::Lend(_)
            | PartValue::TakeOff
            | PartValue::PopInto(_)
            | PartValue::Search(None) => 0,
        }
    }

    /// What it is for.
    pub fn kind(&self) -> ChangeKind
        ensures { result ≡ kind_of self.now }
    {
        match &self.kind {
            PartValue::Small(small) => small.kind(),
            PartValue::Splice(place, held) => place.kind(held.len()),
            PartValue::Short(place, held) => place.kind(held.len()),
            PartValue::Lend(loan) => loan.kind(),
            PartValue::PutIn(text, _) => ChangeKind::Splice {
                at: 0,
                gone: 0,
                came: text.len(),
            },
            PartValue::TakeOut(text, _) => ChangeKind::Splice {
                at: 0,
                gone: text.len(),
                came: 0,
            },
            PartValue::Text(q, _) => ChangeKind::Text(*q),
            PartValue::Push(_) | PartValue::TakeOff => ChangeKind::Push,
            PartValue::PopInto(q) => ChangeKind::Pop(*q),
            PartValue::PutBack(q, _) => ChangeKind::Pop(*q),
            PartValue::Search(_) => ChangeKind::Search,
        }
    }

    /// Swaps what it holds with what stands in its place. Takes no memory.
    pub fn turn(&mut self, editor: &mut Editor)
        requires { FitsFull self.old editor.old }
        ensures editor { editor.new ≡ full_after self.old editor.old }
        ensures part { self.new ≡ turn_after self.old editor.old.body }
    {
        let held = mem::replace(&mut self.kind, PartValue::TakeOff);
        self.kind = editor.put(held);
    }
}

/// A part of the state and the value that is to be put there, with the steps that were done before it was noted.
#[derive(Drop)]
pub struct Change {
    step: u64,
    part: PartChange,
}

const _: () = prove!(size_of::<Change>() <= 48);

impl Model for Change {
    ghost use Rattle.teco_store.specs.Turn.{Note};

    ghost Value = { Note };

    ghost view = { λ c. record { step = c.step; turn = c.part } };
}

impl Change {
    /// A value for a part of the state.
    pub fn new(step: u64, part: PartChange) -> Change
        ensures { result ≡ record { step = step; turn = part } }
    {
        Change { step, part }
    }

    /// One whose value lies in it.
    pub fn small(step: u64, small: SmallChange) -> Change
        requires { IsHere small }
        ensures { result ≡ record { step = step; turn = small_turn small } }
    {
        Change::new(step, PartChange::new(PartValue::Small(small)))
    }

    /// The steps that were done before it.
    pub fn step(&self) -> u64
        ensures { result ≡ self.now.step }
    {
        self.step
    }

    /// The bytes of its text, if it has one.
    pub fn held(&self) -> usize
        ensures { result ≡ held_by self.now.turn }
    {
        self.part.held()
    }

    /// What it is for, and of a splice how many bytes a turn takes out and puts in. Takes no memory.
    pub fn kind(&self) -> ChangeKind
        ensures kind { result ≡ kind_of self.now.turn }

        // A turn changes nothing else, and leaves a change that goes back.
        ensures only { (b : Body) → ChangesOnly result b (body_after self.now.turn b) }
        ensures back { (b : Body) → Stands self.now.turn b
            → kind_of (turn_after self.now.turn b) ≡ way_back result }
    {
        self.part.kind()
    }

    /// Swaps what it holds with what stands in its place. Takes no memory.
    pub fn turn(&mut self, editor: &mut Editor)
        requires { FitsFull self.old.turn editor.old }
        ensures editor { editor.new ≡ full_after self.old.turn editor.old }
        ensures change { self.new ≡ note_after self.old editor.old.body }
    {
        self.part.turn(editor);
    }
}
