//! The calls that tell of the changes of a string.
ghost use Rattle.std.specs.Prelude.{◌≡◌, ◌<◌, None, Some, length, option_map, slice_index_or, MatchOption};
ghost use Rattle.teco_c.specs.Changes.{change_of, changes_of, kind_at, kind_number, name_in, splice_of};
ghost use Rattle.teco_c.specs.Looks.{TellsIf};
ghost use Rattle.teco_undo.specs.Listing.{no_note};

use crate::answers::{CLOSED, OUTSIDE};
use crate::handle::Teco;
use crate::kinds::{name_in_kind, number_of_kind};
use teco_session::{Changes, Session};
use teco_store::ChangeKind;

/// What a change is for: the number of its kind, the name of the register or 0, and how many steps of the string were done before it.
#[repr(C)]
pub struct ToldChange {
    pub kind: u8,
    pub name: u8,
    pub step: u64,
}

/// A splice: its place in the text, how many bytes a turn takes out there, and how many it puts in.
#[repr(C)]
pub struct ToldSplice {
    pub at: usize,
    pub gone: usize,
    pub came: usize,
}

/// The changes of a string, if it has so many.
fn with_change(session: &Session, i: usize, k: usize) -> Option<&Changes>
    ensures { MatchOption result (change_of i k session.now ≡ None) (λ changes. (k < length changes.now)
        × (change_of i k session.now ≡ Some (slice_index_or changes.now k no_note))) }
{
    if i < session.strings() && k < session.entry(i).len() {
        Some(session.entry(i))
    } else {
        None
    }
}

/// Writes how many changes string `i` has. Takes no memory.
#[unsafe(no_mangle)]
pub extern "C" fn teco_changes(t: &mut Teco, i: usize, count: &mut usize) -> u8
    ensures told { TellsIf 0 t.old.value result count.new
        (λ kept. option_map length (changes_of i kept)) }
    ensures same { t.new ≡ t.old }
{
    *count = 0;
    let Some(session) = t.look() else {
        return CLOSED;
    };
    if session.strings() <= i {
        return OUTSIDE;
    }
    *count = session.entry(i).len();
    0
}

/// Tells what change `k` of string `i` is for. Takes no memory.
#[unsafe(no_mangle)]
pub extern "C" fn teco_change(t: &mut Teco, i: usize, k: usize, told: &mut ToldChange) -> u8
    ensures kind { TellsIf 0 t.old.value result told.new.kind
        (λ kept. option_map kind_number (kind_at i k kept)) }
    ensures name { TellsIf 0 t.old.value result told.new.name
        (λ kept. option_map name_in (kind_at i k kept)) }
    ensures step { TellsIf 0 t.old.value result told.new.step
        (λ kept. option_map (λ change. change.step) (change_of i k kept)) }
    ensures same { t.new ≡ t.old }
{
    told.kind = 0;
    told.name = 0;
    told.step = 0;
    let Some(session) = t.look() else {
        return CLOSED;
    };
    match with_change(session, i, k) {
        None => OUTSIDE,
        Some(changes) => {
            told.kind = number_of_kind(changes.kind(k));
            told.name = name_in_kind(changes.kind(k));
            told.step = changes.step(k);
            0
        }
    }
}

/// Tells of change `k` of string `i`, where it is a splice, what the next turn does there: an undo, where the string is not undone, and
/// else a redo. Takes no memory.
#[unsafe(no_mangle)]
pub extern "C" fn teco_splice(t: &mut Teco, i: usize, k: usize, told: &mut ToldSplice) -> u8
    ensures at { TellsIf 0 t.old.value result told.new.at
        (λ kept. option_map (λ splice. splice.at) (splice_of i k kept)) }
    ensures gone { TellsIf 0 t.old.value result told.new.gone
        (λ kept. option_map (λ splice. splice.gone) (splice_of i k kept)) }
    ensures came { TellsIf 0 t.old.value result told.new.came
        (λ kept. option_map (λ splice. splice.came) (splice_of i k kept)) }
    ensures same { t.new ≡ t.old }
{
    told.at = 0;
    told.gone = 0;
    told.came = 0;
    let Some(session) = t.look() else {
        return CLOSED;
    };
    let Some(changes) = with_change(session, i, k) else {
        return OUTSIDE;
    };
    match changes.kind(k) {
        ChangeKind::Splice { at, gone, came } => {
            told.at = at;
            told.gone = gone;
            told.came = came;
            0
        }
        _ => OUTSIDE,
    }
}
