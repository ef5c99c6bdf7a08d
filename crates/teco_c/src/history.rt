//! The calls that tell of the strings of a session.
ghost use Rattle.std.specs.Prelude.{◌≡◌, length, option_map};
ghost use Rattle.teco_c.specs.Looks.{Tells, TellsIf, CopiesIf, string_of};

use crate::answers::{CLOSED, OUTSIDE};
use crate::handle::Teco;
use crate::room::copy_front;

/// Writes how many strings the history has, undone ones too. Takes no memory.
#[unsafe(no_mangle)]
pub extern "C" fn teco_strings(t: &mut Teco, count: &mut usize) -> u8
    ensures told { Tells t.old.value result count.new (λ kept. length kept.strings) }
    ensures same { t.new ≡ t.old }
{
    let Some(session) = t.look() else {
        *count = 0;
        return CLOSED;
    };
    *count = session.strings();
    0
}

/// Writes how many strings are not undone. Takes no memory.
#[unsafe(no_mangle)]
pub extern "C" fn teco_cursor(t: &mut Teco, count: &mut usize) -> u8
    ensures told { Tells t.old.value result count.new (λ kept. kept.cursor) }
    ensures same { t.new ≡ t.old }
{
    let Some(session) = t.look() else {
        *count = 0;
        return CLOSED;
    };
    *count = session.cursor();
    0
}

/// Writes how many steps string `i` took, counted from the oldest one that is kept. Takes no memory.
#[unsafe(no_mangle)]
pub extern "C" fn teco_steps(t: &mut Teco, i: usize, steps: &mut u64) -> u8
    ensures told { TellsIf 0 t.old.value result steps.new
        (λ kept. option_map (λ note. note.steps) (string_of i kept)) }
    ensures same { t.new ≡ t.old }
{
    *steps = 0;
    let Some(session) = t.look() else {
        return CLOSED;
    };
    if session.strings() <= i {
        return OUTSIDE;
    }
    *steps = session.steps(i);
    0
}

/// Copies the text of string `i` into the room, as much as there is room for, and writes how long it is. Takes no memory.
#[unsafe(no_mangle)]
pub extern "C" fn teco_string(t: &mut Teco, i: usize, room: &mut [u8], len: &mut usize) -> u8
    ensures length { TellsIf 0 t.old.value result len.new
        (λ kept. option_map (λ note. length note.text) (string_of i kept)) }
    ensures text { CopiesIf t.old.value room.old room.new
        (λ kept. option_map (λ note. note.text) (string_of i kept)) }
    ensures same { t.new ≡ t.old }
{
    *len = 0;
    let Some(session) = t.look() else {
        return CLOSED;
    };
    if session.strings() <= i {
        return OUTSIDE;
    }
    let text = session.string(i);
    *len = text.len();
    copy_front(room, text);
    0
}
