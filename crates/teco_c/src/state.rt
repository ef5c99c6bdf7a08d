//! The calls that tell of the editing state.
ghost use Rattle.std.specs.Prelude.{◌≡◌, length, drop, count_by, slice_range, option_map, pos};
ghost use Rattle.teco_core.specs.Ascii.{is_line_end};
ghost use Rattle.teco_c.specs.Looks.{Tells, TellsIf, Says, Copies, CopiesIf, register_named_by, state_now, is_either, is_wide};

use crate::answers::{CLOSED, OUTSIDE};
use crate::halves::{bytes_from, halves_between, line_ends};
use crate::handle::Teco;
use crate::room::{copy_from, copy_front, copy_output};
use teco_core::{CaseMode, Profile, Reg};
use teco_store::Desk;

/// Writes how long the text is. Takes no memory.
#[unsafe(no_mangle)]
pub extern "C" fn teco_length(t: &mut Teco, len: &mut usize) -> u8
    ensures told { Tells t.old.value result len.new (λ kept. length (state_now kept).text) }
    ensures same { t.new ≡ t.old }
{
    let Some(session) = t.look() else {
        *len = 0;
        return CLOSED;
    };
    let (before, after) = session.editor().halves();
    *len = before.len() + after.len();
    0
}

/// Writes where the pointer is. Takes no memory.
#[unsafe(no_mangle)]
pub extern "C" fn teco_pointer(t: &mut Teco, pointer: &mut usize) -> u8
    ensures told { Tells t.old.value result pointer.new (λ kept. (state_now kept).pointer) }
    ensures same { t.new ≡ t.old }
{
    let Some(session) = t.look() else {
        *pointer = 0;
        return CLOSED;
    };
    *pointer = session.editor().pointer();
    0
}

/// Copies the text from a place on into the room, as much as there is room for, and writes how long it is from there. Takes no memory.
#[unsafe(no_mangle)]
pub extern "C" fn teco_text(t: &mut Teco, from: usize, room: &mut [u8], len: &mut usize) -> u8
    ensures length { Tells t.old.value result len.new
        (λ kept. length (drop from (state_now kept).text)) }
    ensures text { Copies t.old.value room.old room.new (λ kept. drop from (state_now kept).text) }
    ensures same { t.new ≡ t.old }
{
    let Some(session) = t.look() else {
        *len = 0;
        return CLOSED;
    };
    let (before, after) = session.editor().halves();
    *len = copy_from(room, before, after, from);
    0
}

/// Writes how many line ends, LF, VT and FF, the text has between two places. Takes no memory, and the time of the way there.
#[unsafe(no_mangle)]
pub extern "C" fn teco_lines(t: &mut Teco, from: usize, to: usize, count: &mut usize) -> u8
    ensures told { Tells t.old.value result count.new
        (λ kept. count_by is_line_end (slice_range (state_now kept).text from to)) }
    ensures same { t.new ≡ t.old }
{
    let Some(session) = t.look() else {
        *count = 0;
        return CLOSED;
    };
    let (before, after) = session.editor().halves();
    let (before, after) = halves_between(before, after, from, to);
    *count = line_ends(before) + line_ends(after);
    0
}

/// Copies the output from a place on into the room, as much as there is room for, and writes how long it is from there. Takes no
/// memory.
#[unsafe(no_mangle)]
pub extern "C" fn teco_output(t: &mut Teco, from: usize, room: &mut [u8], len: &mut usize) -> u8
    ensures length { Tells t.old.value result len.new
        (λ kept. length (drop from (state_now kept).output)) }
    ensures output { Copies t.old.value room.old room.new (λ kept. drop from (state_now kept).output) }
    ensures same { t.new ≡ t.old }
{
    let Some(session) = t.look() else {
        *len = 0;
        return CLOSED;
    };
    *len = copy_output(room, session.editor().output(), from);
    0
}

/// Copies the input from a place on into the room, as much as there is room for, and writes how long it is from there. Takes no memory.
#[unsafe(no_mangle)]
pub extern "C" fn teco_input(t: &mut Teco, from: usize, room: &mut [u8], len: &mut usize) -> u8
    ensures length { Tells t.old.value result len.new
        (λ kept. length (drop from (state_now kept).input)) }
    ensures input { Copies t.old.value room.old room.new (λ kept. drop from (state_now kept).input) }
    ensures same { t.new ≡ t.old }
{
    let Some(session) = t.look() else {
        *len = 0;
        return CLOSED;
    };
    let left = bytes_from(session.editor().input(), from);
    *len = left.len();
    copy_front(room, left);
    0
}

/// Writes the number of the register that a byte names. Takes no memory.
#[unsafe(no_mangle)]
pub extern "C" fn teco_number(t: &mut Teco, name: u8, number: &mut i32) -> u8
    ensures told { TellsIf (pos 0) t.old.value result number.new
        (λ kept. option_map (λ held. held.number) (register_named_by name kept)) }
    ensures same { t.new ≡ t.old }
{
    *number = 0;
    let Some(session) = t.look() else {
        return CLOSED;
    };
    match Reg::of(name) {
        None => OUTSIDE,
        Some(q) => {
            *number = session.editor().registers().number(q);
            0
        }
    }
}

/// Copies the text of the register that a byte names into the room, as much as there is room for, and writes how long it is. Takes no
/// memory.
#[unsafe(no_mangle)]
pub extern "C" fn teco_register(t: &mut Teco, name: u8, room: &mut [u8], len: &mut usize) -> u8
    ensures length { TellsIf 0 t.old.value result len.new
        (λ kept. option_map (λ held. length held.text) (register_named_by name kept)) }
    ensures text { CopiesIf t.old.value room.old room.new
        (λ kept. option_map (λ held. held.text) (register_named_by name kept)) }
    ensures same { t.new ≡ t.old }
{
    *len = 0;
    let Some(session) = t.look() else {
        return CLOSED;
    };
    match Reg::of(name) {
        None => OUTSIDE,
        Some(q) => {
            let text = session.editor().registers().text(q);
            *len = text.len();
            copy_front(room, text);
            0
        }
    }
}

/// Copies the last search text into the room, as much as there is room for, and writes how long it is. Takes no memory.
#[unsafe(no_mangle)]
pub extern "C" fn teco_search(t: &mut Teco, room: &mut [u8], len: &mut usize) -> u8
    ensures length { TellsIf 0 t.old.value result len.new
        (λ kept. option_map length (state_now kept).last_search) }
    ensures text { CopiesIf t.old.value room.old room.new (λ kept. (state_now kept).last_search) }
    ensures same { t.new ≡ t.old }
{
    *len = 0;
    let Some(session) = t.look() else {
        return CLOSED;
    };
    match session.editor().last_search() {
        None => OUTSIDE,
        Some(text) => {
            *len = text.len();
            copy_front(room, text);
            0
        }
    }
}

/// Writes how many values are on the push-down list. Takes no memory.
#[unsafe(no_mangle)]
pub extern "C" fn teco_pushed(t: &mut Teco, count: &mut usize) -> u8
    ensures told { Tells t.old.value result count.new (λ kept. length (state_now kept).pushed) }
    ensures same { t.new ≡ t.old }
{
    let Some(session) = t.look() else {
        *count = 0;
        return CLOSED;
    };
    *count = session.editor().pushed().len();
    0
}

/// Writes how many bytes of the input have been read. Takes no memory.
#[unsafe(no_mangle)]
pub extern "C" fn teco_place(t: &mut Teco, place: &mut usize) -> u8
    ensures told { Tells t.old.value result place.new (λ kept. (state_now kept).place) }
    ensures same { t.new ≡ t.old }
{
    let Some(session) = t.look() else {
        *place = 0;
        return CLOSED;
    };
    *place = session.editor().place();
    0
}

/// Whether an exit has ended the session: 1 or 0. Takes no memory.
#[unsafe(no_mangle)]
pub extern "C" fn teco_done(t: &mut Teco) -> u8
    ensures told { Says t.old.value result (λ state. state.is_done) }
    ensures same { t.new ≡ t.old }
{
    let Some(session) = t.look() else {
        return CLOSED;
    };
    u8::from(session.editor().done())
}

/// Whether the last search found what it looked for: 1 or 0. Takes no memory.
#[unsafe(no_mangle)]
pub extern "C" fn teco_found(t: &mut Teco) -> u8
    ensures told { Says t.old.value result (λ state. state.last_found) }
    ensures same { t.new ≡ t.old }
{
    let Some(session) = t.look() else {
        return CLOSED;
    };
    u8::from(session.editor().last_result())
}

/// Whether a form feed ended the page: 1 or 0. Takes no memory.
#[unsafe(no_mangle)]
pub extern "C" fn teco_form_feed(t: &mut Teco) -> u8
    ensures told { Says t.old.value result (λ state. state.form_feed) }
    ensures same { t.new ≡ t.old }
{
    let Some(session) = t.look() else {
        return CLOSED;
    };
    u8::from(session.editor().flag())
}

/// Whether searches find a letter in either case: 1 or 0. Takes no memory.
#[unsafe(no_mangle)]
pub extern "C" fn teco_either_case(t: &mut Teco) -> u8
    ensures told { Says t.old.value result (λ state. is_either state.case_mode) }
    ensures same { t.new ≡ t.old }
{
    let Some(session) = t.look() else {
        return CLOSED;
    };
    u8::from(session.editor().case_mode() == CaseMode::Either)
}

/// Whether command strings are read in the wide language: 1 or 0. Takes no memory.
#[unsafe(no_mangle)]
pub extern "C" fn teco_is_wide(t: &mut Teco) -> u8
    ensures told { Says t.old.value result (λ state. is_wide state.profile) }
    ensures same { t.new ≡ t.old }
{
    let Some(session) = t.look() else {
        return CLOSED;
    };
    u8::from(session.editor().profile() == Profile::Wide)
}
