//! The calls that are open where a string stopped.
ghost use Rattle.std.specs.Prelude.{◌≡◌, map};
ghost use Rattle.teco_ffi.specs.Frames.{filled_calls, open_call, open_calls, place_within};

use crate::answers::NOWHERE;
use crate::kinds::name_of;
use teco_core::NoMemory;
use teco_exec::{Call, Place};

/// A call that is open: its place in the text that calls, and the byte that names the register whose text it calls.
#[repr(C)]
#[derive(Clone, Copy)]
pub struct OpenCall {
    pub at: usize,
    pub name: u8,
}

/// A call as it is told.
fn told(call: &Call) -> OpenCall
    ensures { result ≡ open_call call.now }
{
    OpenCall {
        at: call.at,
        name: name_of(call.register),
    }
}

/// Tells as many of the calls as there is room for, the latest first.
fn tell_calls(room: &mut [OpenCall], calls: &[Call])
    ensures { room.new ≡ filled_calls room.old (map open_call calls.now) }
{
    let n = calls.len().min(room.len());
    for k in 0..n {
        room[k] = told(&calls[k]);
    }
}

/// Tells the calls that are open at a place, and gives its own place in the innermost text.
pub fn tell_place(place: &Result<Option<Place>, NoMemory>, room: &mut [OpenCall]) -> usize
    ensures at { result ≡ place_within place.now }
    ensures calls { room.new ≡ filled_calls room.old (open_calls place.now) }
{
    match place {
        Ok(Some(place)) => {
            tell_calls(room, place.calls.as_slice());
            place.at
        }
        _ => NOWHERE,
    }
}
