//! What is told of where a string stopped.
ghost use Rattle.std.specs.Prelude.{◌≡◌};
ghost use Rattle.teco_ffi.specs.Places.{told_at, told_calls};

use crate::answers::NOWHERE;
use teco_core::NoMemory;
use teco_exec::Place;

/// What is told of a place in a string of so many bytes: the place of the outermost call, or of the token where no call is open.
pub fn told_at(place: &Result<Option<Place>, NoMemory>, size: usize) -> usize
    ensures { result ≡ told_at size place.now }
{
    match place {
        Ok(Some(place)) => {
            let at = match place.calls.last() {
                None => place.at,
                Some(call) => call.at,
            };
            at.min(size)
        }
        _ => NOWHERE,
    }
}

/// How many calls are open there.
pub fn told_calls(place: &Result<Option<Place>, NoMemory>) -> usize
    ensures { result ≡ told_calls place.now }
{
    match place {
        Ok(Some(place)) => place.calls.len(),
        _ => 0,
    }
}
