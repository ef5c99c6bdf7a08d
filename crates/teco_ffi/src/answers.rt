//! The numbers that calls answer beside those of the codes.
ghost use Rattle.std.specs.Prelude.{◌≡◌};
ghost use Rattle.teco_ffi.specs.Numbers.{answer_number, steps_of};

use teco_session::Answer;

/// The handle is closed.
pub const CLOSED: u8 = 255;

/// The input is above the limit.
pub const LARGE: u8 = 254;

/// The depth is above the limit.
pub const DEEP: u8 = 253;

/// The history found no memory for the string.
pub const NOT_BEGUN: u8 = 252;

/// There is no such string, change or splice, no such register, or no search text.
pub const OUTSIDE: u8 = 251;

/// No token is left.
pub const NO_TOKEN: u8 = 250;

/// A string does not run again as it ran.
pub const OTHERWISE: u8 = 249;

/// The bytes end before the head of a session's file does.
pub const TORN_HEAD: u8 = 248;

/// They begin with no head of a session's file, of this version and as it was written.
pub const CHANGED_HEAD: u8 = 247;

/// A caret of a source stands before what it cannot stand before.
pub const CARET: u8 = 246;

/// The place of a string that did not stop before its end, or of which no place is told.
pub const NOWHERE: usize = usize::MAX;

/// The answers as numbers. The call does nothing.
pub fn answer_values()
    ensures caret { CARET ≡ 246 }
    ensures changed_head { CHANGED_HEAD ≡ 247 }
    ensures torn_head { TORN_HEAD ≡ 248 }
    ensures otherwise { OTHERWISE ≡ 249 }
    ensures no_token { NO_TOKEN ≡ 250 }
    ensures outside { OUTSIDE ≡ 251 }
    ensures not_begun { NOT_BEGUN ≡ 252 }
    ensures deep { DEEP ≡ 253 }
    ensures large { LARGE ≡ 254 }
    ensures closed { CLOSED ≡ 255 }
    ensures nowhere { NOWHERE ≡ 18446744073709551615 }
{}

/// The number that tells an answer: of its code, 0 where it has none, and one of its own where the string was not begun.
pub fn number_of_answer(answer: Answer) -> u8
    ensures { result ≡ answer_number answer }
{
    if let Answer::NotBegun = answer {
        return NOT_BEGUN;
    }
    match answer.code() {
        None => 0,
        Some(code) => code.number(),
    }
}

/// How many steps a string took, by its answer.
pub fn steps_of_answer(answer: Answer) -> u64
    ensures { result ≡ steps_of answer }
{
    match answer {
        Answer::Ended(outcome) => outcome.steps,
        _ => 0,
    }
}
