//! Numbers in decimal digits.
ghost use Rattle.std.specs.Prelude.{◌≡◌, ◌≢◌, ◌++◌, ◌<◌, ◌^◌, ℕ, MatchOption, OnOk, Some, decimal};

use itoa::Buffer;
use std::str::from_utf8;
use teco_core::NoMemory;

pub fn push_number(out: &mut Vec<u8>, number: u64) -> Result<(), NoMemory>
    ensures { OnOk result (out.new.items ≡ out.old.items ++ decimal number) }
{
    let mut buffer = Buffer::new();
    out.extend_from_slice(buffer.format(number).as_bytes())
}

/// The number that some digits are, if they are one. Of other bytes too it may tell one.
pub fn number(digits: &[u8]) -> Option<u64>
    ensures { (n : ℕ) → n < 2 ^ 64 → digits.now ≡ decimal n → result ≡ Some n }
{
    match from_utf8(digits) {
        Ok(text) => text.parse().ok(),
        Err(_) => None,
    }
}

/// The number that some digits are, if it is written in just these digits.
pub fn exact_number(digits: &[u8]) -> Option<u64>
    ensures { MatchOption result ((n : ℕ) → n < 2 ^ 64 → digits.now ≢ decimal n) (λ n. (n < 2 ^ 64) × (digits.now ≡ decimal n)) }
{
    let Some(told) = number(digits) else {
        return None;
    };
    let mut buffer = Buffer::new();
    if buffer.format(told).as_bytes() == digits {
        Some(told)
    } else {
        None
    }
}
