//! Whole numbers from -2147483648 to 2147483647, with their faults.
ghost use Rattle.std.specs.Prelude.{◌≡◌, ◌-◌, pos, ◌+ℤ◌, ◌*ℤ◌, ◌≤ℤ◌};
ghost use Rattle.teco_core.specs.Number.{operation, decimal_value, fitted};

use crate::code::Code;

/// An operator between two numbers: `Over` is division, cut toward zero, and `And` and `Or` are of 32 bits in two's complement.
#[derive(Clone, Copy)]
pub enum Op {
    Plus,
    Minus,
    Times,
    Over,
    And,
    Or,
}

/// What the operator makes of two numbers: [`Code::Ovf`] where the result is out of range, [`Code::Dvz`] for a division by zero.
pub fn operation(op: Op, a: i32, b: i32) -> Result<i32, Code>
    ensures { result ≡ operation op a b }
{
    let fitted = match op {
        Op::Plus => a.checked_add(b),
        Op::Minus => a.checked_sub(b),
        Op::Times => a.checked_mul(b),
        Op::Over => {
            if b == 0 {
                return Err(Code::Dvz);
            }
            a.checked_div(b)
        }
        Op::And => Some(a & b),
        Op::Or => Some(a | b),
    };
    fitted.ok_or(Code::Ovf)
}

/// A number with one more digit after its own.
fn with_digit(value: i32, digit: u8) -> Result<i32, Code>
    requires { pos 0 ≤ℤ value }
    ensures { result ≡ fitted ((value *ℤ pos 10) +ℤ pos (digit - 48)) }
{
    let tens = value.checked_mul(10).ok_or(Code::Ovf)?;
    tens.checked_add(i32::from(digit.saturating_sub(b'0')))
        .ok_or(Code::Ovf)
}

/// The value of a run of decimal digits: [`Code::Ovf`] where it is above 2147483647. Takes no memory.
///
/// It doesn't ask whether the bytes are digits: each counts for as much as it is above `0`.
pub fn decimal(digits: &[u8]) -> Result<i32, Code>
    ensures { result ≡ decimal_value digits.now }
{
    let mut value = 0;
    for digit in digits {
        value = with_digit(value, *digit)?;
    }
    Ok(value)
}
