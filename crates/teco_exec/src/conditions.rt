//! The tests of conditionals.
ghost use Rattle.std.specs.Prelude.{◌≡◌};
ghost use Rattle.teco_exec.specs.Test as meant;

use teco_scan::Test;

/// Whether a byte may stand in a name: a letter, a digit, a dot, a dollar sign or an underscore.
fn is_name_byte(byte: u8) -> bool
    ensures { result ≡ meant.is_name_byte byte }
{
    byte.is_ascii_alphabetic() || byte.is_ascii_digit() || matches!(byte, b'.' | b'$' | b'_')
}

/// Whether a test of letters and digits holds of a byte.
fn holds_of(test: Test, byte: u8) -> bool
    ensures { result ≡ meant.holds_of test byte }
{
    match test {
        Test::Letter => byte.is_ascii_alphabetic(),
        Test::Digit => byte.is_ascii_digit(),
        Test::LetterOrDigit => byte.is_ascii_alphabetic() || byte.is_ascii_digit(),
        Test::Lower => byte.is_ascii_lowercase(),
        Test::Upper => byte.is_ascii_uppercase(),
        Test::NameByte => is_name_byte(byte),
        Test::Zero | Test::NotZero | Test::Above | Test::Below => false,
    }
}

/// Whether a test holds of a number. A number outside 0 to 255 is no letter and no digit.
pub fn holds(test: Test, n: i32) -> bool
    ensures { result ≡ meant.holds test n }
{
    match test {
        Test::Zero => n == 0,
        Test::NotZero => n != 0,
        Test::Above => n > 0,
        Test::Below => n < 0,
        Test::Letter
        | Test::Digit
        | Test::LetterOrDigit
        | Test::Lower
        | Test::Upper
        | Test::NameByte => {
            match u8::try_from(n) {
                Ok(byte) => holds_of(test, byte),
                Err(_) => false,
            }
        }
    }
}
