//! Numbers in commands.
ghost use Rattle.std.specs.Prelude.{◌≡◌};
ghost use Rattle.teco_debugger.specs.Number.{number_in};

use crate::command::CommandFault;

/// The most digits of a number.
const MOST_DIGITS: usize = 18;

/// The number that the bytes say.
pub fn number_in(bytes: &[u8]) -> Result<u64, CommandFault>
    ensures { result ≡ number_in bytes.now }
{
    if bytes.is_empty() || bytes.len() > MOST_DIGITS {
        return Err(CommandFault::NoNumber);
    }
    let mut number: u64 = 0;
    for byte in bytes {
        if !byte.is_ascii_digit() {
            return Err(CommandFault::NoNumber);
        }
        number = number * 10 + u64::from(*byte - b'0');
    }
    Ok(number)
}
