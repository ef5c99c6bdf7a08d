//! How bytes are spelled.
ghost use Rattle.std.specs.Prelude.{◌≡◌, ◌<◌, ◌++◌, OnOk};
ghost use Rattle.std.specs.String.{string_bytes};
ghost use Rattle.teco_messages.specs.Spelling.{hex_digit, spelled, spelling, token_shown};

use std::fmt::Write;
use teco_core::{ESC, NoMemory};

/// The most bytes of a token that are shown.
pub(crate) const MOST_SHOWN: usize = 40;

fn hex_digit(n: u8) -> u8
    requires { n < 16 }
    ensures { result ≡ hex_digit n }
{
    if n < 10 { b'0' + n } else { b'A' - 10 + n }
}

/// Spells a byte at the end of a text.
pub fn spell_byte(out: &mut String, byte: u8) -> Result<(), NoMemory>
    ensures { OnOk result (string_bytes out.new ≡ string_bytes out.old ++ spelling byte) }
{
    if byte == ESC {
        return out.push('$');
    }
    if byte < 32 {
        let letter = char::from(byte + 64);
        return write!(out, "^{letter}");
    }
    if byte < 127 {
        return out.push(char::from(byte));
    }
    if byte == 127 {
        return out.push_str("^?");
    }
    let high = char::from(hex_digit(byte / 16));
    let low = char::from(hex_digit(byte % 16));
    write!(out, "[{high}{low}]")
}

/// Spells bytes at the end of a text.
pub fn spell(out: &mut String, bytes: &[u8]) -> Result<(), NoMemory>
    ensures { OnOk result (string_bytes out.new ≡ string_bytes out.old ++ spelled bytes.now) }
{
    for byte in bytes {
        spell_byte(out, *byte)?;
    }
    Ok(())
}

/// Spells a token at the end of a text. One of more than 40 bytes is cut there, and its length is told.
pub fn spell_token(out: &mut String, bytes: &[u8]) -> Result<(), NoMemory>
    ensures { OnOk result (string_bytes out.new ≡ string_bytes out.old ++ token_shown bytes.now) }
{
    if bytes.len() <= MOST_SHOWN {
        return spell(out, bytes);
    }
    let shown = &bytes[..MOST_SHOWN];
    spell(out, shown)?;
    let len = bytes.len();
    write!(out, "... ({len} bytes)")
}
