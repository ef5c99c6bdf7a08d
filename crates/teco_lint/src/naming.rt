//! The names of commands, as they are spelled where no token can be read.
ghost use Rattle.std.specs.Prelude.{◌≡◌, ◌≤◌, length};

/// How many modifiers the bytes begin with.
pub fn modifiers_len(bytes: &[u8]) -> usize
    ensures { result ≤ length bytes.now }
{
    let mut len = 0;
    while len < bytes.len() && matches!(bytes[len], b'@' | b':') {
        len += 1;
    }
    len
}

/// How many bytes the name of a command has that the bytes begin with.
fn command_len(bytes: &[u8]) -> usize {
    match bytes {
        [b'=', b'=', b'=', ..] => 3,
        [b'=', b'=', ..] => 2,
        [b'^', _, ..] => 2,
        [b'E' | b'e' | b'F' | b'f', second, ..] if second.is_ascii_graphic() => 2,
        _ => 1,
    }
}

/// How many bytes the modifiers and the name of a command have that the bytes begin with.
pub fn name_len(bytes: &[u8]) -> usize
    ensures { result ≤ length bytes.now }
{
    let modifiers = modifiers_len(bytes);
    let len = modifiers.saturating_add(command_len(&bytes[modifiers..]));
    len.min(bytes.len())
}

/// The modifiers and the name.
pub fn name_of(bytes: &[u8]) -> &[u8] {
    &bytes[..name_len(bytes)]
}

/// The name without its modifiers.
pub fn bare_name_of(bytes: &[u8]) -> &[u8] {
    name_of(&bytes[modifiers_len(bytes)..])
}
