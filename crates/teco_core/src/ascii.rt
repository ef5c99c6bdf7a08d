//! The bytes of ASCII that the language tells apart. Letters, digits and cases are those of `u8`'s own methods.
ghost use Rattle.std.specs.Prelude.{◌≡◌};
ghost use Rattle.teco_core.specs.Ascii.{is_filler, is_line_end};

/// The byte ESC, which ends texts and command strings.
pub const ESC: u8 = 27;

/// Whether a byte ends a line: LF, VT and FF do.
#[inline]
pub fn is_line_end(byte: u8) -> bool
    ensures { result ≡ is_line_end byte }
{
    matches!(byte, b'\n' | 0x0B | 0x0C)
}

/// Whether a byte is ignored between tokens: SP, CR, LF and NUL are.
#[inline]
pub fn is_filler(byte: u8) -> bool
    ensures { result ≡ is_filler byte }
{
    matches!(byte, b' ' | b'\r' | b'\n' | 0)
}
