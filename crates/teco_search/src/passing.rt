//! The first or the last byte of a slice that passes a test. The bytes are looked at by rows, many at once.
ghost use Rattle.std.specs.Prelude.{◌≡◌, ◌≤◌, ℕ, Bool, false, length};
ghost use Rattle.memchr.specs.Find.{IsFirstByte, IsLastByte, Nowhere, Passes};

use crate::element::Class;

/// How many bytes a row has.
const ROW: usize = 16;

/// A test of one byte.
pub(crate) trait Test {
    // the bytes that pass
    ghost admits: { Self → ℕ → Bool };

    /// Whether a byte passes.
    fn admits(&self, byte: u8) -> bool
        ensures { result ≡ admits self.now byte };
}

impl Test for Class {
    ghost use Rattle.teco_search.specs.Element.{is_in};

    ghost admits = { is_in };

    #[inline]
    fn admits(&self, byte: u8) -> bool {
        self.contains(byte)
    }
}

impl Test for [bool; 256] {
    ghost use Rattle.teco_search.specs.ByteSet.{in_table};

    ghost admits = { in_table };

    #[inline]
    fn admits(&self, byte: u8) -> bool {
        self[usize::from(byte)]
    }
}

/// Whether a byte of a row passes. Each is looked at, so that the compiler can look at many at once.
#[inline]
fn is_in_row<T: Test>(test: &T, row: &[u8]) -> bool
    ensures { result ≡ false → Nowhere (Passes (T.admits test.now) row.now) 0 (length row.now) }
{
    let mut is_in = false;
    'bytes: for byte in row {
        is_in |= test.admits(*byte);
    }
    is_in
}

/// So many bytes at the front of a slice, of which none passes.
fn rows_before<T: Test>(test: &T, bytes: &[u8]) -> usize
    ensures within { result ≤ length bytes.now }
    ensures none { Nowhere (Passes (T.admits test.now) bytes.now) 0 result }
{
    let mut from = 0;
    'rows: while bytes.len() - from >= ROW {
        if is_in_row(test, &bytes[from..from + ROW]) {
            break;
        }
        from += ROW;
    }
    from
}

/// So many bytes at the front of a slice that none after them passes.
fn rows_after<T: Test>(test: &T, bytes: &[u8]) -> usize
    ensures within { result ≤ length bytes.now }
    ensures none { Nowhere (Passes (T.admits test.now) bytes.now) result (length bytes.now) }
{
    let mut to = bytes.len();
    'rows: while to >= ROW {
        if is_in_row(test, &bytes[to - ROW..to]) {
            break;
        }
        to -= ROW;
    }
    to
}

/// The first place of a slice whose byte passes.
pub(crate) fn first_passing<T: Test>(test: &T, bytes: &[u8]) -> Option<usize>
    ensures { IsFirstByte (T.admits test.now) bytes.now result }
{
    'places: for place in rows_before(test, bytes)..bytes.len() {
        if test.admits(bytes[place]) {
            return Some(place);
        }
    }
    None
}

/// The last place of a slice whose byte passes.
pub(crate) fn last_passing<T: Test>(test: &T, bytes: &[u8]) -> Option<usize>
    ensures { IsLastByte (T.admits test.now) bytes.now result }
{
    let mut place = rows_after(test, bytes);
    'places: while place > 0 {
        place -= 1;
        if test.admits(bytes[place]) {
            return Some(place);
        }
    }
    None
}
