//! Parts of a text that comes in two halves.
ghost use Rattle.std.specs.Prelude.{◌≡◌, ◌++◌, take, drop, slice_range, count_by};
ghost use Rattle.teco_core.specs.Ascii.{is_line_end};

use teco_core::is_line_end;

/// What is left of a text in two parts from a place on.
#[tactic(auto, using(crate::proofs::Dropping::drop_in_parts))]
pub fn halves_from<'a>(before: &'a [u8], after: &'a [u8], from: usize) -> (&'a [u8], &'a [u8])
    ensures { result.0.now ++ result.1.now ≡ drop from (before.now ++ after.now) }
{
    let past = from.saturating_sub(before.len());
    (bytes_from(before, from), bytes_from(after, past))
}

/// What is left of a text from a place on.
pub fn bytes_from(bytes: &[u8], from: usize) -> &[u8]
    ensures { result.now ≡ drop from bytes.now }
{
    &bytes[from.min(bytes.len())..]
}

/// The first so many bytes of a text, or all of it where it has fewer.
fn first_bytes(bytes: &[u8], size: usize) -> &[u8]
    ensures { result.now ≡ take size bytes.now }
{
    &bytes[..size.min(bytes.len())]
}

/// What a text in two parts has between two places: nothing where the second one comes first.
#[tactic(auto, using(crate::proofs::Dropping::take_in_parts))]
pub fn halves_between<'a>(
    before: &'a [u8],
    after: &'a [u8],
    from: usize,
    to: usize,
) -> (&'a [u8], &'a [u8])
    ensures { result.0.now ++ result.1.now ≡ slice_range (before.now ++ after.now) from to }
{
    let (before, after) = halves_from(before, after, from);
    let size = to.saturating_sub(from);
    let past = size.saturating_sub(before.len());
    (first_bytes(before, size), first_bytes(after, past))
}

/// How many line ends a text has.
pub fn line_ends(bytes: &[u8]) -> usize
    ensures { result ≡ count_by is_line_end bytes.now }
{
    let mut count = 0;
    for byte in bytes {
        if is_line_end(*byte) {
            count += 1;
        }
    }
    count
}
