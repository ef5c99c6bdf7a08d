//! Searching bytes whose letters may stand in both cases, from one place of their anchor to the next.
ghost use Rattle.std.specs.Prelude.{◌≡◌, ◌<◌, ◌≤◌, length, map, None, Some, IfErr, IfOk, IfSome};
ghost use Rattle.teco_search.specs.Anchor.{IsAnchored};
ghost use Rattle.teco_search.specs.Literal.{plain};
ghost use Rattle.teco_search.specs.Occurrence.{looked_for, match_end, BeginsForward};

use crate::anchor::Anchor;
use crate::element::SetItem;
use crate::joined::Joined;
use crate::patience::{Asker, GivenUp, Patience};
use teco_core::CaseMode;

/// The end of the bytes' match at a place; or, where there is none, how many of them matched.
#[inline]
fn match_at(mode: CaseMode, bytes: &[u8], text: &Joined, at: usize) -> Result<usize, usize>
    ensures some { IfOk result (λ end. match_end mode (map plain bytes.now) text.now at ≡ Some end) }
    ensures none { IfErr result (λ _. match_end mode (map plain bytes.now) text.now at ≡ None) }
{
    let mut place = at;
    'bytes: for byte in bytes {
        let Some(here) = text.get(place) else {
            return Err(place.saturating_sub(at));
        };
        if !SetItem::Byte(*byte).admits(mode, here) {
            return Err(place.saturating_sub(at));
        }
        place += 1;
    }
    Ok(place)
}

/// The match of least start at or after a place.
pub(crate) fn first_from<P: Patience>(
    mode: CaseMode,
    bytes: &[u8],
    anchor: &Anchor,
    text: &Joined,
    from: usize,
    asker: &mut Asker<P>,
) -> Result<Option<(usize, usize)>, GivenUp>
    requires anchored { IsAnchored mode (map plain bytes.now) anchor.now }
    requires within { from ≤ length text.now }
    ensures value { IfOk result (λ found. BeginsForward (looked_for mode (map plain bytes.now)) text.now
        from found) }
    ensures within { IfOk result (λ found. IfSome found
        (λ m. (from ≤ m.0) × (m.0 < m.1) × (m.1 ≤ length text.now))) }
{
    if anchor.offset >= text.len() - from {
        return Ok(None);
    }
    let mut at = from + anchor.offset;
    'places: while let Some(place) = text.first_of(&anchor.bytes, at) {
        let start = place - anchor.offset;
        match match_at(mode, bytes, text, start) {
            Ok(end) => return Ok(Some((start, end))),
            Err(matched) => {
                asker.goes_on(matched)?;
                at = place + 1;
            }
        }
    }
    Ok(None)
}
