//! Searching for elements, from one place of their anchor to the next.
ghost use Rattle.std.specs.Prelude.{◌≡◌, ◌+◌, ◌<◌, ◌≤◌, length, IfOk, IfSome};
ghost use Rattle.teco_search.specs.Anchor.{IsAnchored, FindsLastBelow};
ghost use Rattle.teco_search.specs.Occurrence.{looked_for, BeginsForward, BeginsBackward, backward_ending_by, backward};

use crate::anchor::Anchor;
use crate::element::Element;
use crate::joined::Joined;
use crate::patience::{Asker, GivenUp, Patience};
use crate::run::{match_back, match_from};
use teco_core::CaseMode;

/// The match of least start at or after a place.
pub(crate) fn first_from<P: Patience>(
    mode: CaseMode,
    elements: &[Element],
    anchor: &Anchor,
    text: &Joined,
    from: usize,
    asker: &mut Asker<P>,
) -> Result<Option<(usize, usize)>, GivenUp>
    requires anchored { IsAnchored mode elements.now anchor.now }
    requires within { from ≤ length text.now }
    ensures value { IfOk result (λ found. BeginsForward (looked_for mode elements.now) text.now from found) }
    ensures within { IfOk result (λ found. IfSome found
        (λ m. (from ≤ m.0) × (m.0 < m.1) × (m.1 ≤ length text.now))) }
{
    if anchor.offset >= text.len() - from {
        return Ok(None);
    }
    let mut at = from + anchor.offset;
    'places: while let Some(place) = text.first_of(&anchor.bytes, at) {
        let start = place - anchor.offset;
        match match_from(mode, elements, text, start) {
            Ok(end) => return Ok(Some((start, end))),
            Err(miss) => {
                asker.goes_on(miss.matched)?;
                at = (place + 1).saturating_add(miss.others).min(text.len());
            }
        }
    }
    Ok(None)
}

/// The match of highest start among those that have their anchor before a place and end at or before another.
fn last_below<P: Patience>(
    mode: CaseMode,
    elements: &[Element],
    anchor: &Anchor,
    text: &Joined,
    below: usize,
    to: usize,
    asker: &mut Asker<P>,
) -> Result<Option<(usize, usize)>, GivenUp>
    requires anchored { IsAnchored mode elements.now anchor.now }
    ensures { IfOk result (λ found. FindsLastBelow (looked_for mode elements.now) text.now
        anchor.now.offset below to found) }
{
    let mut at = below.min(text.len());
    'places: while let Some(place) = text.last_of(&anchor.bytes, at) {
        if place < anchor.offset {
            return Ok(None);
        }
        let start = place - anchor.offset;
        match match_back(mode, elements, text, start, to) {
            Ok(end) => return Ok(Some((start, end))),
            Err(miss) => {
                asker.goes_on(miss.matched)?;
                at = place.saturating_sub(miss.others);
            }
        }
    }
    Ok(None)
}

/// The match of highest start at or before a place.
pub(crate) fn last_by_start<P: Patience>(
    mode: CaseMode,
    elements: &[Element],
    anchor: &Anchor,
    text: &Joined,
    from: usize,
    asker: &mut Asker<P>,
) -> Result<Option<(usize, usize)>, GivenUp>
    requires anchored { IsAnchored mode elements.now anchor.now }
    requires within { from ≤ length text.now }
    ensures value { let sought = looked_for mode elements.now in IfOk result (λ found. BeginsBackward sought
        text.now (backward sought text.now from) found) }
    ensures within { IfOk result (λ found. IfSome found (λ m. (m.0 < m.1) × (m.1 ≤ length text.now))) }
{
    let len = text.len();
    let below = if anchor.offset < len - from {
        from + anchor.offset + 1
    } else {
        len
    };
    last_below(mode, elements, anchor, text, below, len, asker)
}

/// The match of highest start among those that end at or before a place.
pub(crate) fn last_by_end<P: Patience>(
    mode: CaseMode,
    elements: &[Element],
    anchor: &Anchor,
    text: &Joined,
    to: usize,
    asker: &mut Asker<P>,
) -> Result<Option<(usize, usize)>, GivenUp>
    requires anchored { IsAnchored mode elements.now anchor.now }
    requires within { to ≤ length text.now }
    ensures value { let sought = looked_for mode elements.now in IfOk result (λ found. BeginsBackward sought
        text.now (backward_ending_by sought text.now to) found) }
    ensures within { IfOk result (λ found. IfSome found (λ m. (m.0 < m.1) × (m.1 ≤ to))) }
{
    last_below(mode, elements, anchor, text, to, to, asker)
}
