//! Matching at a place.
ghost use Rattle.std.specs.Prelude.{◌≡◌, ◌+◌};
ghost use Rattle.teco_search.specs.Occurrence.{blanks_at, element_end, match_end};

use crate::element::{Element, is_blank};
use crate::joined::Joined;
use teco_core::CaseMode;

/// The end of the spaces and tabs from a place on.
fn blanks_end(text: &Joined, at: usize) -> usize
    ensures { result ≡ at + blanks_at text.now at }
{
    let mut end = at;
    'blanks: while let Some(byte) = text.get(end) {
        if !is_blank(byte) {
            break;
        }
        end += 1;
    }
    end
}

/// The end of an element's match at a place.
#[tactic(auto, unfolding(crate::specs::Occurrence::element_end))]
#[inline]
pub(crate) fn element_end(
    mode: CaseMode,
    element: &Element,
    text: &Joined,
    at: usize,
) -> Option<usize>
    ensures { result ≡ element_end mode element.now text.now at }
{
    match element {
        Element::Among(one) => {
            let byte = text.get(at)?;
            if one.admits(mode, byte) {
                Some(at + 1)
            } else {
                None
            }
        }
        Element::Except(one) => {
            let byte = text.get(at)?;
            if one.admits(mode, byte) {
                None
            } else {
                Some(at + 1)
            }
        }
        Element::Blanks => {
            let end = blanks_end(text, at);
            if end == at { None } else { Some(end) }
        }
    }
}

/// The end of the elements' match at a place, one after the other, if they have one; and how far they matched.
pub(crate) fn match_end(
    mode: CaseMode,
    elements: &[Element],
    text: &Joined,
    at: usize,
) -> (Option<usize>, usize)
    ensures { result.0 ≡ match_end mode elements.now text.now at }
{
    let mut place = at;
    'elements: for element in elements {
        let Some(end) = element_end(mode, element, text, place) else {
            return (None, place);
        };
        place = end;
    }
    (Some(place), place)
}
