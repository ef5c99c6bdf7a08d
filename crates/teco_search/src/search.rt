//! The occurrences of a pattern, one after the other.
ghost use Rattle.std.specs.Prelude.{◌≡◌, ◌+◌, ◌-◌, ◌<◌, ◌≤◌, length, true, IfErr, IfOk, IfSome, IsOk, slice_get};
ghost use Rattle.std.specs.Result.{result_ok};
ghost use Rattle.teco_search.specs.Occurrence.{BeginsForward, BeginsBackward, forward, backward_ending_by, backward};
ghost use Rattle.teco_search.specs.Search.{sought_forward, sought_backward, IsReadyForward, IsReadyBackward, is_steady};

use crate::anchor::Anchor;
use crate::element::Element;
use crate::joined::Joined;
use crate::patience::{Asker, GivenUp, Patience};
use crate::{literal, places, plain_bytes};
use memchr::memmem::{Finder, FinderRev};
use teco_core::CaseMode;

/// A pattern made ready for a search from the front.
#[derive(Drop)]
pub(crate) enum Forward<'p> {
    Literal(CaseMode, Finder<'p>),
    /// Bytes whose letters may stand in both cases.
    Bytes(CaseMode, &'p [u8], &'p Anchor),
    Elements(CaseMode, &'p [Element], &'p Anchor),
}

/// A pattern made ready for a search from the back.
#[derive(Drop)]
pub(crate) enum Backward<'p> {
    Literal(CaseMode, FinderRev<'p>),
    Elements(CaseMode, &'p [Element], &'p Anchor),
}

/// The occurrence of least start at or after a place.
fn first_from<P: Patience>(
    search: &Forward,
    text: &Joined,
    from: usize,
    asker: &mut Asker<P>,
) -> Result<Option<(usize, usize)>, GivenUp>
    requires ready { IsReadyForward search.now }
    requires within { from ≤ length text.now }
    ensures value { IfOk result (λ found. BeginsForward (sought_forward search.now) text.now from found) }
    ensures within { IfOk result (λ found. IfSome found
        (λ m. (from ≤ m.0) × (m.0 < m.1) × (m.1 ≤ length text.now))) }
    ensures steady { is_steady search.now ≡ true → IsOk result }
{
    match search {
        Forward::Literal(_, finder) => {
            let Some(start) = literal::first_from(finder, text, from) else {
                return Ok(None);
            };
            Ok(Some((start, start + finder.needle().len())))
        }
        Forward::Bytes(mode, bytes, anchor) => plain_bytes::first_from(
            *mode, bytes, anchor, text, from, asker,
        ),
        Forward::Elements(mode, elements, anchor) => places::first_from(
            *mode, elements, anchor, text, from, asker,
        ),
    }
}

/// The nth occurrence forward; or, where there are fewer, how many of the n are wanted still. The text is passed once.
pub(crate) fn nth_forward<P: Patience>(
    search: &Forward,
    text: &Joined,
    from: usize,
    n: u32,
    asker: &mut Asker<P>,
) -> Result<Result<(usize, usize), u32>, GivenUp>
    requires ready { IsReadyForward search.now }
    requires within { from ≤ length text.now }
    requires some { 0 < n }
    ensures found { IfOk result (λ told. result_ok told
        ≡ slice_get (forward (sought_forward search.now) text.now from) (n - 1)) }
    ensures fewer { IfOk result (λ told. IfErr told (λ wanted. wanted + length
        (forward (sought_forward search.now) text.now from) ≡ n)) }
    ensures steady { is_steady search.now ≡ true → IsOk result }
{
    let mut at = from;
    let mut wanted = n;
    'wanted: while let Some((start, end)) = first_from(search, text, at, asker)? {
        if wanted == 1 {
            return Ok(Ok((start, end)));
        }
        wanted -= 1;
        at = end;
    }
    Ok(Err(wanted))
}

/// How many occurrences there are forward.
pub(crate) fn count_forward<P: Patience>(
    search: &Forward,
    text: &Joined,
    from: usize,
    asker: &mut Asker<P>,
) -> Result<usize, GivenUp>
    requires { IsReadyForward search.now }
    ensures value { IfOk result (λ n. n ≡ length (forward (sought_forward search.now) text.now from)) }
    ensures past { IfOk result (λ n. length text.now ≤ from → n ≡ 0) }
{
    if from >= text.len() {
        return Ok(0);
    }
    let mut at = from;
    let mut count = 0usize;
    'counted: while let Some((_, end)) = first_from(search, text, at, asker)? {
        count += 1;
        at = end;
    }
    Ok(count)
}

/// The occurrence of highest start at or before a place.
fn last_by_start<P: Patience>(
    search: &Backward,
    text: &Joined,
    from: usize,
    asker: &mut Asker<P>,
) -> Result<Option<(usize, usize)>, GivenUp>
    requires ready { IsReadyBackward search.now }
    requires within { from ≤ length text.now }
    ensures value { let sought = sought_backward search.now in IfOk result (λ found. BeginsBackward sought
        text.now (backward sought text.now from) found) }
    ensures within { IfOk result (λ found. IfSome found (λ m. (m.0 < m.1) × (m.1 ≤ length text.now))) }
{
    match search {
        Backward::Literal(_, finder) => {
            let len = finder.needle().len();
            let rest = text.len() - from;
            let to = from + len.min(rest);
            let Some(start) = literal::last_by(finder, text, to) else {
                return Ok(None);
            };
            Ok(Some((start, start + len)))
        }
        Backward::Elements(mode, elements, anchor) => places::last_by_start(
            *mode, elements, anchor, text, from, asker,
        ),
    }
}

/// The occurrence of highest start among those that end at or before a place.
fn last_by_end<P: Patience>(
    search: &Backward,
    text: &Joined,
    to: usize,
    asker: &mut Asker<P>,
) -> Result<Option<(usize, usize)>, GivenUp>
    requires ready { IsReadyBackward search.now }
    requires within { to ≤ length text.now }
    ensures value { let sought = sought_backward search.now in IfOk result (λ found. BeginsBackward sought
        text.now (backward_ending_by sought text.now to) found) }
    ensures within { IfOk result (λ found. IfSome found (λ m. (m.0 < m.1) × (m.1 ≤ to))) }
{
    match search {
        Backward::Literal(_, finder) => {
            let Some(start) = literal::last_by(finder, text, to) else {
                return Ok(None);
            };
            Ok(Some((start, start + finder.needle().len())))
        }
        Backward::Elements(mode, elements, anchor) => places::last_by_end(
            *mode, elements, anchor, text, to, asker,
        ),
    }
}

/// The nth occurrence backward.
pub(crate) fn nth_backward<P: Patience>(
    search: &Backward,
    text: &Joined,
    from: usize,
    n: u32,
    asker: &mut Asker<P>,
) -> Result<Option<(usize, usize)>, GivenUp>
    requires ready { IsReadyBackward search.now }
    requires within { from ≤ length text.now }
    requires some { 0 < n }
    ensures { IfOk result (λ found. found
        ≡ slice_get (backward (sought_backward search.now) text.now from) (n - 1)) }
{
    let Some(mut last) = last_by_start(search, text, from, asker)? else {
        return Ok(None);
    };
    'skipped: for _passed in 1..n {
        let Some(next) = last_by_end(search, text, last.0, asker)? else {
            return Ok(None);
        };
        last = next;
    }
    Ok(Some(last))
}
