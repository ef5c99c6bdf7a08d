//! Search texts that are looked for as they stand.
ghost use Rattle.std.specs.Prelude.{◌≡◌, ◌↔◌, ◌++◌, ◌<◌, ◌≤◌, ◌<ℤ◌, length, map, not, pos, IfOk, IfSome, IsOk, IsTrue, Ok};
ghost use Rattle.std.specs.List.{list_all};
ghost use Rattle.teco_core.specs.declared.case_mode.CaseMode.{CaseMode};
ghost use Rattle.teco_search.specs.Literal.{plain, is_exact, IsLiteral, IsPlain};
ghost use Rattle.teco_search.specs.Occurrence.{looked_for, occurrence};
ghost use Rattle.teco_search.specs.Reading.{read};
ghost use Rattle.teco_search.specs.Spelling.{is_control};

use crate::anchor::Anchor;
use crate::element::is_exact;
use crate::joined::Joined;
use crate::literal;
use crate::patience::{Asker, GivenUp, Patience};
use crate::reading::is_control;
use crate::search::{Forward, nth_forward};
use memchr::memmem::Finder;
use teco_core::CaseMode;

/// Whether no byte of a search text is a control.
#[inline(always)]
fn has_no_control(text: &[u8]) -> bool
    ensures { result ≡ list_all (λ b. not (is_control b)) text.now }
{
    text.iter().all(|byte| !is_control(*byte))
}

/// Whether each byte admits itself alone.
#[inline(always)]
fn all_exact(bytes: &[u8], mode: CaseMode) -> bool
    ensures { result ≡ list_all (is_exact mode) bytes.now }
{
    bytes.iter().all(|byte| is_exact(mode, *byte))
}

/// Whether a search text is looked for as it stands: it has a byte, and none of its bytes is a control.
#[inline(always)]
pub fn is_plain(text: &[u8]) -> bool
    ensures plain { IsTrue result ↔ IsPlain text.now }
    ensures read { IsTrue result → read text.now ≡ Ok (map plain text.now) }
{
    !text.is_empty() && has_no_control(text)
}

/// Whether a search text is looked for as it stands, and each of its bytes admits itself alone.
#[inline(always)]
fn is_exactly_plain(text: &[u8], mode: CaseMode) -> bool
    ensures plain { IsTrue result ↔ (IsPlain text.now × IsLiteral mode text.now) }
    ensures read { IsTrue result → read text.now ≡ Ok (map plain text.now) }
{
    is_plain(text) && all_exact(text, mode)
}

/// The first place at or after one where a text has these bytes, as its start and its end.
fn first_exact(bytes: &[u8], text: &Joined, from: usize) -> Option<(usize, usize)>
    requires some { 0 < length bytes.now }
    requires within { from ≤ length text.now }
    ensures value { (mode : CaseMode) → IsLiteral mode bytes.now
        → result ≡ occurrence (looked_for mode (map plain bytes.now)) text.now from (pos 1) }
    ensures within { IfSome result (λ m. (m.0 < m.1) × (m.1 ≤ length text.now)) }
{
    let start = literal::first_from(&Finder::new(bytes), text, from)?;
    Some((start, start + bytes.len()))
}

/// The first place at or after one where a text has this byte, as its start and its end.
#[inline(always)]
fn first_byte(bytes: &[u8], text: &Joined, from: usize) -> Option<(usize, usize)>
    requires one { length bytes.now ≡ 1 }
    requires within { from ≤ length text.now }
    ensures value { (mode : CaseMode) → IsLiteral mode bytes.now
        → result ≡ occurrence (looked_for mode (map plain bytes.now)) text.now from (pos 1) }
    ensures within { IfSome result (λ m. (m.0 < m.1) × (m.1 ≤ length text.now)) }
{
    let start = text.first_byte(bytes[0], from)?;
    Some((start, start + 1))
}

/// What [`find_exact`] finds for a search text of one byte. A longer one has no answer.
#[inline(always)]
pub fn find_byte(
    bytes: &[u8],
    mode: CaseMode,
    halves: (&[u8], &[u8]),
    from: usize,
) -> Option<Option<(usize, usize)>>
    requires within { from ≤ length (halves.0.now ++ halves.1.now) }
    ensures plain { IfSome result (λ _. IsPlain bytes.now × IsLiteral mode bytes.now) }
    ensures read { IfSome result (λ _. read bytes.now ≡ Ok (map plain bytes.now)) }
    ensures value { IfSome result (λ found. found ≡ occurrence (looked_for mode (map plain bytes.now))
        (halves.entry.0.now ++ halves.entry.1.now) from (pos 1)) }
    ensures within { IfSome result (λ found. IfSome found (λ m. (m.0 < m.1)
        × (m.1 ≤ length (halves.entry.0.now ++ halves.entry.1.now)))) }
    ensures none { result ≡ None → length bytes.now ≡ 1 → IsPlain bytes.now → IsLiteral mode bytes.now → ⊥ }
{
    if bytes.len() != 1 || !is_exactly_plain(bytes, mode) {
        return None;
    }
    let text = Joined::new(halves.0, halves.1);
    Some(first_byte(bytes, &text, from))
}

/// The first place at or after one where the text that the two halves are together has the bytes of a search text, as its start and its
/// end. There is no answer where the search text is not plain, as [`is_plain`] says, or one of its bytes admits another too. It takes no
/// memory, and never gives up.
#[inline(always)]
pub fn find_exact(
    bytes: &[u8],
    mode: CaseMode,
    halves: (&[u8], &[u8]),
    from: usize,
) -> Option<Option<(usize, usize)>>
    requires within { from ≤ length (halves.0.now ++ halves.1.now) }
    ensures plain { IfSome result (λ _. IsPlain bytes.now × IsLiteral mode bytes.now) }
    ensures read { IfSome result (λ _. read bytes.now ≡ Ok (map plain bytes.now)) }
    ensures value { IfSome result (λ found. found ≡ occurrence (looked_for mode (map plain bytes.now))
        (halves.entry.0.now ++ halves.entry.1.now) from (pos 1)) }
    ensures within { IfSome result (λ found. IfSome found (λ m. (m.0 < m.1)
        × (m.1 ≤ length (halves.entry.0.now ++ halves.entry.1.now)))) }
    ensures none { result ≡ None → IsPlain bytes.now → IsLiteral mode bytes.now → ⊥ }
{
    if !is_exactly_plain(bytes, mode) {
        return None;
    }
    let text = Joined::new(halves.0, halves.1);
    Some(first_exact(bytes, &text, from))
}

/// The nth place at or after one where the text that the two halves are together has these bytes, as its start and its end. Takes no memory.
///
/// So it is the nth occurrence of a search text that [`is_plain`], where no pattern was read. It may give up where patience has ended, but
/// not if each byte admits itself alone.
pub fn find_plain<P: Patience>(
    bytes: &[u8],
    mode: CaseMode,
    halves: (&[u8], &[u8]),
    from: usize,
    n: i32,
    patience: &P,
) -> Result<Option<(usize, usize)>, GivenUp>
    requires some { 0 < length bytes.now }
    requires within { from ≤ length (halves.0.now ++ halves.1.now) }
    requires forward { pos 0 <ℤ n }
    ensures value { IfOk result (λ found. found ≡ occurrence (looked_for mode (map plain bytes.now))
        (halves.entry.0.now ++ halves.entry.1.now) from n) }
    ensures within { IfOk result (λ found. IfSome found (λ m. (m.0 < m.1)
        × (m.1 ≤ length (halves.entry.0.now ++ halves.entry.1.now)))) }
    ensures steady { IsLiteral mode bytes.now → IsOk result }
{
    let text = Joined::new(halves.0, halves.1);
    let mut asker = Asker::new(patience);
    let wanted = n.unsigned_abs();
    if all_exact(bytes, mode) {
        let search = Forward::Literal(mode, Finder::new(bytes));
        let told = nth_forward(&search, &text, from, wanted, &mut asker)?;
        return Ok(told.ok());
    }
    let anchor = Anchor::of_bytes(mode, bytes);
    let search = Forward::Bytes(mode, bytes, &anchor);
    let told = nth_forward(&search, &text, from, wanted, &mut asker)?;
    Ok(told.ok())
}
