//! Search texts that have been read.
ghost use Rattle.std.specs.Prelude.{◌≡◌, ◌⊎◌, ◌++◌, ◌<◌, ◌≤◌, ◌<ℤ◌, ◌-ℤ◌, length, IfOk, IfErr, IfSome, Ok, Err, ◌≢◌, pos, negsuc, Some};
ghost use Rattle.std.specs.Fmt.{WritesOnOk};
ghost use Rattle.std.specs.List.{flat_map};
ghost use Rattle.std.specs.Result.{result_ok};
ghost use Rattle.teco_search.specs.Law.{FindsNext, FindsLastBy};
ghost use Rattle.teco_search.specs.Occurrence.{match_end, forward, occurrence};
ghost use Rattle.teco_search.specs.Search.{sought_forward, sought_backward, IsReadyForward, IsReadyBackward};
ghost use Rattle.teco_search.specs.Reading.{read};
ghost use Rattle.teco_search.specs.Shown.{shown, shown_byte};

use crate::anchor::Anchor;
use crate::element::{Element, SetItem};
use crate::joined::Joined;
use crate::matching::match_end;
use crate::patience::{Asker, GivenUp, Patience};
use crate::reading::{literal, read};
use crate::search::{Backward, Forward, count_forward, nth_backward, nth_forward};
use memchr::memmem::{Finder, FinderRev};
use std::alloc::Global;
use std::fmt::{self, Display};
use std::marker::Model;
use teco_core::{CaseMode, Code};

/// A search text that has been read, in a case mode.
///
/// A clause sees its mode and its elements, of which there is at least one.
pub struct Pattern {
    mode: CaseMode,
    form: Form,
}

// Its parts go here, and a crate that lets a pattern go calls this.
impl Drop for Pattern {
    fn drop(self) {
        let Pattern { mode: _, form: _ } = self;
    }
}

#[derive(Drop)]
enum Form {
    /// These bytes, none of which admits another byte.
    Literal(Vec<u8>),
    Elements(Vec<Element>, Anchor),
}

impl Model for Pattern {
    ghost use Rattle.teco_search.specs.Occurrence.{Sought, looked_for};
    ghost use Rattle.teco_search.specs.Pattern.{elements_of, IsSound};

    ghost Value = { Sought };

    ghost view = { λ p. looked_for p.mode (elements_of p.form) };

    ghost invariant = { λ p. IsSound p.mode p.form };
}

impl Pattern {
    /// Reads a search text, or answers [`Code::Ice`] where it spells nothing and [`Code::Mem`] where memory was refused.
    ///
    /// The law of what a search text spells is [`search_texts`](crate::search_texts).
    pub fn read(alloc: Global, text: &[u8], mode: CaseMode) -> Result<Pattern, Code>
        requires { 0 < length text.now }
        ensures elements { IfOk result (λ p. read text.now ≡ Ok p.elements) }
        ensures some { IfOk result (λ p. 0 < length p.elements) }
        ensures mode { IfOk result (λ p. p.mode ≡ mode) }
        ensures err { IfErr result (λ e. (e ≡ Code.Mem) ⊎ ((e ≡ Code.Ice) × (read text.now ≡ Err Code.Ice))) }
    {
        if let Some(bytes) = literal(alloc, text, mode)? {
            return Ok(Pattern {
                mode,
                form: Form::Literal(bytes),
            });
        }
        let elements = read(alloc, text)?;
        let anchor = Anchor::of(mode, &elements);
        Ok(Pattern {
            mode,
            form: Form::Elements(elements, anchor),
        })
    }
}

/// Shows bytes that match themselves.
fn show_bytes<W: fmt::Write>(bytes: &[u8], f: &mut fmt::Formatter<W>) -> fmt::Result
    ensures { WritesOnOk W.write_str_gives f.old result (flat_map shown_byte bytes.now) f.new }
{
    'bytes: for byte in bytes {
        SetItem::Byte(*byte).fmt(f)?;
    }
    Ok(())
}

impl fmt::Display for Pattern {
    ghost output = { λ pattern. Some (shown pattern.elements) };

    /// The search text, its controls as `^E` and a letter, a byte that doesn't show by its code in angle brackets.
    fn fmt<W: fmt::Write>(&self, f: &mut fmt::Formatter<W>) -> fmt::Result {
        let elements = match &self.form {
            Form::Literal(bytes) => return show_bytes(bytes, f),
            Form::Elements(elements, _) => elements,
        };
        'elements: for element in elements {
            element.fmt(f)?;
        }
        Ok(())
    }
}

/// The end of the match at a place of the text that the two halves are together; none where the pattern doesn't match there. Takes no memory.
pub fn matches_at(pattern: &Pattern, halves: (&[u8], &[u8]), at: usize) -> Option<usize>
    ensures value { result ≡ match_end pattern.now.mode pattern.now.elements
        (halves.entry.0.now ++ halves.entry.1.now) at }
    ensures within { IfSome result (λ end. (at < end)
        × (end ≤ length (halves.entry.0.now ++ halves.entry.1.now))) }
{
    let text = Joined::new(halves.0, halves.1);
    match &pattern.form {
        Form::Literal(bytes) => {
            if text.has(at, bytes) {
                Some(at + bytes.len())
            } else {
                None
            }
        }
        Form::Elements(elements, _) => match_end(pattern.mode, elements, &text, at).0,
    }
}

impl Pattern {
    fn forward(&self) -> Forward<'_>
        ensures sought { sought_forward result ≡ self.now }
        ensures ready { IsReadyForward result }
    {
        match &self.form {
            Form::Literal(bytes) => Forward::Literal(self.mode, Finder::new(bytes)),
            Form::Elements(elements, anchor) => Forward::Elements(self.mode, elements, anchor),
        }
    }

    fn backward(&self) -> Backward<'_>
        ensures sought { sought_backward result ≡ self.now }
        ensures ready { IsReadyBackward result }
    {
        match &self.form {
            Form::Literal(bytes) => Backward::Literal(self.mode, FinderRev::new(bytes)),
            Form::Elements(elements, anchor) => Backward::Elements(self.mode, elements, anchor),
        }
    }
}

/// The nth occurrence from a place of the text that the two halves are together, as its start and its end; backward for a negative n. Takes no memory.
///
/// It may give up where patience has ended.
pub fn find<P: Patience>(
    pattern: &Pattern,
    halves: (&[u8], &[u8]),
    from: usize,
    n: i32,
    patience: &P,
) -> Result<Option<(usize, usize)>, GivenUp>
    requires within { from ≤ length (halves.0.now ++ halves.1.now) }
    requires some { n ≢ pos 0 }
    ensures value { IfOk result (λ found. found
        ≡ occurrence pattern.now (halves.entry.0.now ++ halves.entry.1.now) from n) }
    ensures within { IfOk result (λ found. IfSome found (λ m. (m.0 < m.1)
        × (m.1 ≤ length (halves.entry.0.now ++ halves.entry.1.now)))) }
    ensures next { IfOk result (λ found. n ≡ pos 1
        → FindsNext pattern.now (halves.entry.0.now ++ halves.entry.1.now) from found) }
    ensures last { IfOk result (λ found. n ≡ negsuc 0
        → FindsLastBy pattern.now (halves.entry.0.now ++ halves.entry.1.now) from found) }
{
    if n > 0 {
        let told = find_forward(pattern, halves, from, n, patience)?;
        return Ok(told.ok());
    }
    let text = Joined::new(halves.0, halves.1);
    let mut asker = Asker::new(patience);
    nth_backward(
        &pattern.backward(),
        &text,
        from,
        n.unsigned_abs(),
        &mut asker,
    )
}

/// The nth occurrence forward from a place of the text that the two halves are together, as its start and its end; or, where there are
/// fewer, how many of the n are wanted still. The text is passed once. Takes no memory.
///
/// It may give up where patience has ended.
pub fn find_forward<P: Patience>(
    pattern: &Pattern,
    halves: (&[u8], &[u8]),
    from: usize,
    n: i32,
    patience: &P,
) -> Result<Result<(usize, usize), i32>, GivenUp>
    requires within { from ≤ length (halves.0.now ++ halves.1.now) }
    requires some { pos 0 <ℤ n }
    ensures value { IfOk result (λ told. result_ok told
        ≡ occurrence pattern.now (halves.entry.0.now ++ halves.entry.1.now) from n) }
    ensures within { IfOk result (λ told. IfOk told (λ m. (m.0 < m.1)
        × (m.1 ≤ length (halves.entry.0.now ++ halves.entry.1.now)))) }
    ensures next { IfOk result (λ told. n ≡ pos 1
        → FindsNext pattern.now (halves.entry.0.now ++ halves.entry.1.now) from (result_ok told)) }
    ensures fewer { IfOk result (λ told. IfErr told (λ wanted. wanted
        ≡ n -ℤ pos (length (forward pattern.now (halves.entry.0.now ++ halves.entry.1.now) from)))) }
{
    let text = Joined::new(halves.0, halves.1);
    let mut asker = Asker::new(patience);
    let told = nth_forward(
        &pattern.forward(),
        &text,
        from,
        n.unsigned_abs(),
        &mut asker,
    )?;
    match told {
        Ok(found) => Ok(Ok(found)),
        Err(wanted) => Ok(Err(wanted as i32)),
    }
}

/// How many occurrences there are forward from a place, which may be after the end. Takes no memory.
///
/// It may give up where patience has ended.
pub fn count<P: Patience>(
    pattern: &Pattern,
    halves: (&[u8], &[u8]),
    from: usize,
    patience: &P,
) -> Result<usize, GivenUp>
    ensures value { IfOk result (λ n. n
        ≡ length (forward pattern.now (halves.entry.0.now ++ halves.entry.1.now) from)) }
    ensures past { IfOk result (λ n. length (halves.entry.0.now ++ halves.entry.1.now) ≤ from → n ≡ 0) }
{
    let text = Joined::new(halves.0, halves.1);
    let mut asker = Asker::new(patience);
    count_forward(&pattern.forward(), &text, from, &mut asker)
}
