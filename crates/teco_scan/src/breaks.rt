//! Where a list of a text breaks.
ghost use Rattle.std.specs.Prelude.{◌≡◌, ◌≢◌, ◌+◌, ◌<◌, ◌≤◌, ℕ, true, false, List, length, drop, IfSome, Option, Some, None, Err, is_none};
ghost use Rattle.teco_core.specs.declared.limits.TheConstants.{BLOCK_LIMIT};
ghost use Rattle.teco_scan.specs.Breaks.{Breaks, IsTokenPlace, by_spelling, fault_at, first_break, inside_list, opening};
ghost use Rattle.teco_scan.specs.Scan.{Instruction, TokenMeaning, ended, found, scan};
ghost use Rattle.teco_scan.specs.Skip.{closing_mark, opened_kind};
ghost use Rattle.teco_scan.specs.Lists.{at_instruction, at_mark, broken, list_at, nodes};
ghost use Rattle.teco_scan.specs.Nesting.{is_whole};
ghost use Rattle.teco_scan.specs.Walk.{OpenList, walk};
ghost use Rattle.teco_scan.specs.declared.command.Modifiers.{Modifiers};
ghost use Rattle.teco_core.specs.declared.profile.Profile.{Profile};

use crate::blocks::{Kind, closing_mark, opened_kind, skip_block, skip_whole_block};
use crate::{BlockMark, Found, filler_end, token_at};
use teco_core::{BLOCK_LIMIT, Code, Profile};

/// A list of a text: the commands in a block, or the text's own.
#[derive(Clone, Copy)]
struct ListAt {
    /// The kind of the block; none: the list is the text's own.
    kind: Option<Kind>,
    /// Where the list begins.
    start: usize,
    /// How many blocks are open in it, its own too.
    depth: usize,
}

/// A fault of a text: what breaks one of its lists.
#[derive(Clone, Copy, Debug)]
pub struct ListFault {
    /// Its place: that of the bytes that are no token, of the mark that ends no such block, of the block that is one too many, or
    /// the end of the text.
    pub at: usize,
    /// Where the text ends inside a block: the place of the mark after which that block's list begins, `<`, `"` or `|`.
    pub opened: Option<usize>,
    /// ILL, IQN, IQC, UTC, BNI or PDO.
    pub code: Code,
}

/// The place of the mark after which a list begins.
fn opening(kind: Kind, start: usize) -> usize
    ensures { result ≡ opening kind start }
{
    match kind {
        Kind::Then => start.saturating_sub(2),
        Kind::Iter | Kind::Else => start.saturating_sub(1),
    }
}

/// A fault at this place.
fn fault_at(at: usize, code: Code) -> ListFault
    ensures { result ≡ fault_at at code }
{
    ListFault {
        at,
        opened: None,
        code,
    }
}

/// The end of the text breaks the list of a block, and not the text's own.
fn end_of_text(list: ListAt, end: usize) -> Option<ListFault>
    ensures breaks { (p : Profile) (text : List ℕ) (at : ℕ) → scan p (drop at text) ≡ ended → length text ≡ end
        → IfSome result (λ fault. Breaks p text list at fault) }
    ensures none { is_none result ≡ is_none list.kind }
{
    match list.kind {
        None => None,
        Some(kind) => Some(ListFault {
            at: end,
            opened: Some(opening(kind, list.start)),
            code: Code::Utc,
        }),
    }
}

/// The code by which a mark that ends or divides a block breaks this list, or the text's own; none where it closes it.
#[tactic(auto, unfolding(crate::specs::Nesting::is_whole))]
fn stray_code(kind: Option<Kind>, mark: BlockMark) -> Option<Code>
    requires { mark ≢ BlockMark.Iterate }
    ensures breaks { (p : Profile) (more : List ℕ) (d : ℕ)
        → IfSome result (λ code. (at_mark (list_at p) mark more kind d).1 ≡ broken code) }
    ensures whole { (p : Profile) (more : List ℕ) (d : ℕ)
        → is_whole (at_mark (list_at p) mark more kind d).0 ≡ is_none result }
{
    match (mark, kind) {
        (BlockMark::EndIteration, Some(Kind::Iter)) => None,
        (BlockMark::EndIteration, _) => Some(Code::Bni),
        (BlockMark::Otherwise, Some(Kind::Then)) => None,
        (BlockMark::EndTest, Some(Kind::Then | Kind::Else)) => None,
        _ => Some(Code::Ill),
    }
}

/// What a mark that ends or divides a block is to this list, where it stands at this place: a fault, or it closes the list.
fn end_of_list(list: ListAt, mark: BlockMark, from: usize) -> Option<ListFault>
    requires { mark ≢ BlockMark.Iterate }
    ensures breaks { (p : Profile) (text more : List ℕ) (at : ℕ) (token : TokenMeaning) → IsTokenPlace text at from
        → scan p (drop at text) ≡ found token more → closing_mark token.instruction ≡ Some mark
        → IfSome result (λ fault. Breaks p text list at fault) }
    ensures whole { (p : Profile) (more : List ℕ)
        → is_whole (at_mark (list_at p) mark more list.kind list.depth).0 ≡ is_none result }
{
    match stray_code(list.kind, mark) {
        Some(code) => Some(fault_at(from, code)),
        None => None,
    }
}

/// The list of a part of a block that opens in another list, and begins at this place.
fn inside_list(list: ListAt, kind: Kind, start: usize) -> ListAt
    requires { list.depth < BLOCK_LIMIT }
    ensures { result ≡ inside_list list kind start }
{
    ListAt {
        kind: Some(kind),
        start,
        depth: list.depth + 1,
    }
}

/// Where to go on at a block that opens in a list and begins at a place: in the same list after the whole block or, where that can't be
/// passed, in the part of it that breaks.
fn past_block(
    profile: Profile,
    text: &[u8],
    list: ListAt,
    kind: Kind,
    start: usize,
) -> (ListAt, usize)
    requires inside { start ≤ length text.now }
    requires few { list.depth < BLOCK_LIMIT }
    ensures few { result.0.depth ≤ BLOCK_LIMIT }
    ensures within { (start ≤ result.1) × (result.1 ≤ length text.now) }
    ensures comes { (at : ℕ) (token : TokenMeaning) (fault : ListFault)
        → scan profile (drop at text.now) ≡ found token (drop start text.now)
        → opened_kind token.instruction ≡ Some kind
        → Breaks profile text.now result.0 result.1 fault → Breaks profile text.now list at fault }
    ensures whole { (i : Instruction) (m : Modifiers) → opened_kind i ≡ Some kind
        → is_whole (at_instruction (list_at profile) i m (drop start text.now) list.kind list.depth).0
        ≡ is_whole (list_at profile result.0.kind result.0.depth (drop result.1 text.now)).0 }
{
    match skip_whole_block(profile, text, start, kind, list.depth + 1) {
        Ok(next) => (list, next),
        Err(_) => match skip_block(profile, text, start, kind, list.depth + 1) {
            Ok(stop) => (inside_list(list, Kind::Else, stop.to), stop.to),
            Err(_) => (inside_list(list, kind, start), start),
        },
    }
}

/// Where a list of a text first breaks, from a place in it on. There is none where it closes, or where the text's own list goes on to
/// the end of the text.
fn first_fault_from(profile: Profile, text: &[u8], list: ListAt, at: usize) -> Option<ListFault>
    requires inside { at ≤ length text.now }
    requires few { list.depth ≤ BLOCK_LIMIT }
    ensures breaks { IfSome result (λ fault. Breaks profile text.now list at fault) }
    ensures whole { is_whole (list_at profile list.kind list.depth (drop at text.now)).0 ≡ is_none result }
{
    let mut list = list;
    let mut next = at;
    loop {
        match token_at(profile, text, next) {
            Found::End => return end_of_text(list, text.len()),
            Found::Fault(code) => return Some(fault_at(filler_end(text, next), code)),
            Found::Token(token) => match closing_mark(token.kind) {
                Some(mark) => return end_of_list(list, mark, token.span.from),
                None => match opened_kind(token.kind) {
                    None => next = token.span.to,
                    Some(_) if list.depth == BLOCK_LIMIT => {
                        return Some(fault_at(token.span.from, Code::Pdo));
                    }
                    Some(kind) => (list, next) = past_block(
                        profile,
                        text,
                        list,
                        kind,
                        token.span.to,
                    ),
                },
            },
        }
    }
}

/// The first fault of a text in a profile, if it has one: where its own list breaks.
///
/// It takes no memory. What comes before the fault in a block is passed once for each block around it.
pub fn first_fault(profile: Profile, text: &[u8]) -> Option<ListFault>
    ensures first { result ≡ first_break profile text.now }
    ensures whole { is_whole (nodes profile text.now) ≡ is_none result }
{
    let whole = ListAt {
        kind: None,
        start: 0,
        depth: 0,
    };
    first_fault_from(profile, text, whole, 0)
}

/// The laws of the first fault, as clauses: there is none exactly if the nodes of the text are whole; by its code the text's own list is
/// broken; and its place lies in the text. Where the list of a block is broken by a code, a walk from there comes to a fault by that code,
/// at a place in the text. The call does nothing.
pub fn break_laws()
    ensures whole { (p : Profile) (text : List ℕ) → is_whole (nodes p text) ≡ is_none (first_break p text) }
    ensures broken { (p : Profile) (text : List ℕ) (fault : ListFault) → first_break p text ≡ Some fault
        → (list_at p None 0 text).1 ≡ broken fault.code }
    ensures within { (p : Profile) (text : List ℕ) (fault : ListFault) → first_break p text ≡ Some fault → fault.at ≤ length text }
    ensures in_block { (p : Profile) (text bs : List ℕ) (kind : Kind) (opens start : ℕ) (around : List OpenList) (code : Code)
        → (list_at p (Some kind) (length around) bs).1 ≡ broken code
        → (fault : ListFault) × (walk p by_spelling text (record { kind = Some kind; opening = opens; start = start }) around bs ≡ Some fault)
        × (fault.code ≡ code) × (fault.at ≤ length text) }
{}
