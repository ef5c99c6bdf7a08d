//! The nesting of blocks: skipping one, and finding a tag directly in one.
ghost use Rattle.std.specs.Prelude.{◌≡◌, ◌≢◌, ◌+◌, ◌-◌, ◌<◌, ◌≤◌, ℕ, true, false, List, ◌∷◌, length, drop, IfOk, IfErr, IfSome, Option, Some, None};
ghost use Rattle.teco_core.specs.declared.limits.TheConstants.{BLOCK_LIMIT};
ghost use Rattle.teco_scan.specs.Tree.{is_fault};
ghost use Rattle.teco_scan.specs.Skip.{AreAlike, byte_of, IsClosed, IsWholeClosed, IsBehindTag, closing_mark, opened_kind, is_tag};
ghost use Rattle.teco_scan.specs.Seen.{instruction_in, IsKindIn};
ghost use Rattle.teco_scan.specs.Closes.{close_of, past_of, tag_of};
ghost use Rattle.teco_scan.specs.Lists.{at_instruction, at_mark, behind, behind_block, list_at, tag_at, tag_at_instruction, tag_behind};
ghost use Rattle.teco_scan.specs.ListLaws.{EachBlockLaws};
ghost use Rattle.teco_scan.specs.Nesting.{IsNested};
ghost use Rattle.teco_scan.specs.declared.command.Modifiers.{Modifiers};
ghost use Rattle.teco_core.specs.declared.profile.Profile.{Profile};

use crate::{BlockMark, Form, Found, Token, TokenKind, lone_form, token_at};
use teco_core::{BLOCK_LIMIT, Code, Profile, is_filler};

/// The kinds of open blocks: an iteration's body, a conditional's first part and its second.
#[derive(Clone, Copy, PartialEq, Eq)]
pub enum Kind {
    Iter,
    Then,
    Else,
}

/// Where a skip stopped: the place one past the block's closing byte or, where it is divided, one past its `|`.
#[derive(Clone, Copy)]
pub struct SkipEnd {
    pub to: usize,
    pub divided: bool,
}

/// The mark by which a block ends or is divided, if the token is one.
pub fn closing_mark(kind: TokenKind) -> Option<BlockMark>
    ensures { (text : List ℕ) → result ≡ closing_mark (instruction_in text kind) }
{
    match kind {
        TokenKind::Mark(BlockMark::EndIteration) => Some(BlockMark::EndIteration),
        TokenKind::Mark(BlockMark::Otherwise) => Some(BlockMark::Otherwise),
        TokenKind::Mark(BlockMark::EndTest) => Some(BlockMark::EndTest),
        _ => None,
    }
}

/// The kind of block that a token opens.
pub(crate) fn opened_kind(kind: TokenKind) -> Option<Kind>
    ensures { (text : List ℕ) → result ≡ opened_kind (instruction_in text kind) }
{
    match kind {
        TokenKind::Mark(BlockMark::Iterate) => Some(Kind::Iter),
        TokenKind::Test(_) => Some(Kind::Then),
        _ => None,
    }
}

/// Whether the token is the tag of this name.
fn is_tag(text: &[u8], kind: TokenKind, name: &[u8]) -> bool
    requires { IsKindIn (length text.now) kind }
    ensures { result ≡ is_tag name.now (instruction_in text.now kind) }
{
    match kind {
        TokenKind::Tag(span) => &text[span.from..span.to] == name,
        _ => false,
    }
}

/// What a closing mark does to the innermost block, where the mark ends at this place.
fn end_of_block(kind: Kind, mark: BlockMark, to: usize) -> Result<SkipEnd, Code>
    requires { mark ≢ BlockMark.Iterate }
    ensures closes { (p : Profile) (text : List ℕ) (d : ℕ)
        → close_of text result ≡ (at_mark (list_at p) mark (drop to text) (Some kind) d).1 }
    ensures place { IfOk result (λ stop. stop.to ≡ to) }
    ensures divided { IfOk result (λ stop. stop.divided ≡ true → kind ≡ Kind.Then) }
    ensures ends { (text : List ℕ) → drop (to - 1) text ≡ byte_of mark ∷ drop to text
        → IfOk result (λ stop. IsClosed text kind stop) }
    ensures fault { IfErr result (λ code. is_fault code ≡ true) }
{
    let whole = SkipEnd { to, divided: false };
    match (mark, kind) {
        (BlockMark::EndIteration, Kind::Iter) => Ok(whole),
        (BlockMark::EndIteration, _) => Err(Code::Bni),
        (BlockMark::Otherwise, Kind::Then) => Ok(SkipEnd { to, divided: true }),
        (BlockMark::EndTest, Kind::Then | Kind::Else) => Ok(whole),
        _ => Err(Code::Ill),
    }
}

/// Whether this byte can be passed by itself, whatever follows it: a filler, a digit, ESC, or a command that is one byte and has
/// nothing after that, but no mark.
#[inline]
fn is_passed(b: u8) -> bool
    ensures { result ≡ true → (p : Profile) (bs : List ℕ) → AreAlike p (b ∷ bs) bs }
{
    if is_filler(b) || b.is_ascii_digit() {
        return true;
    }
    match lone_form(b) {
        Some(Form::Bare(_)) => true,
        Some(Form::Escape) => true,
        _ => false,
    }
}

/// The place after the bytes that are passed by themselves.
#[inline]
pub(crate) fn passed_end(text: &[u8], at: usize) -> usize
    requires { at ≤ length text.now }
    ensures alike { (p : Profile) → AreAlike p (drop at text.now) (drop result text.now) }
    ensures within { (at ≤ result) × (result ≤ length text.now) }
{
    let mut to = at;
    while to < text.len() && is_passed(text[to]) {
        to += 1;
    }
    to
}

/// The place after a token and, where it opens a block, after the whole of that.
#[cycle(skip)]
pub(crate) fn skip_node(
    profile: Profile,
    text: &[u8],
    token: Token,
    depth: usize,
) -> Result<usize, Code>
    requires inside { token.span.to ≤ length text.now }
    requires few { depth ≤ BLOCK_LIMIT }
    requires node { closing_mark (instruction_in text.now token.kind) ≡ None }
    ensures closes { (k : Option Kind) (m : Modifiers)
        → (at_instruction (list_at profile) (instruction_in text.now token.kind) m
        (drop token.span.to text.now) k depth).1 ≡ (behind (list_at profile) k depth (past_of text.now result)).1 }
    ensures finds { (name : List ℕ) → is_tag name (instruction_in text.now token.kind) ≡ false
        → tag_at_instruction profile name (tag_at profile name) (instruction_in text.now token.kind)
        (drop token.span.to text.now) depth ≡ tag_behind (tag_at profile name) depth (past_of text.now result) }
    ensures within { IfOk result (λ to. (token.span.to ≤ to) × (to ≤ length text.now)) }
    ensures fault { IfErr result (λ code. is_fault code ≡ true) }
{
    match opened_kind(token.kind) {
        None => Ok(token.span.to),
        Some(kind) => {
            if depth == BLOCK_LIMIT {
                return Err(Code::Pdo);
            }
            skip_whole_block(profile, text, token.span.to, kind, depth + 1)
        }
    }
}

/// From a place directly in a block, to the block's end or its `|`.
///
/// Places count the bytes before them; the depth counts the open blocks, this one too. Blocks in it are passed whole. A fault
/// is that of the first token that is none, else UTC where the text ends inside a block, BNI or ILL at a mark that ends
/// or divides no such block, and PDO at the 65th open block. It takes no memory.
#[cycle(skip)]
pub fn skip_block(
    profile: Profile,
    text: &[u8],
    at: usize,
    kind: Kind,
    depth: usize,
) -> Result<SkipEnd, Code>
    requires inside { at ≤ length text.now }
    requires few { depth ≤ BLOCK_LIMIT }
    ensures closes { close_of text.now result ≡ (list_at profile (Some kind) depth (drop at text.now)).1 }
    ensures within { IfOk result (λ stop. (at < stop.to) × (stop.to ≤ length text.now)) }
    ensures divided { IfOk result (λ stop. stop.divided ≡ true → kind ≡ Kind.Then) }
    ensures ends { IfOk result (λ stop. IsClosed text.now kind stop) }
    ensures fault { IfErr result (λ code. is_fault code ≡ true) }
{
    let mut next = at;
    loop {
        let start = passed_end(text, next);
        match token_at(profile, text, start) {
            Found::End => return Err(Code::Utc),
            Found::Fault(code) => return Err(code),
            Found::Token(token) => match closing_mark(token.kind) {
                Some(mark) => return end_of_block(kind, mark, token.span.to),
                None => next = skip_node(profile, text, token, depth)?,
            },
        }
    }
}

/// From a place directly in a block, to the place after the whole of it: after the end of a conditional's second part, if it
/// has one.
///
/// Places count the bytes before them; the depth counts the open blocks, this one too. The faults are those of `skip_block`. It
/// takes no memory.
#[cycle(skip)]
pub fn skip_whole_block(
    profile: Profile,
    text: &[u8],
    at: usize,
    kind: Kind,
    depth: usize,
) -> Result<usize, Code>
    requires inside { at ≤ length text.now }
    requires few { depth ≤ BLOCK_LIMIT }
    ensures passes { past_of text.now result
        ≡ behind_block (list_at profile) kind depth (list_at profile (Some kind) depth (drop at text.now)).1 }
    ensures within { IfOk result (λ to. (at < to) × (to ≤ length text.now)) }
    ensures fault { IfErr result (λ code. is_fault code ≡ true) }
    ensures ends { IfOk result (λ to. IsWholeClosed text.now kind to) }
{
    let stop = skip_block(profile, text, at, kind, depth)?;
    if stop.divided {
        let end = skip_block(profile, text, stop.to, Kind::Else, depth)?;
        return Ok(end.to);
    }
    Ok(stop.to)
}

/// The place after the first tag of this name that is directly in the block which goes on from a place.
///
/// Places count the bytes before them; the depth counts the open blocks, so that 0 is the text itself. There is none
/// where the block ends, is divided or has a fault before such a tag. It takes no memory.
pub fn find_tag(
    profile: Profile,
    text: &[u8],
    block_start: usize,
    depth: usize,
    name: &[u8],
) -> Option<usize>
    requires inside { block_start ≤ length text.now }
    requires few { depth ≤ BLOCK_LIMIT }
    ensures finds { tag_of text.now result ≡ tag_at profile name.now depth (drop block_start text.now) }
    ensures within { IfSome result (λ to. (block_start < to) × (to ≤ length text.now)) }
    ensures ends { IfSome result (λ to. IsBehindTag text.now to) }
{
    let mut next = block_start;
    loop {
        let start = passed_end(text, next);
        match token_at(profile, text, start) {
            Found::End => return None,
            Found::Fault(_) => return None,
            Found::Token(token) => {
                if is_tag(text, token.kind, name) {
                    return Some(token.span.to);
                }
                if closing_mark(token.kind).is_some() {
                    return None;
                }
                match skip_node(profile, text, token, depth) {
                    Ok(to) => next = to,
                    Err(_) => return None,
                }
            }
        }
    }
}

/// The laws of lists, as its clause: by which equations a list and the search for a tag unroll over their tokens, that each
/// token has a byte, that the search leads to what the list has after the tag, and which faults there are.
pub fn block_laws()
    ensures { EachBlockLaws }
{}

/// The law of nesting, as its clause: the tokens of a text, up to its first fault, nest as its nodes say, by a rule for each
/// kind of node and two for a conditional. The call does nothing.
pub fn nesting()
    ensures nested { (p : Profile) (text : List ℕ) → IsNested p text }
{}
