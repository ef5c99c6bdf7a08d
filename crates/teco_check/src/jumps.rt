//! Where jumps look for their tags.
ghost use Rattle.std.specs.Prelude.{◌≡◌, ◌+◌, ◌≤◌, IfSome, List, ℕ, length};
ghost use Rattle.teco_core.specs.declared.limits.TheConstants.{BLOCK_LIMIT};
ghost use Rattle.teco_check.specs.Checked.{AreInside, lands_below};

use std::alloc::Global;
use teco_core::{BLOCK_LIMIT, Profile};
use teco_scan::{BlockMark, Found, Item, Tags, Text, TextCommand, TokenKind, token_at};

/// The most lists that are open: those of blocks, and that of the text.
pub(crate) const LISTS: usize = BLOCK_LIMIT + 1;

/// How many jumps of a text search for their tags before tags are gathered.
const FEW_JUMPS: u32 = 8;

/// Whether a jump to this tag lands in one of so many lists.
pub(crate) fn lands_below(
    tags: &Tags<'_>,
    starts: &[usize; LISTS],
    count: usize,
    name: &[u8],
) -> bool
    requires few { count ≤ BLOCK_LIMIT + 1 }
    requires inside { AreInside tags.now.bytes.now starts.now count }
    ensures { result ≡ lands_below tags.now.profile tags.now.bytes.now starts.now count name.now }
{
    let mut below = count;
    while below > 0 {
        below -= 1;
        if tags.find(starts[below], below, name).is_some() {
            return true;
        }
    }
    false
}

/// Gathers the tags of the lists in which a jump looks, from the innermost out, up to one whose tags are gathered.
fn gather_open(tags: &mut Tags<'_>, starts: &[usize; LISTS], depth: usize)
    requires few { depth ≤ BLOCK_LIMIT }
    requires inside { AreInside tags.old.bytes.now starts.now (depth + 1) }
    ensures { tags.new ≡ tags.old }
{
    for below in (0..depth + 1).rev() {
        if tags.has(starts[below]) || tags.gather(starts[below], below).is_err() {
            return;
        }
    }
}

/// How many blocks are open after a token that ends at a place, where so many were; none where too many would be, or one is closed that
/// isn't open. A list that opens begins at that place.
fn depth_after(
    starts: &mut [usize; LISTS],
    depth: usize,
    kind: TokenKind,
    to: usize,
) -> Option<usize>
    requires { depth ≤ BLOCK_LIMIT }
    ensures few { IfSome result (λ now. now ≤ BLOCK_LIMIT) }
    ensures inside { (text : List ℕ) → to ≤ length text → AreInside text starts.old (depth + 1)
        → IfSome result (λ now. AreInside text starts.new (now + 1)) }
{
    match kind {
        TokenKind::Mark(BlockMark::Iterate) | TokenKind::Test(_) => {
            if depth == BLOCK_LIMIT {
                return None;
            }
            starts[depth + 1] = to;
            Some(depth + 1)
        }
        TokenKind::Mark(BlockMark::Otherwise) => {
            starts[depth] = to;
            Some(depth)
        }
        TokenKind::Mark(_) => depth.checked_sub(1),
        _ => Some(depth),
    }
}

fn is_jump(kind: TokenKind) -> bool {
    matches!(kind, TokenKind::Item(Item::Text(TextCommand::Go, _)))
}

/// The tags of the lists in which the jumps of a text look, as this profile reads it, but for the first few jumps. Which lists are
/// gathered changes only how fast a tag is found.
pub(crate) fn gathered<'t>(profile: Profile, text: &'t [u8], memory: Option<Global>) -> Tags<'t>
    ensures text { result.bytes.now ≡ text.now }
    ensures profile { result.profile ≡ profile }
{
    let whole = Text {
        profile,
        bytes: text,
    };
    let mut tags = Tags::new(whole, memory);
    if memory.is_none() {
        return tags;
    }
    let mut starts = [0; LISTS];
    let mut depth = 0;
    let mut jumps = 0;
    let mut at = 0;
    'gathering: while let Found::Token(token) = token_at(profile, text, at) {
        at = token.span.to;
        let Some(now) = depth_after(&mut starts, depth, token.kind, at) else {
            return tags;
        };
        depth = now;
        if !is_jump(token.kind) {
            continue 'gathering;
        }
        if jumps < FEW_JUMPS {
            jumps += 1;
            continue 'gathering;
        }
        gather_open(&mut tags, &starts, depth);
    }
    tags
}
