//! The open blocks of a text.
ghost use Rattle.std.specs.Prelude.{◌≡◌, ◌<◌, ◌≤◌, ◌-◌, [], ◌∷◌, IfOk, None, Some, length, MatchOption, slice_get};
ghost use Rattle.teco_exec.specs.Frames.{EndsTurn, has_iteration, kind_of, list_start, next_turn, outermost, turns_open};

use std::alloc::Global;
use std::marker::Model;
use teco_core::{BLOCK_LIMIT, NoMemory};
use teco_scan::Kind;

/// What an open block is.
#[derive(Clone, Copy)]
pub(crate) enum Body {
    /// An iteration without end.
    Endless,
    /// An iteration, with so many turns left after the present one.
    Turns(u32),
    /// The first part of a conditional.
    Then,
    /// The second part of a conditional.
    Else,
}

impl Body {
    /// The kind of the block.
    pub fn kind(self) -> Kind
        ensures { result ≡ kind_of self }
    {
        match self {
            Body::Endless | Body::Turns(_) => Kind::Iter,
            Body::Then => Kind::Then,
            Body::Else => Kind::Else,
        }
    }
}

/// An open block: the place at which its list of commands begins, and what it is.
#[derive(Clone, Copy)]
pub(crate) struct Block {
    pub start: usize,
    pub body: Body,
}

/// The open blocks of one text, at most 64. A clause sees them as a list, the innermost first. They take no memory: their room is
/// lent, so that a text can begin without a copy of it.
#[derive(Drop)]
pub(crate) struct Blocks<'r> {
    /// The outermost first; after the open ones come blocks that mean nothing.
    open: &'r mut [Block],
    depth: usize,
}

impl<'r> Model for Blocks<'r> {
    ghost use Rattle.std.specs.Prelude.{◌≡◌, ◌≤◌, List, length, reverse, take};
    ghost use Rattle.teco_core.specs.declared.limits.TheConstants.{BLOCK_LIMIT};
    ghost use Rattle.teco_exec.specs.declared.blocks.Block.{Block};

    ghost Value = { List Block };

    ghost view = { λ b. reverse (take b.depth b.open.now) };

    ghost invariant = { λ b. (b.depth ≤ BLOCK_LIMIT) × (length b.open.now ≡ BLOCK_LIMIT) };
}

impl<'r> Blocks<'r> {
    /// No block is open. What is in the room means nothing.
    pub fn new(room: &'r mut [Block; BLOCK_LIMIT]) -> Blocks<'r>
        ensures { result ≡ [] }
    {
        Blocks {
            open: room,
            depth: 0,
        }
    }

    /// How many blocks are open, from 0 to 64.
    pub fn len(&self) -> usize
        ensures value { result ≡ length self.now }
        ensures few { length self.now ≤ BLOCK_LIMIT }
    {
        self.depth
    }

    /// Opens a block inside the others.
    pub fn push(&mut self, block: Block)
        requires { length self.old < BLOCK_LIMIT }
        ensures { self.new ≡ block ∷ self.old }
    {
        self.open[self.depth] = block;
        self.depth += 1;
    }

    /// Closes the innermost block, if one is open.
    pub fn pop(&mut self) -> Option<Block>
        ensures { MatchOption result ((self.old ≡ []) × (self.new ≡ [])) (λ b. self.old ≡ b ∷ self.new) }
    {
        if self.depth == 0 {
            return None;
        }
        self.depth -= 1;
        Some(self.open[self.depth])
    }

    /// The innermost block, if one is open.
    pub fn top(&self) -> Option<Block>
        ensures { MatchOption result (self.now ≡ []) (λ b. slice_get self.now 0 ≡ Some b) }
    {
        if self.depth == 0 {
            return None;
        }
        Some(self.open[self.depth - 1])
    }

    /// Begins the next turn of the innermost block, an iteration, and tells where its list begins. There is none after the last
    /// turn: then nothing changes.
    #[inline(always)]
    pub fn next_turn(&mut self) -> Option<usize>
        requires { EndsTurn self.old }
        ensures { MatchOption result ((next_turn self.old ≡ None) × (self.new ≡ self.old))
            (λ start. (next_turn self.old ≡ Some self.new) × (list_start self.new ≡ start)) }
    {
        if self.depth == 0 {
            return None;
        }
        let block = self.open[self.depth - 1];
        match block.body {
            Body::Endless => Some(block.start),
            Body::Turns(left) => {
                if left == 0 {
                    return None;
                }
                self.open[self.depth - 1].body = Body::Turns(left - 1);
                Some(block.start)
            }
            Body::Then | Body::Else => None,
        }
    }

    /// The block at this depth: the outermost is at 1.
    pub fn get(&self, depth: usize) -> Block
        requires some { 0 < depth }
        requires open { depth ≤ length self.now }
        requires few { depth ≤ BLOCK_LIMIT }
        ensures { outermost depth self.now ≡ result ∷ outermost (depth - 1) self.now }
    {
        self.open[depth - 1]
    }

    /// Closes the innermost blocks, so that as many as this depth are left.
    pub fn truncate(&mut self, depth: usize)
        requires { depth ≤ length self.old }
        ensures { self.new ≡ outermost depth self.old }
    {
        self.depth = depth;
    }

    /// Where the list of commands at this depth begins: at 0 in no block.
    pub fn list_start(&self, depth: usize) -> usize
        requires open { depth ≤ length self.now }
        requires few { depth ≤ BLOCK_LIMIT }
        ensures { result ≡ list_start (outermost depth self.now) }
    {
        if depth == 0 {
            return 0;
        }
        self.get(depth).start
    }

    /// The turns left of each open iteration after the present one, the innermost first; none: without end.
    pub fn turns(&self, alloc: Global) -> Result<Vec<Option<u32>>, NoMemory>
        ensures { IfOk result (λ turns. turns.items ≡ turns_open self.now) }
    {
        let mut turns = Vec::new(alloc);
        let mut depth = self.depth;
        'outward: while depth > 0 {
            depth -= 1;
            match self.open[depth].body {
                Body::Endless => turns.push(None)?,
                Body::Turns(left) => turns.push(Some(left))?,
                Body::Then | Body::Else => {}
            }
        }
        Ok(turns)
    }

    /// Whether an iteration is open.
    pub fn has_iteration(&self) -> bool
        ensures { result ≡ has_iteration self.now }
    {
        let mut depth = self.depth;
        while depth > 0 {
            depth -= 1;
            match self.open[depth].body.kind() {
                Kind::Iter => return true,
                Kind::Then | Kind::Else => {}
            }
        }
        false
    }
}
