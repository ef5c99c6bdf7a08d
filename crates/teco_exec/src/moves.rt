//! Moves of a cursor: what uses no step, and the steps that open blocks and end turns.
ghost use Rattle.std.specs.Prelude.{◌≡◌, ◌≢◌, ◌≤◌, ◌<◌, Ok, OnErr, length, drop};
ghost use Rattle.teco_scan.specs.Scan.{scan};
ghost use Rattle.teco_scan.specs.Seen.{IsFoundAt, found_in};
ghost use Rattle.teco_exec.specs.Frames.{EndsTurn, kind_of, turns_left};
ghost use Rattle.teco_exec.specs.CursorMoves as machine;
ghost use Rattle.teco_exec.specs.View.{ResultFinishes, MayOpen, Stays, TellsComing, coming_of, cursor, cursor_or_error, block_step_of};

use crate::blocks::{Block, Body};
use crate::conditions::holds;
use crate::cursor::Cursor;
use teco_core::{BLOCK_LIMIT, Code, Taken};
use teco_scan::{BlockMark, Found, Kind, Test, TokenKind, block_laws};

/// What opens a block or ends a turn: a step that no item makes.
#[derive(Clone, Copy)]
pub(crate) enum BlockStep {
    Iterate,
    EndTurn,
    Decide(Test),
}

/// What comes next in a text, or that something was passed that uses no step.
#[derive(Clone, Copy)]
pub(crate) enum Coming {
    Passed,
    /// A step of the token that was found, after which the cursor is.
    Step,
    /// A step that opens a block or ends a turn, and the place after its token.
    Block(BlockStep, usize),
    /// The end of the text.
    End,
    /// An error, which uses no step.
    Fault(Code),
}

impl<'t> Cursor<'t> {
    /// Passes a token that uses no step, or tells what comes.
    ///
    /// It is the token that was found here.
    #[inline(always)]
    pub(crate) fn pass(&mut self, found: &Found) -> Coming
        requires read { found_in self.old.text.bytes.now found.now ≡ scan self.old.text.profile (drop self.old.at self.old.text.bytes.now) }
        requires place { IsFoundAt self.old.text.bytes.now self.old.at found.now }
        ensures text { self.new.text ≡ self.old.text }
        ensures comes { coming_of self.new found.now result ≡ machine.pass self.old.text.profile (cursor self.old) }
        ensures told { TellsComing self.old self.new found.now result }
    {
        match found {
            Found::End => {
                if self.blocks.len() == 0 {
                    Coming::End
                } else {
                    Coming::Fault(Code::Utc)
                }
            }
            Found::Fault(code) => {
                // By its laws a fault is one of the text's own, and never want of memory.
                block_laws();
                Coming::Fault(*code)
            }
            Found::Token(token) => match token.kind {
                TokenKind::Item(_) => {
                    self.at = token.span.to;
                    Coming::Step
                }
                TokenKind::Escape => {
                    self.args.clear();
                    self.at = token.span.to;
                    Coming::Passed
                }
                TokenKind::Tag(_) => {
                    self.at = token.span.to;
                    Coming::Passed
                }
                TokenKind::Test(test) => self.pass_opening(BlockStep::Decide(test), token.span.to),
                TokenKind::Mark(mark) => self.pass_mark(mark, token.span.to),
            },
        }
    }

    /// Passes a mark that uses no step, or tells what comes.
    #[inline(always)]
    fn pass_mark(&mut self, mark: BlockMark, to: usize) -> Coming
        requires { to ≤ length self.old.text.bytes.now }
        ensures text { self.new.text ≡ self.old.text }
        ensures comes { (found : Found)
            → coming_of self.new found result
            ≡ machine.pass_mark self.old.text.profile mark (drop to self.old.text.bytes.now) (cursor self.old) }
        ensures told { (found : Found) → TellsComing self.old self.new found result }
    {
        match mark {
            BlockMark::Iterate => self.pass_opening(BlockStep::Iterate, to),
            BlockMark::EndIteration => self.pass_turn_end(to),
            BlockMark::Otherwise => self.pass_divider(to),
            BlockMark::EndTest => self.pass_part_end(to),
        }
    }

    /// A block opens here, unless `BLOCK_LIMIT` are open.
    fn pass_opening(&self, block: BlockStep, to: usize) -> Coming
        requires within { to ≤ length self.now.text.bytes.now }
        requires opens { block_step_of block ≢ machine.ends_turn }
        ensures comes { (found : Found)
            → coming_of self.now found result
            ≡ machine.pass_opening (block_step_of block) (drop to self.now.text.bytes.now) (cursor self.now) }
        ensures told { (found : Found) → TellsComing self.now self.now found result }
    {
        if self.blocks.len() == BLOCK_LIMIT {
            Coming::Fault(Code::Pdo)
        } else {
            Coming::Block(block, to)
        }
    }

    /// At `>`: a turn ends here, if the innermost block is an iteration.
    fn pass_turn_end(&self, to: usize) -> Coming
        requires { to ≤ length self.now.text.bytes.now }
        ensures comes { (found : Found)
            → coming_of self.now found result
            ≡ machine.pass_turn_end (drop to self.now.text.bytes.now) (cursor self.now).blocks }
        ensures told { (found : Found) → TellsComing self.now self.now found result }
    {
        match self.blocks.top() {
            None => Coming::Fault(Code::Bni),
            Some(block) => match block.body.kind() {
                Kind::Iter => Coming::Block(BlockStep::EndTurn, to),
                Kind::Then | Kind::Else => Coming::Fault(Code::Bni),
            },
        }
    }

    /// At the `|` after a part that was run: the other part is skipped.
    fn pass_divider(&mut self, to: usize) -> Coming
        requires { to ≤ length self.old.text.bytes.now }
        ensures text { self.new.text ≡ self.old.text }
        ensures comes { (found : Found)
            → coming_of self.new found result
            ≡ machine.pass_divider self.old.text.profile (drop to self.old.text.bytes.now) (cursor self.old).blocks }
        ensures told { (found : Found) → TellsComing self.old self.new found result }
    {
        let depth = self.blocks.len();
        match self.blocks.top() {
            None => Coming::Fault(Code::Ill),
            Some(block) => match block.body.kind() {
                Kind::Iter | Kind::Else => Coming::Fault(Code::Ill),
                Kind::Then => match self.remembered.skip(to, Kind::Else, depth) {
                    Err(code) => Coming::Fault(code),
                    Ok(stop) => {
                        self.blocks.pop();
                        self.args.clear();
                        self.at = stop.to;
                        Coming::Passed
                    }
                },
            },
        }
    }

    /// At the `'` after a part that was run.
    fn pass_part_end(&mut self, to: usize) -> Coming
        requires { to ≤ length self.old.text.bytes.now }
        ensures text { self.new.text ≡ self.old.text }
        ensures comes { (found : Found)
            → coming_of self.new found result
            ≡ machine.pass_part_end (drop to self.old.text.bytes.now) (cursor self.old).blocks }
        ensures told { (found : Found) → TellsComing self.old self.new found result }
    {
        match self.blocks.top() {
            None => Coming::Fault(Code::Ill),
            Some(block) => match block.body.kind() {
                Kind::Iter => Coming::Fault(Code::Ill),
                Kind::Then | Kind::Else => {
                    self.blocks.pop();
                    self.args.clear();
                    self.at = to;
                    Coming::Passed
                }
            },
        }
    }

    /// Takes a step that opens a block or ends a turn, and whose token ends at a place.
    #[inline(always)]
    pub(crate) fn block_step(&mut self, block: BlockStep, to: usize) -> Result<(), Code>
        requires within { to ≤ length self.old.text.bytes.now }
        requires opens { MayOpen block self.old.blocks }
        ensures text { self.new.text ≡ self.old.text }
        ensures moves { cursor_or_error self.new result
            ≡ machine.after_block_step self.old.text.profile (block_step_of block) (drop to self.old.text.bytes.now) (cursor self.old) }
        ensures finished { ResultFinishes result }
        ensures stays { OnErr result (Stays self.old self.new) }
    {
        match block {
            BlockStep::Iterate => self.iterate(to),
            BlockStep::EndTurn => {
                self.end_turn(to);
                Ok(())
            }
            BlockStep::Decide(test) => self.decide(test, to),
        }
    }

    /// An iteration begins: without end where it takes nothing, and not at all where its number is at most 0.
    fn iterate(&mut self, to: usize) -> Result<(), Code>
        requires within { to ≤ length self.old.text.bytes.now }
        requires few { length self.old.blocks < BLOCK_LIMIT }
        ensures text { self.new.text ≡ self.old.text }
        ensures moves { cursor_or_error self.new result
            ≡ machine.after_block_step self.old.text.profile machine.iterates (drop to self.old.text.bytes.now) (cursor self.old) }
        ensures finished { ResultFinishes result }
        ensures stays { OnErr result (Stays self.old self.new) }
    {
        match self.args.take()? {
            Taken::Two(..) => Err(Code::Arg),
            Taken::None => {
                self.enter(to, Body::Endless);
                Ok(())
            }
            Taken::One(n) => {
                if n > 0 {
                    self.enter(to, Body::Turns(n as u32 - 1));
                    return Ok(());
                }
                self.pass_over(to)
            }
        }
    }

    /// A conditional begins: the part that its test chooses is run.
    fn decide(&mut self, test: Test, to: usize) -> Result<(), Code>
        requires within { to ≤ length self.old.text.bytes.now }
        requires few { length self.old.blocks < BLOCK_LIMIT }
        ensures text { self.new.text ≡ self.old.text }
        ensures moves { cursor_or_error self.new result
            ≡ machine.after_block_step self.old.text.profile (machine.decides test) (drop to self.old.text.bytes.now) (cursor self.old) }
        ensures finished { ResultFinishes result }
        ensures stays { OnErr result (Stays self.old self.new) }
    {
        match self.args.take()? {
            Taken::Two(..) => Err(Code::Arg),
            Taken::None => Err(Code::Naq),
            Taken::One(n) => {
                if holds(test, n) {
                    self.enter(to, Body::Then);
                    return Ok(());
                }
                self.enter_second(to)
            }
        }
    }

    /// A turn ends: the next one begins, or the iteration is over.
    #[inline(always)]
    fn end_turn(&mut self, to: usize)
        requires within { to ≤ length self.old.text.bytes.now }
        requires ends { EndsTurn self.old.blocks }
        ensures text { self.new.text ≡ self.old.text }
        ensures moves { Ok (cursor self.new)
            ≡ machine.after_block_step self.old.text.profile machine.ends_turn (drop to self.old.text.bytes.now) (cursor self.old) }
    {
        let next = self.blocks.next_turn();
        self.args.clear();
        match next {
            Some(start) => self.at = start,
            None => {
                self.blocks.pop();
                self.at = to;
            }
        }
    }

    /// Opens a block, whose commands begin at a place.
    fn enter(&mut self, start: usize, body: Body)
        requires within { start ≤ length self.old.text.bytes.now }
        requires few { length self.old.blocks < BLOCK_LIMIT }
        ensures text { self.new.text ≡ self.old.text }
        ensures enters { cursor self.new
            ≡ machine.inside_block (kind_of body) (turns_left body) (drop start self.old.text.bytes.now)
            (cursor self.old) }
    {
        self.blocks.push(Block { start, body });
        self.at = start;
    }

    /// Goes past a whole iteration that isn't run, whose commands begin at a place.
    fn pass_over(&mut self, start: usize) -> Result<(), Code>
        requires within { start ≤ length self.old.text.bytes.now }
        requires few { length self.old.blocks < BLOCK_LIMIT }
        ensures text { self.new.text ≡ self.old.text }
        ensures moves { cursor_or_error self.new result
            ≡ machine.after_counted_start self.old.text.profile 0 (drop start self.old.text.bytes.now) (cursor self.old) }
        ensures finished { ResultFinishes result }
        ensures stays { OnErr result (Stays self.old self.new) }
    {
        let depth = self.blocks.len() + 1;
        self.at = self.remembered.skip_whole(start, Kind::Iter, depth)?;
        Ok(())
    }

    /// Skips the first part of a conditional, and enters the second, if there is one.
    fn enter_second(&mut self, start: usize) -> Result<(), Code>
        requires within { start ≤ length self.old.text.bytes.now }
        requires few { length self.old.blocks < BLOCK_LIMIT }
        ensures text { self.new.text ≡ self.old.text }
        ensures moves { cursor_or_error self.new result
            ≡ machine.after_first_part self.old.text.profile (drop start self.old.text.bytes.now) (cursor self.old) }
        ensures finished { ResultFinishes result }
        ensures stays { OnErr result (Stays self.old self.new) }
    {
        let depth = self.blocks.len() + 1;
        let stop = self.remembered.skip(start, Kind::Then, depth)?;
        if stop.divided {
            self.enter(stop.to, Body::Else);
        } else {
            self.at = stop.to;
        }
        Ok(())
    }
}
