//! A place in a text that is being run.
ghost use Rattle.std.specs.Prelude.{◌≡◌, ◌≤◌, ℕ, All, List, length};
ghost use Rattle.teco_scan.specs.Scan.{after_fillers};
ghost use Rattle.teco_exec.specs.Semicolon.{is_semicolon};
ghost use Rattle.teco_exec.specs.CursorMoves as machine;

use crate::blocks::{Block, Blocks};
use crate::remembered::Remembered;
use std::alloc::Global;
use teco_core::{Args, BLOCK_LIMIT, is_filler};
use teco_scan::{Text, spelling};

/// Where a text is being run: how many of its bytes come before, the arguments so far, the open blocks, and what is remembered of it.
#[derive(Drop)]
pub struct Cursor<'t> {
    pub(crate) text: Text<'t>,
    pub(crate) at: usize,
    pub(crate) args: Args,
    pub(crate) blocks: Blocks<'t>,
    pub(crate) remembered: Remembered<'t>,
    ghost within: { at ≤ length text.bytes.now },
    ghost begin: { All (λ b. b.start ≤ length text.bytes.now) blocks },
    ghost same: { remembered ≡ text },
}

impl<'t> Cursor<'t> {
    ghost use Rattle.std.specs.Prelude.{◌≡◌, drop};
    ghost use Rattle.teco_core.specs.ArgumentsView.{arguments};
    ghost use Rattle.teco_scan.specs.Scan.{scan};
    ghost use Rattle.teco_exec.specs.View.{cursor_at_start, cursor};

    /// The beginning of a text, with these arguments, this room for its open blocks, and memory for its tags.
    pub(crate) fn begin(
        text: Text<'t>,
        args: Args,
        room: &'t mut [Block; BLOCK_LIMIT],
        memory: Option<Global>,
    ) -> Cursor<'t>
        ensures text { result.text ≡ text.entry }
        ensures begins { cursor result ≡ cursor_at_start (arguments args) text.entry.bytes.now }
    {
        Cursor {
            text,
            at: 0,
            args,
            blocks: Blocks::new(room),
            remembered: Remembered::new(text, memory),
        }
    }

    /// Whether an iteration is open.
    pub(crate) fn has_iteration(&self) -> bool
        ensures { result ≡ machine.inside_iteration (cursor self.now).blocks }
    {
        self.blocks.has_iteration()
    }

    /// Whether `;` without modifiers comes next.
    pub(crate) fn leave_is_next(&self) -> bool
        ensures { result ≡ machine.leave_is_next (scan self.now.text.profile (cursor self.now).left) }
    {
        spelling();
        is_leave_first(&self.text.bytes[self.at..])
    }
}

/// Whether the first byte that is no filler is `;`.
fn is_leave_first(text: &[u8]) -> bool
    ensures { result ≡ is_semicolon (after_fillers text.now) }
{
    for byte in text {
        if !is_filler(*byte) {
            return *byte == b';';
        }
    }
    false
}
