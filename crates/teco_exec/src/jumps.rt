//! Iterations that are left, and jumps to tags.
ghost use Rattle.std.specs.Prelude.{◌≡◌, OnErr, length};
ghost use Rattle.teco_scan.specs.Seen.{IsSpanIn, bytes_in};
ghost use Rattle.teco_exec.specs.CursorMoves as machine;
ghost use Rattle.teco_exec.specs.View.{ResultFinishes, Stays, cursor, cursor_or_error};

use crate::cursor::Cursor;
use teco_core::Code;
use teco_scan::{Kind, Span};

impl<'t> Cursor<'t> {
    /// Leaves the innermost iteration. Where it can't, the cursor stays.
    pub(crate) fn leave(&mut self) -> Result<(), Code>
        ensures text { self.new.text ≡ self.old.text }
        ensures moves { cursor_or_error self.new result
            ≡ machine.after_leaving_iteration self.old.text.profile (cursor self.old).blocks (cursor self.old).args
            (cursor self.old).left }
        ensures finished { ResultFinishes result }
        ensures stays { OnErr result (Stays self.old self.new) }
    {
        let mut at = self.at;
        let mut depth = self.blocks.len();
        'leaving: while depth > 0 {
            let kind = self.blocks.get(depth).body.kind();
            at = self.remembered.skip_whole(at, kind, depth)?;
            depth -= 1;
            match kind {
                Kind::Iter => {
                    self.blocks.truncate(depth);
                    self.at = at;
                    return Ok(());
                }
                Kind::Then | Kind::Else => continue 'leaving,
            }
        }
        Err(Code::Sni)
    }

    /// Jumps past the first tag of this name, which lies in the text, that is directly in the innermost list of commands that has one. Where none has, the cursor
    /// stays.
    pub(crate) fn jump(&mut self, name: Span) -> Result<(), Code>
        requires { IsSpanIn (length self.old.text.bytes.now) name }
        ensures text { self.new.text ≡ self.old.text }
        ensures moves { cursor_or_error self.new result
            ≡ machine.after_jump self.old.text.profile (bytes_in self.old.text.bytes.now name) self.old.text.bytes.now (cursor self.old).blocks (cursor self.old).args }
        ensures finished { ResultFinishes result }
        ensures stays { OnErr result (Stays self.old self.new) }
    {
        let mut depth = self.blocks.len();
        'jumping: loop {
            let start = self.blocks.list_start(depth);
            if let Some(to) = self.remembered.tag(start, depth, name) {
                self.blocks.truncate(depth);
                self.at = to;
                return Ok(());
            }
            if depth == 0 {
                return Err(Code::Tag);
            }
            depth -= 1;
        }
    }
}
