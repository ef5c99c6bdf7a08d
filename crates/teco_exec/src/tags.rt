//! Tags that come one after the other are passed at once.
ghost use Rattle.std.specs.Prelude.{◌≡◌, ◌≤◌, IfSome, drop, false, length, true};
ghost use Rattle.teco_core.specs.declared.profile.Profile.{Profile};
ghost use Rattle.teco_scan.specs.Scan.{scan};
ghost use Rattle.teco_scan.specs.Seen.{IsFoundAt, found_in};
ghost use Rattle.teco_exec.specs.CursorMoves as machine;
ghost use Rattle.teco_exec.specs.TextStep.{GoesOnAlike};
ghost use Rattle.teco_exec.specs.View.{coming_of, cursor};
ghost use Rattle.teco_exec.specs.declared.moves.Coming.TheVariants as coming;

use crate::cursor::Cursor;
use teco_scan::{Form, Found, TokenKind, block_laws, filler_end, lead, tag_token};

/// The token that comes at a place, if it begins as a tag does and has an end.
#[inline(always)]
fn tag_at(text: &[u8], at: usize) -> Option<Found>
    requires { at ≤ length text.now }
    ensures read { IfSome result (λ found. (p : Profile) → found_in text.now found ≡ scan p (drop at text.now)) }
    ensures place { IfSome result (λ found. IsFoundAt text.now at found) }
{
    let from = filler_end(text, at);
    if from == text.len() || text[from] != b'!' {
        return None;
    }
    match lead(text, at, from)? {
        Form::Tag => tag_token(text, at, from),
        _ => None,
    }
}

impl<'t> Cursor<'t> {
    /// Passes what was found here, if it is a tag, and says whether it is.
    #[inline(always)]
    fn pass_tag(&mut self, found: &Found) -> bool
        requires read { found_in self.old.text.bytes.now found.now ≡ scan self.old.text.profile (drop self.old.at self.old.text.bytes.now) }
        requires place { IsFoundAt self.old.text.bytes.now self.old.at found.now }
        ensures text { self.new.text ≡ self.old.text }
        ensures passed { result ≡ true
            → coming_of self.new found.now coming.Passed ≡ machine.pass self.old.text.profile (cursor self.old) }
        ensures stays { result ≡ false → self.new ≡ self.old }
    {
        let Found::Token(token) = found else {
            return false;
        };
        let TokenKind::Tag(_) = token.kind else {
            return false;
        };
        self.at = token.span.to;
        true
    }

    /// Passes the tags that come here. None uses a step, so the text goes on after them as it would here.
    #[inline(always)]
    pub(crate) fn pass_tags(&mut self)
        ensures { GoesOnAlike self.old self.new }
    {
        block_laws();
        'tags: loop {
            let Some(found) = tag_at(self.text.bytes, self.at) else {
                return;
            };
            if !self.pass_tag(&found) {
                return;
            }
        }
    }
}
