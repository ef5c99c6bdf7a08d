//! What stands at a place of a text.
ghost use Rattle.std.specs.Prelude.{◌≡◌, ◌≤◌, drop, length};
ghost use Rattle.teco_scan.specs.Scan.{after_fillers, scan};
ghost use Rattle.teco_scan.specs.Seen.{IsKindIn, instruction_in};
ghost use Rattle.teco_ffi.specs.Tokens.{after_token, instruction_text, last_text, token_answer, token_kind};

use crate::answers::NO_TOKEN;
use crate::token_kinds::number_of_token;
use teco_core::Profile;
use teco_scan::{Found, Item, Span, TokenKind, filler_end, token_at};

/// What is told of what stands at a place of a text.
#[repr(C)]
pub struct ToldToken {
    /// The two ends of the token.
    pub from: usize,
    pub to: usize,
    /// The number of its kind, or 0 where there is none.
    pub kind: u8,
    /// How many bytes its last text has.
    pub size: usize,
}

/// How many bytes the last text of a token has.
fn text_size(text: &[u8], kind: TokenKind) -> usize
    requires { IsKindIn (length text.now) kind }
    ensures { result ≡ length (instruction_text (instruction_in text.now kind)) }
{
    match kind {
        TokenKind::Item(Item::Text(_, Span { from, to }))
        | TokenKind::Item(Item::SetText(_, Span { from, to }))
        | TokenKind::Item(Item::Replace(_, Span { from, to }))
        | TokenKind::Tag(Span { from, to }) => to - from,
        _ => 0,
    }
}

/// Tells what stands at a place of a text after fillers, as `teco_token` of the library for C does in the profile Named. Takes no memory.
pub fn tell_token(profile: Profile, text: &[u8], at: usize, told: &mut ToldToken) -> u8
    ensures answer { result ≡ token_answer (scan profile (drop at text.now)) }
    ensures from { drop told.new.from text.now ≡ after_fillers (drop at text.now) }
    ensures to { drop told.new.to text.now ≡ after_token (scan profile (drop at text.now)) }
    ensures kind { told.new.kind ≡ token_kind (scan profile (drop at text.now)) }
    ensures size { told.new.size ≡ length (last_text (scan profile (drop at text.now))) }
    ensures within { (told.new.from ≤ told.new.to) × (told.new.to ≤ length text.now) }
{
    let at = at.min(text.len());
    told.from = filler_end(text, at);
    told.to = text.len();
    told.kind = 0;
    told.size = 0;
    match token_at(profile, text, at) {
        Found::End => NO_TOKEN,
        Found::Fault(code) => code.number(),
        Found::Token(token) => {
            told.to = token.span.to;
            told.kind = number_of_token(token.kind);
            told.size = text_size(text, token.kind);
            0
        }
    }
}
