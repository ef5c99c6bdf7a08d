//! What the commands of a line do, as its note.
ghost use Rattle.std.specs.Prelude.{◌≡◌, ◌≤◌, length};

use crate::layout::{TokenRole, role_of};
use crate::words::words_of;
use teco_core::{NoMemory, Profile};
use teco_scan::{Found, Token, TokenKind, token_at};

/// Puts the words of a token at the end of a note.
fn push_token(out: &mut Vec<u8>, token: &Token, has_number: bool) -> Result<(), NoMemory> {
    if !out.is_empty() {
        out.extend_from_slice(b". ")?;
    }
    let words = words_of(token.kind, token.modifiers.colons, has_number);
    out.extend_from_slice(words.as_bytes())
}

/// What the commands do that begin from one place up to another. What gives a number to a command is not
/// told, and neither is a tag.
///
/// Nothing is read at the second place or after it: a line within a text would be taken for commands, each up to the text's end.
pub fn push_words(
    out: &mut Vec<u8>,
    profile: Profile,
    text: &[u8],
    at: usize,
    to: usize,
) -> Result<(), NoMemory>
    requires { at ≤ length text.now }
{
    let mut place = at;
    let mut has_number = false;
    while place < to && place < text.len() {
        let Found::Token(token) = token_at(profile, text, place) else {
            return Ok(());
        };
        if token.span.from >= to {
            return Ok(());
        }
        place = token.span.to;
        match (role_of(token.kind, has_number), token.kind) {
            (TokenRole::Value, _) => has_number = true,
            (_, TokenKind::Tag(_)) => has_number = false,
            _ => {
                push_token(out, &token, has_number)?;
                has_number = false;
            }
        }
    }
    Ok(())
}
