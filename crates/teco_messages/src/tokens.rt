//! The token at a place.
ghost use Rattle.std.specs.Prelude.{◌≡◌, ◌<◌, true};
ghost use Rattle.teco_messages.specs.Token.{ends_word, token_in, word_len};

use teco_core::{ESC, Profile, is_filler};
use teco_scan::{Found, token_at};

/// Whether a byte ends what is shown where no token is: a filler or an ESC.
fn ends_word(byte: u8) -> bool
    ensures { result ≡ ends_word byte }
{
    is_filler(byte) || byte == ESC
}

/// How many bytes there are up to a filler or an ESC, at least one and at most `most`.
fn word_len(bytes: &[u8], most: usize) -> usize
    ensures { result ≡ word_len bytes.now most }
{
    let mut len = 0;
    while len < most && len < bytes.len() && !ends_word(bytes[len]) {
        len += 1;
    }
    len.max(1)
}

/// The token at a place, as it is spelled; where none is there, at most `most` bytes.
pub fn token(profile: Profile, text: &[u8], at: usize, most: usize) -> &[u8]
    ensures { result.now ≡ token_in profile text.now at most }
{
    if at > text.len() {
        return &[];
    }
    match token_at(profile, text, at) {
        Found::Token(token) => &text[token.span.from..token.span.to],
        Found::End => &[],
        Found::Fault(_) => {
            let rest = &text[at..];
            &rest[..word_len(rest, most).min(rest.len())]
        }
    }
}
