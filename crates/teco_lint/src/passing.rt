//! Passing over a fault, so that those after it can be told.
ghost use Rattle.std.specs.Prelude.{◌≡◌, ◌-◌, ◌≤◌, true, false, Some, length, min, vec_len};
ghost use Rattle.teco_scan.specs.Scan.{scan};
ghost use Rattle.teco_scan.specs.Seen.{IsSpanIn, bytes_in};
ghost use Rattle.teco_lint.specs.Faults.{blanked, passed, token_length};
ghost use Rattle.teco_lint.specs.Told.{ends_run};

use crate::left_out::{Operands, row_of};
use crate::naming::{modifiers_len, name_len, name_of};
use crate::remarks::FaultIn;
use memchr::memchr;
use teco_check::Wrong;
use teco_core::{Code, ESC, Profile};
use teco_scan::{Found, Span, token_at};

/// The bytes of a text between two places; none where it has no such places.
pub fn part(text: &[u8], span: Span) -> &[u8]
    ensures { span.to ≤ length text.now → result.now ≡ bytes_in text.now span }
{
    if span.from <= span.to && span.to <= text.len() {
        &text[span.from..span.to]
    } else {
        &[]
    }
}

/// How long the text is that the bytes begin with, and the byte that ends it.
fn text_len(bytes: &[u8], end: u8) -> usize {
    match memchr(end, bytes) {
        Some(at) => at.saturating_add(1),
        None => bytes.len(),
    }
}

/// What comes after so many bytes.
fn after(bytes: &[u8], len: usize) -> &[u8] {
    &bytes[len.min(bytes.len())..]
}

/// How many bytes so many texts have that the bytes begin with: after an @ they end with the byte that comes first, else with ESC.
fn texts_len(bytes: &[u8], texts: u8, has_at: bool) -> usize {
    let (end, mut len) = match bytes {
        [first, ..] if has_at => (*first, 1),
        _ => (ESC, 0),
    };
    for _ in 0..texts {
        len = text_len(after(bytes, len), end).saturating_add(len);
    }
    len
}

/// How many bytes the operands have of a command that is left out.
fn operands_len(bytes: &[u8], takes: Operands, has_at: bool) -> usize {
    match takes {
        Operands::Nothing => 0,
        Operands::Register => 1,
        Operands::Text => texts_len(bytes, 1, has_at),
        Operands::RegisterAndText => texts_len(after(bytes, 1), 1, has_at).saturating_add(1),
        Operands::TwoTexts => texts_len(bytes, 2, has_at),
    }
}

/// How many of these bytes are passed over, where they begin with no token.
fn unread_len(profile: Profile, bytes: &[u8], code: Code) -> usize {
    let modifiers = modifiers_len(bytes);
    let has_at = memchr(b'@', &bytes[..modifiers]).is_some();
    if let Some((row, len)) = row_of(profile, bytes) {
        let operands = operands_len(after(bytes, len), row.takes, has_at);
        return len.saturating_add(operands);
    }
    let name = name_len(bytes);
    if matches!(code, Code::Iqn) {
        let operands = operands_len(after(bytes, name), takes_after(name_of(bytes)), has_at);
        return name.saturating_add(operands);
    }
    if modifiers > 0 {
        return modifiers.saturating_add(token_len(profile, after(bytes, modifiers)));
    }
    name
}

/// What follows the name of a command with a register.
fn takes_after(name: &[u8]) -> Operands {
    match name {
        [.., 21] | [.., b'^', b'U' | b'u'] => Operands::RegisterAndText,
        _ => Operands::Register,
    }
}

/// How many bytes the token has that these begin with.
fn token_len(profile: Profile, bytes: &[u8]) -> usize
    ensures { result ≡ token_length bytes.now (scan profile bytes.now) }
{
    match token_at(profile, bytes, 0) {
        Found::Token(token) => token.span.to,
        _ => 1,
    }
}

/// How many bytes are passed over at a fault; none where what comes after it can't be told.
fn passed_len(profile: Profile, bytes: &[u8], wrong: Wrong) -> Option<usize>
    ensures { ends_run wrong ≡ false → result ≡ Some (token_length bytes.now (scan profile bytes.now)) }
{
    match wrong {
        Wrong::Unreadable(Code::Utc) | Wrong::Unended | Wrong::TooDeep => None,
        Wrong::Unreadable(code) => Some(unread_len(profile, bytes, code)),
        Wrong::Stray(..) => Some(1),
        Wrong::NoTag | Wrong::Calls | Wrong::Loads | Wrong::InText => Some(token_len(
            profile, bytes,
        )),
    }
}

/// Makes the bytes between two places spaces.
fn blank(text: &mut Vec<u8>, span: Span)
    ensures items { text.new.items ≡ blanked span.from (min span.to (vec_len text.old) - span.from) text.old.items }
    ensures len { vec_len text.new ≡ vec_len text.old }
{
    let end = span.to.min(text.len());
    for at in span.from..end {
        text[at] = b' ';
    }
}

/// Makes a text read on after a fault: its token is spaces then, and a test that is none is one. Says whether that is so.
pub fn pass_over(text: &mut Vec<u8>, profile: Profile, fault: &FaultIn) -> bool
    ensures reads_on { ends_run fault.now.wrong ≡ false → result ≡ true }
    ensures passed { IsSpanIn (vec_len text.old) fault.now.inside → ends_run fault.now.wrong ≡ false
        → text.new.items ≡ passed profile text.old.items fault.now }
    ensures len { vec_len text.new ≡ vec_len text.old }
{
    let test = fault.at.saturating_add(1);
    if matches!(fault.wrong, Wrong::Unreadable(Code::Iqc)) && test < text.len() {
        text[test] = b'E';
        return true;
    }
    let rest = Span {
        from: fault.at,
        to: fault.inside.to,
    };
    let Some(len) = passed_len(profile, part(text, rest), fault.wrong) else {
        return false;
    };
    let to = fault.at.saturating_add(len).min(fault.inside.to);
    blank(text, Span { from: fault.at, to });
    true
}
