//! The lines around the one of a step, shown.
ghost use Rattle.std.specs.Prelude.{◌≡◌, ◌≤◌, ◌+◌, ◌++◌, IfOk, OnOk, length};
ghost use Rattle.std.specs.String.{string_bytes};
ghost use Rattle.teco_debugger.specs.Around.{after_line, after_lines, around_place, around_shown, first_numbered, marked_numbered, number_shown, numbered_line, numbered_lines};

use crate::showing::{innermost, push_many, show_mark, show_step};
use crate::{Seen, Walk};
use std::alloc::Global;
use std::fmt::Write;
use teco_core::{NoMemory, Profile};
use teco_messages::{line_end, line_start, spell, spot_of};
use teco_store::Desk;

/// How many columns the number of a line takes, if it isn't longer.
const MARGIN: usize = 5;

/// The most lines that are shown each way.
const MOST_AROUND: u64 = 1000;

/// What comes after the end of the first line of a text.
fn after_line(text: &[u8]) -> &[u8]
    ensures { result.now ≡ after_line text.now }
{
    let end = line_end(text, 0);
    &text[(end + 1).min(text.len())..]
}

/// What comes after so many lines.
#[tactic(auto, unfolding(crate::specs::Around::after_lines))]
fn after_lines(text: &[u8], n: u64) -> &[u8]
    ensures { result.now ≡ after_lines text.now n }
{
    let mut rest = text;
    for _k in 0..n {
        rest = after_line(rest);
    }
    rest
}

/// The number of a line, with blanks up to the margin, and one at least.
#[tactic(auto, unfolding(crate::specs::Around::number_shown))]
fn number_shown(alloc: Global, number: u64) -> Result<String, NoMemory>
    ensures { IfOk result (λ shown. string_bytes shown ≡ number_shown number) }
{
    let mut shown = String::new(alloc);
    write!(shown, "{number}")?;
    let blanks = MARGIN.saturating_sub(shown.len()).max(1);
    push_many(&mut shown, b' ', blanks)?;
    Ok(shown)
}

/// Shows a line with its number.
#[tactic(auto, unfolding(crate::specs::Around::numbered_line))]
fn show_numbered(out: &mut String, number: u64, line: &[u8]) -> Result<(), NoMemory>
    ensures { OnOk result (string_bytes out.new ≡ string_bytes out.old ++ numbered_line number line.now) }
{
    let shown = number_shown(*out.allocator(), number)?;
    out.push_str(shown.as_str())?;
    spell(out, line)?;
    out.push_str("\n")
}

/// Shows the first line of what is left of a text, if anything is.
fn show_first(out: &mut String, number: u64, rest: &[u8]) -> Result<(), NoMemory>
    ensures { OnOk result (string_bytes out.new ≡ string_bytes out.old ++ first_numbered number rest.now) }
{
    if rest.is_empty() {
        return Ok(());
    }
    show_numbered(out, number, &rest[..line_end(rest, 0)])
}

/// Shows `n` lines, from the one that comes after `from` others.
fn show_numbered_lines(out: &mut String, text: &[u8], from: u64, n: u64) -> Result<(), NoMemory>
    requires from { from ≤ length text.now + 1 }
    requires most { n ≤ 1000 }
    ensures { OnOk result (string_bytes out.new ≡ string_bytes out.old ++ numbered_lines text.now from n) }
{
    let mut rest = after_lines(text, from);
    for k in 0..n {
        show_first(out, from + k + 1, rest)?;
        rest = after_line(rest);
    }
    Ok(())
}

/// Shows the line of a place with its number, and marks below it as much of the token there as is in the line.
#[tactic(auto, unfolding(crate::specs::Around::marked_numbered))]
fn show_marked(out: &mut String, profile: Profile, text: &[u8], at: usize) -> Result<(), NoMemory>
    requires { at ≤ length text.now }
    ensures { OnOk result (string_bytes out.new ≡ string_bytes out.old ++ marked_numbered profile text.now at) }
{
    let alloc = *out.allocator();
    let number = spot_of(text, at).line;
    let line = &text[line_start(text, at)..line_end(text, at)];
    show_numbered(out, number, line)?;
    push_many(out, b' ', number_shown(alloc, number)?.len())?;
    show_mark(out, profile, text, at)?;
    out.push_str("\n")
}

/// Shows the `n` lines before that of a place, if the text has it, that one with its token marked, and the `n` after it.
fn show_lines_around(
    out: &mut String,
    profile: Profile,
    text: &[u8],
    at: usize,
    n: u64,
) -> Result<(), NoMemory>
    requires { n ≤ 1000 }
    ensures { OnOk result (string_bytes out.new ≡ string_bytes out.old ++ around_place profile text.now at n) }
{
    if at > text.len() {
        return Ok(());
    }
    let number = spot_of(text, at).line;
    let before = number - 1;
    show_numbered_lines(out, text, before.saturating_sub(n), n.min(before))?;
    show_marked(out, profile, text, at)?;
    show_numbered_lines(out, text, number, n)
}

/// Shows the step, and the lines of its text around its own.
pub fn show_around(
    out: &mut String,
    walk: &Walk,
    name: &str,
    string: &[u8],
    seen: &Seen,
    n: u64,
) -> Result<(), NoMemory>
    ensures { OnOk result (string_bytes out.new
        ≡ string_bytes out.old ++ around_shown walk.now name.now string.now seen.now n) }
{
    show_step(out, walk, name, string, seen)?;
    match &seen.place {
        Some(place) => show_lines_around(
            out,
            walk.editor().profile(),
            innermost(walk, string, place),
            place.at,
            n.min(MOST_AROUND),
        ),
        None => Ok(()),
    }
}
