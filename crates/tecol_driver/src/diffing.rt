//! Diffs of texts that have the same number of lines.
ghost use Rattle.std.specs.Prelude.{◌≡◌, ◌<◌, ◌≤◌, ◌++◌, length, IfOk, OnOk};
ghost use Rattle.std.specs.Str.{bytes_eq};
ghost use Rattle.std.specs.String.{string_bytes};
ghost use Rattle.tecol_driver.specs.Diffs.{diff_of, has_line_end, name_lines, first_len, hunk_head, hunk_if, hunks, lines_of, signed, tab_after};

use std::alloc::Global;
use teco_core::NoMemory;

/// How many bytes the first line has, with its line end.
#[tactic(auto, using(crate::proofs::Lines::front, crate::proofs::Lines::no_front), unfolding(crate::specs::Diffs::first_len))]
fn first_len(text: &[u8]) -> usize
    requires { 0 < length text.now }
    ensures len { result ≡ first_len text.now }
    ensures within { (0 < result) × (result ≤ length text.now) }
{
    let mut len = 0;
    while len < text.len() {
        len += 1;
        if text[len - 1] == b'\n' {
            return len;
        }
    }
    len
}

/// Whether the last byte is a line end.
fn has_line_end(line: &[u8]) -> bool
    ensures { result ≡ has_line_end line.now }
{
    let len = line.len();
    len > 0 && line[len - 1] == b'\n'
}

/// Puts a line after this sign at the end, and says so if it has no line end.
fn push_line(out: &mut Vec<u8>, sign: u8, line: &[u8]) -> Result<(), NoMemory>
    ensures { OnOk result (out.new.items ≡ out.old.items ++ signed sign line.now) }
{
    out.extend_from_slice(&[sign])?;
    out.extend_from_slice(line)?;
    if has_line_end(line) {
        return Ok(());
    }
    out.extend_from_slice(b"\n\\ No newline at end of file\n")
}

/// The line that says which line is another one.
fn hunk_head(alloc: Global, number: usize) -> Result<String, NoMemory>
    ensures { IfOk result (λ head. string_bytes head ≡ hunk_head number) }
{
    format!(in alloc; "@@ -{number},1 +{number},1 @@\n")
}

/// Puts at the end that the line of this number is now another one, if it is.
fn push_hunk(out: &mut Vec<u8>, number: usize, old: &[u8], new: &[u8]) -> Result<(), NoMemory>
    ensures { OnOk result (out.new.items ≡ out.old.items ++ hunk_if (bytes_eq old.now new.now) number old.now new.now) }
{
    if old == new {
        return Ok(());
    }
    let alloc = *out.allocator();
    let head = hunk_head(alloc, number)?;
    out.extend_from_slice(head.as_bytes())?;
    push_line(out, b'-', old)?;
    push_line(out, b'+', new)
}

/// What is said of each line that is now another one.
fn hunks_of(alloc: Global, old: &[u8], new: &[u8]) -> Result<Vec<u8>, NoMemory>
    ensures { IfOk result (λ out. out.items ≡ hunks 1 (lines_of old.now) (lines_of new.now)) }
{
    let mut out = Vec::new(alloc);
    let mut number = 1;
    let mut old_rest = old;
    let mut new_rest = new;
    while !old_rest.is_empty() && !new_rest.is_empty() {
        let (old_line, old_after) = old_rest.split_at(first_len(old_rest));
        let (new_line, new_after) = new_rest.split_at(first_len(new_rest));
        push_hunk(&mut out, number, old_line, new_line)?;
        number += 1;
        old_rest = old_after;
        new_rest = new_after;
    }
    Ok(out)
}

/// What follows the name of a file, so that blanks in it don't end it.
fn tab_after(name: &str) -> &'static str
    ensures { result.now ≡ tab_after name.now }
{
    if name.as_bytes().contains(&b' ') {
        "\t"
    } else {
        ""
    }
}

/// The lines that say which file is another one.
fn name_lines(alloc: Global, name: &str) -> Result<String, NoMemory>
    ensures { IfOk result (λ head. string_bytes head ≡ name_lines name.now) }
{
    let tab = tab_after(name);
    format!(in alloc; "--- {name}{tab}\n+++ {name}{tab}\n")
}

/// The unified diff, without context, of the old and the new text of a file. Nothing where no line is another one.
pub fn diff(alloc: Global, name: &str, old: &[u8], new: &[u8]) -> Result<Vec<u8>, NoMemory>
    ensures { IfOk result (λ out. out.items ≡ diff_of name.now old.now new.now) }
{
    let hunks = hunks_of(alloc, old, new)?;
    if hunks.is_empty() {
        return Ok(hunks);
    }
    let mut out = name_lines(alloc, name)?.into_bytes();
    out.extend_from_slice(&hunks)?;
    Ok(out)
}
