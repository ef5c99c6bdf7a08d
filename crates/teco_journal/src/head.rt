//! Writing the head of a session's file.
ghost use Rattle.std.specs.Prelude.{◌≡◌, ◌++◌, OnOk, IfOk};
ghost use Rattle.teco_journal.specs.Heads.{HasHead, beginning_in, depth_line, first_check, head_of, input_lines, number_line, start_lines, version, whole_head};

use crate::check::{CHECK_LENGTH, check_of};
use crate::numbers::push_number;
use crate::start::Start;
use std::alloc::Global;
use teco_core::{NoMemory, Profile};

/// The head of a new file.
#[derive(Drop)]
pub struct NewHead {
    pub bytes: Vec<u8>,
    /// The check of its last line, behind which the first record is written.
    pub check: [u8; CHECK_LENGTH],
}

/// The line of the version, which tells the profile.
pub fn version_line(profile: Profile) -> &'static [u8]
    ensures { result.now ≡ version profile }
{
    match profile {
        Profile::Named => b"teco session 1\n",
        Profile::Wide => b"teco session 1 wide\n",
    }
}

/// Puts a line of a word and a number.
fn push_number_line(out: &mut Vec<u8>, word: &[u8], number: u64) -> Result<(), NoMemory>
    ensures { OnOk result (out.new.items ≡ out.old.items ++ number_line word.now number) }
{
    out.extend_from_slice(word)?;
    push_number(out, number)?;
    out.extend_from_slice(b"\n")
}

fn push_depth_line(out: &mut Vec<u8>, depth: Option<usize>) -> Result<(), NoMemory>
    ensures { OnOk result (out.new.items ≡ out.old.items ++ depth_line depth) }
{
    match depth {
        Some(depth) => push_number_line(out, b"depth ", depth as u64),
        None => out.extend_from_slice(b"depth -\n"),
    }
}

/// Puts an input behind its length.
fn push_input_lines(out: &mut Vec<u8>, input: &[u8]) -> Result<(), NoMemory>
    ensures { OnOk result (out.new.items ≡ out.old.items ++ input_lines input.now) }
{
    push_number_line(out, b"input ", input.len() as u64)?;
    out.extend_from_slice(input)?;
    out.extend_from_slice(b"\n")
}

fn push_start_lines(out: &mut Vec<u8>, start: Start<'_>) -> Result<(), NoMemory>
    ensures { OnOk result (out.new.items ≡ out.old.items ++ start_lines (beginning_in start.entry)) }
{
    push_number_line(out, b"lines ", start.lines as u64)?;
    push_depth_line(out, start.depth)?;
    push_input_lines(out, start.input)
}

/// Puts a head without its last line.
fn push_head(out: &mut Vec<u8>, start: Start<'_>) -> Result<(), NoMemory>
    ensures { OnOk result (out.new.items ≡ out.old.items ++ head_of (beginning_in start.entry)) }
{
    out.extend_from_slice(version_line(start.profile))?;
    push_start_lines(out, start)
}

/// The head of the file of a session that begins so.
pub fn new_head(alloc: Global, start: Start<'_>) -> Result<NewHead, NoMemory>
    ensures bytes { IfOk result (λ head. head.bytes.items ≡ whole_head (beginning_in start.entry)) }
    ensures check { IfOk result (λ head. head.check ≡ first_check (beginning_in start.entry)) }
    ensures fits { HasHead (beginning_in start.entry) }
{
    let mut bytes = Vec::new(alloc);
    push_head(&mut bytes, start)?;
    let check = check_of(&bytes, b"begun\n");
    bytes.extend_from_slice(&check)?;
    bytes.extend_from_slice(b" begun\n")?;
    Ok(NewHead { bytes, check })
}
