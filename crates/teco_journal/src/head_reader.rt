//! Reading the head of a session's file. It takes no memory.
ghost use Rattle.std.specs.Prelude.{◌≡◌, ◌++◌, IfErr, IfOk, MatchResult, OnErr, codes};
ghost use Rattle.teco_journal.specs.Heads.{FitsDepth, FitsInput, FitsNumber, HasHead, beginning_in, depth_line, first_check, input_lines, number_line, start_lines, version, whole_head};
ghost use Rattle.teco_journal.specs.HeadFaults.{Fails, FailsAt, HasNoHead, HeadFails, IsNoNumber, IsNoVersion};

use crate::check::{CHECK_LENGTH, check_of};
use crate::head::version_line;
use crate::numbers::exact_number;
use crate::start::Start;
use memchr::memchr;
use teco_core::Profile;

/// The head of a file.
#[derive(Clone, Copy)]
pub struct Head<'a> {
    pub start: Start<'a>,
    /// The check of its last line, behind which the first record stands.
    pub check: [u8; CHECK_LENGTH],
    /// The bytes after it.
    pub rest: &'a [u8],
}

/// Why bytes begin with no head.
#[derive(Clone, Copy, Debug, PartialEq, Eq)]
pub enum HeadFault {
    /// They are not of this version.
    Version,
    /// They are a front of a head, and end before it does, as after a crash.
    Torn,
    /// They are of this version, and no front of a head.
    Changed,
}

/// What comes after a word.
fn after<'a>(word: &[u8], bytes: &'a [u8]) -> Result<&'a [u8], HeadFault>
    ensures { MatchResult result (λ rest. bytes.now ≡ word.now ++ rest.now) (FailsAt word.now bytes.now) }
{
    if let Some(rest) = bytes.strip_prefix(word) {
        return Ok(rest);
    }
    if word.starts_with(bytes) {
        Err(HeadFault::Torn)
    } else {
        Err(HeadFault::Changed)
    }
}

/// The profile that the line of the version tells, and what comes after it.
fn after_version(bytes: &[u8]) -> Result<(Profile, &[u8]), HeadFault>
    ensures { MatchResult result (λ found. bytes.now ≡ version found.0 ++ found.1.now) (IsNoVersion bytes.now) }
{
    match after(version_line(Profile::Named), bytes) {
        Ok(rest) => Ok((Profile::Named, rest)),
        Err(HeadFault::Changed) => match after(version_line(Profile::Wide), bytes) {
            Ok(rest) => Ok((Profile::Wide, rest)),
            Err(HeadFault::Changed) => Err(HeadFault::Version),
            Err(fault) => Err(fault),
        },
        Err(fault) => Err(fault),
    }
}

/// Why a line that begins so, and has no end, is none of a number.
fn fault_in_number(digits: &[u8]) -> HeadFault
    ensures { IsNoNumber digits.now result }
{
    if digits.is_empty() {
        return HeadFault::Torn;
    }
    match exact_number(digits) {
        Some(_) => HeadFault::Torn,
        None => HeadFault::Changed,
    }
}

/// The number after a word, and what comes after its line.
fn number_after<'a>(word: &[u8], bytes: &'a [u8]) -> Result<(u64, &'a [u8]), HeadFault>
    ensures { MatchResult result (λ found. FitsNumber found.0 × (bytes.now ≡ number_line word.now found.0 ++ found.1.now))
        (Fails FitsNumber (number_line word.now) bytes.now) }
{
    let rest = after(word, bytes)?;
    let Some(end) = memchr(b'\n', rest) else {
        return Err(fault_in_number(rest));
    };
    let Some(number) = exact_number(&rest[..end]) else {
        return Err(HeadFault::Changed);
    };
    Ok((number, &rest[end + 1..]))
}

/// The depth, and what comes after its line.
fn depth_after(bytes: &[u8]) -> Result<(Option<usize>, &[u8]), HeadFault>
    ensures { MatchResult result (λ found. FitsDepth found.0 × (bytes.now ≡ depth_line found.0 ++ found.1.now))
        (Fails FitsDepth depth_line bytes.now) }
{
    match after(b"depth -\n", bytes) {
        Ok(rest) => Ok((None, rest)),
        Err(HeadFault::Changed) => {
            let (depth, rest) = number_after(b"depth ", bytes)?;
            Ok((Some(depth as usize), rest))
        }
        Err(fault) => Err(fault),
    }
}

/// The input, and what comes after its lines.
fn input_after(bytes: &[u8]) -> Result<(&[u8], &[u8]), HeadFault>
    ensures { MatchResult result (λ found. FitsInput found.0.now × (bytes.now ≡ input_lines found.0.now ++ found.1.now))
        (Fails FitsInput input_lines bytes.now) }
{
    let (length, rest) = number_after(b"input ", bytes)?;
    let length = length as usize;
    if rest.len() <= length {
        return Err(HeadFault::Torn);
    }
    if rest[length] != b'\n' {
        return Err(HeadFault::Changed);
    }
    Ok((&rest[..length], &rest[length + 1..]))
}

/// What a session in this profile begins with, and what comes after the lines that tell this.
fn start_after(profile: Profile, bytes: &[u8]) -> Result<(Start<'_>, &[u8]), HeadFault>
    ensures { MatchResult result (λ found. (found.0.profile ≡ profile) × HasHead (beginning_in found.0)
        × (bytes.now ≡ start_lines (beginning_in found.0) ++ found.1.now)) (Fails HasHead start_lines bytes.now) }
{
    let (lines, rest) = number_after(b"lines ", bytes)?;
    let (depth, rest) = depth_after(rest)?;
    let (input, rest) = input_after(rest)?;
    let start = Start {
        profile,
        lines: lines as usize,
        depth,
        input,
    };
    Ok((start, rest))
}

/// What comes after the last line of a head, which has this check.
fn after_begun<'a>(check: &[u8; CHECK_LENGTH], bytes: &'a [u8]) -> Result<&'a [u8], HeadFault>
    ensures { MatchResult result (λ rest. bytes.now ≡ (check.now ++ codes " begun\n") ++ rest.now)
        (FailsAt (check.now ++ codes " begun\n") bytes.now) }
{
    let rest = after(check, bytes)?;
    after(b" begun\n", rest)
}

/// Reads the head that some bytes begin with.
pub fn read_head(bytes: &[u8]) -> Result<Head<'_>, HeadFault>
    ensures head { IfOk result (λ head. bytes.now ≡ whole_head (beginning_in head.start) ++ head.rest.now) }
    ensures check { IfOk result (λ head. head.check ≡ first_check (beginning_in head.start)) }
    ensures fits { IfOk result (λ head. HasHead (beginning_in head.start)) }
    ensures none { OnErr result (HasNoHead bytes.now) }
    ensures fault { IfErr result (HeadFails bytes.now) }
{
    let (profile, rest) = after_version(bytes)?;
    let (start, rest) = start_after(profile, rest)?;
    let check = check_of(&bytes[..bytes.len() - rest.len()], b"begun\n");
    let rest = after_begun(&check, rest)?;
    Ok(Head { start, check, rest })
}
