//! The commands, a line each.
ghost use Rattle.std.specs.List.{prefix_len, suffix_len};
ghost use Rattle.std.specs.Prelude.{◌≡◌, ℕ, ◌≤◌, length, not, Result, Some};
ghost use Rattle.teco_debugger.specs.Number.{number_in};
ghost use Rattle.teco_debugger.specs.Commands.{again_after, after_word, break_at, break_if, break_in, command_in, command_of, find, given, is_blank, is_empty_line, last_piece, part_in, register_in, is_tested, source_named, stop_behind, stop_in, stop_of, stop_or_list, test_in, behind_if, watch_in, watched_by, watched_in, watched_register, way_in, without_blanks_after, without_blanks_before, words_of};

use crate::number::number_in;
use crate::part::Part;
use crate::sources::SourceText;
use crate::stops::{Stop, line_stop};
use crate::verb::{Counted, Plain, Takes, takes_of};
use crate::watching::{Watch, Way};
use std::error::Error;
use std::fmt;
use teco_core::Reg;

/// What is asked.
#[derive(Clone, Copy)]
pub enum DebuggerCommand {
    Plain(Plain),
    Counted(Counted, u64),
    Register(Reg),
    /// The changes of a register.
    History(Reg),
    /// Back to before the last change of the part.
    Find(Part),
    /// A place more to stop at.
    Break(Stop),
    /// The same, if the string behind `if` in the line gives a number other than 0 there.
    BreakIf(Stop),
    /// To the nearest step, this way, where what is watched differs.
    Watch(Watch, Way),
}

/// Why a line is no command.
#[derive(Clone, Copy, Debug)]
pub enum CommandFault {
    NoCommand,
    NoNumber,
    NoRegister,
    NoPlace,
    NoSource,
    NoString,
    NoWatch,
    TooMuch,
    NoneBefore,
}

impl CommandFault {
    /// The fault in words.
    fn words(self) -> &'static str
        ensures { result.now ≡ words_of self }
    {
        match self {
            CommandFault::NoCommand => "no such command; help lists them",
            CommandFault::NoNumber => "a number is wanted",
            CommandFault::NoRegister => "a register is wanted, A to Z or 0 to 9",
            CommandFault::NoPlace => "a place is wanted, as LINE, LINE:COLUMN or FILE:LINE",
            CommandFault::NoSource => "no source has this name",
            CommandFault::NoString => "a string is wanted after if",
            CommandFault::NoWatch => "a register, . or Z is wanted, and then back or nothing",
            CommandFault::TooMuch => "nothing is wanted after this command",
            CommandFault::NoneBefore => "no command to do again",
        }
    }
}

impl fmt::Display for CommandFault {
    ghost output = { λ fault. Some (words_of fault) };

    fn fmt<W: fmt::Write>(&self, f: &mut fmt::Formatter<W>) -> fmt::Result {
        f.write_str(self.words())
    }
}

impl Error for CommandFault {}

fn after_blanks(bytes: &[u8]) -> &[u8]
    ensures { result.now ≡ without_blanks_before bytes.now }
{
    let mut start = 0;
    while start < bytes.len() && bytes[start] <= b' ' {
        start += 1;
    }
    &bytes[start..]
}

fn before_blanks(bytes: &[u8]) -> &[u8]
    ensures { result.now ≡ without_blanks_after bytes.now }
{
    let mut end = bytes.len();
    while end > 0 && bytes[end - 1] <= b' ' {
        end -= 1;
    }
    &bytes[..end]
}

/// Whether a line has blanks alone.
pub fn is_empty_line(line: &[u8]) -> bool
    ensures { result ≡ is_empty_line line.now }
{
    before_blanks(line).is_empty()
}

/// Where the first word ends.
fn word_end(bytes: &[u8]) -> usize
    ensures value { result ≡ prefix_len (λ b. not (is_blank b)) bytes.now }
    ensures within { result ≤ length bytes.now }
{
    let mut end = 0;
    while end < bytes.len() && bytes[end] > b' ' {
        end += 1;
    }
    end
}

fn register_in(bytes: &[u8]) -> Result<Reg, CommandFault>
    ensures { result ≡ register_in bytes.now }
{
    match bytes {
        [byte] => match Reg::of(*byte) {
            Some(q) => Ok(q),
            None => Err(CommandFault::NoRegister),
        },
        _ => Err(CommandFault::NoRegister),
    }
}

/// The command that finds the part.
fn find_in(bytes: &[u8]) -> Result<DebuggerCommand, CommandFault>
    ensures { result ≡ given find (part_in bytes.now) }
{
    if bytes == b"text".as_slice() {
        return Ok(DebuggerCommand::Find(Part::Buffer));
    }
    Ok(DebuggerCommand::Find(Part::Register(register_in(bytes)?)))
}

/// Where the last of the pieces begins that colons part.
fn last_piece(bytes: &[u8]) -> usize
    ensures value { result ≡ last_piece bytes.now }
    ensures within { result ≤ length bytes.now }
{
    let mut start = bytes.len();
    while start > 0 && bytes[start - 1] != b':' {
        start -= 1;
    }
    start
}

/// The number of the first source of this name.
fn source_named(sources: &[SourceText], name: &[u8]) -> Option<usize>
    ensures { result ≡ source_named sources.now name.now 0 }
{
    for (number, source) in sources.iter().enumerate() {
        if name == source.name.as_bytes() {
            return Some(number);
        }
    }
    None
}

/// A place in the source of this name.
fn stop_in_source(
    sources: &[SourceText],
    name: &[u8],
    line: u64,
    column: Option<u64>,
) -> Result<Stop, CommandFault>
    ensures { result ≡ stop_of (source_named sources.now name.now 0) line column }
{
    match source_named(sources, name) {
        Some(number) => Ok(Stop {
            source: Some(number),
            line,
            column,
        }),
        None => Err(CommandFault::NoSource),
    }
}

/// The place to stop at, of which these bytes stand before a colon and a number.
fn stop_behind(sources: &[SourceText], front: &[u8], last: u64) -> Result<Stop, CommandFault>
    ensures { result ≡ stop_behind sources.now front.now last (number_in front.now) }
{
    if let Ok(line) = number_in(front) {
        return Ok(Stop {
            source: None,
            line,
            column: Some(last),
        });
    }
    let start = last_piece(front);
    match number_in(&front[start..]) {
        Ok(line) => {
            let name = &front[..start.saturating_sub(1)];
            stop_in_source(sources, name, line, Some(last))
        }
        Err(_) => stop_in_source(sources, front, last, None),
    }
}

/// The place to stop at.
fn stop_in(sources: &[SourceText], bytes: &[u8]) -> Result<Stop, CommandFault>
    ensures { result ≡ stop_in sources.now bytes.now }
{
    let start = last_piece(bytes);
    match number_in(&bytes[start..]) {
        Err(_) => Err(CommandFault::NoPlace),
        Ok(line) if start == 0 => Ok(line_stop(line)),
        Ok(last) => stop_behind(sources, &bytes[..start - 1], last),
    }
}

/// What comes after the first word.
fn after_word(bytes: &[u8]) -> &[u8]
    ensures { result.now ≡ after_word bytes.now }
{
    after_blanks(&bytes[word_end(bytes)..])
}

/// The string behind a place and the word `if`.
fn behind_if(bytes: &[u8]) -> &[u8]
    ensures { result.now ≡ behind_if bytes.now }
{
    after_word(after_word(bytes))
}

/// The string behind the word `if` in a line.
pub fn test_in(line: &[u8]) -> &[u8]
    ensures { result.now ≡ test_in line.now }
{
    behind_if(after_word(after_blanks(before_blanks(line))))
}

/// Whether the word `if` comes after the first word.
fn is_tested(bytes: &[u8]) -> bool
    ensures { result ≡ is_tested bytes.now }
{
    let rest = after_word(bytes);
    &rest[..word_end(rest)] == b"if".as_slice()
}

/// The command that notes a place to stop at where a string gives a number other than 0.
fn break_if(sources: &[SourceText], bytes: &[u8]) -> Result<DebuggerCommand, CommandFault>
    ensures { result ≡ break_if sources.now bytes.now }
{
    if behind_if(bytes).is_empty() {
        return Err(CommandFault::NoString);
    }
    let place = &bytes[..word_end(bytes)];
    Ok(DebuggerCommand::BreakIf(stop_in(sources, place)?))
}

/// The command that notes a place to stop at.
fn break_in(sources: &[SourceText], bytes: &[u8]) -> Result<DebuggerCommand, CommandFault>
    ensures { result ≡ break_in sources.now bytes.now }
{
    if is_tested(bytes) {
        return break_if(sources, bytes);
    }
    Ok(DebuggerCommand::Break(stop_in(sources, bytes)?))
}

/// The command that notes a place to stop at, or lists them.
fn stop_or_list(sources: &[SourceText], bytes: &[u8]) -> Result<DebuggerCommand, CommandFault>
    ensures { result ≡ stop_or_list sources.now bytes.now }
{
    if bytes.is_empty() {
        return Ok(DebuggerCommand::Plain(Plain::Breaks));
    }
    break_in(sources, bytes)
}

/// The register of this name, to be watched.
fn watched_register(byte: u8) -> Result<Watch, CommandFault>
    ensures { result ≡ watched_register byte }
{
    match Reg::of(byte) {
        Some(q) => Ok(Watch::Register(q)),
        None => Err(CommandFault::NoWatch),
    }
}

/// What is watched that one byte names.
fn watched_by(byte: u8) -> Result<Watch, CommandFault>
    ensures { result ≡ watched_by byte }
{
    if byte == b'.' {
        return Ok(Watch::Pointer);
    }
    if byte.to_ascii_uppercase() == b'Z' {
        return Ok(Watch::Length);
    }
    watched_register(byte)
}

/// What is watched.
fn watched_in(bytes: &[u8]) -> Result<Watch, CommandFault>
    ensures { result ≡ watched_in bytes.now }
{
    match bytes {
        [byte] => watched_by(*byte),
        [q, byte] if q.to_ascii_uppercase() == b'Q' => watched_register(*byte),
        _ => Err(CommandFault::NoWatch),
    }
}

/// Which way to go.
fn way_in(bytes: &[u8]) -> Result<Way, CommandFault>
    ensures { result ≡ way_in bytes.now }
{
    if bytes.is_empty() {
        return Ok(Way::On);
    }
    if bytes == b"back".as_slice() {
        return Ok(Way::Back);
    }
    Err(CommandFault::NoWatch)
}

/// The command that watches.
fn watch_in(bytes: &[u8]) -> Result<DebuggerCommand, CommandFault>
    ensures { result ≡ watch_in bytes.now }
{
    let end = word_end(bytes);
    let watched = watched_in(&bytes[..end])?;
    let way = way_in(after_blanks(&bytes[end..]))?;
    Ok(DebuggerCommand::Watch(watched, way))
}

/// The command that takes this, with these bytes after its word.
fn command_in(
    sources: &[SourceText],
    takes: Takes,
    bytes: &[u8],
) -> Result<DebuggerCommand, CommandFault>
    ensures { result ≡ command_in sources.now takes bytes.now }
{
    match takes {
        Takes::Nothing(plain) if bytes.is_empty() => Ok(DebuggerCommand::Plain(plain)),
        Takes::Nothing(_) => Err(CommandFault::TooMuch),
        Takes::NumberOr(counted, otherwise) if bytes.is_empty() => {
            Ok(DebuggerCommand::Counted(counted, otherwise))
        }
        Takes::Number(counted) | Takes::NumberOr(counted, _) => {
            Ok(DebuggerCommand::Counted(counted, number_in(bytes)?))
        }
        Takes::Register => Ok(DebuggerCommand::Register(register_in(bytes)?)),
        Takes::History => Ok(DebuggerCommand::History(register_in(bytes)?)),
        Takes::Part => find_in(bytes),
        Takes::Stop => stop_or_list(sources, bytes),
        Takes::Watch => watch_in(bytes),
    }
}

impl DebuggerCommand {
    /// The command of a line, if the string has these sources: its first word tells which, and what comes after it is the operand.
    /// Blanks around both are passed.
    pub fn of(sources: &[SourceText], line: &[u8]) -> Result<DebuggerCommand, CommandFault>
        ensures { result ≡ command_of sources.now line.now }
    {
        let bytes = after_blanks(before_blanks(line));
        let end = word_end(bytes);
        match takes_of(&bytes[..end]) {
            Some(takes) => command_in(sources, takes, after_blanks(&bytes[end..])),
            None => Err(CommandFault::NoCommand),
        }
    }

    /// The command that an empty line after this one asks for: the same, if it moves or shows.
    pub fn again(&self) -> Option<DebuggerCommand>
        ensures { result ≡ again_after self.now }
    {
        match self {
            DebuggerCommand::Break(_)
            | DebuggerCommand::BreakIf(_)
            | DebuggerCommand::Counted(Counted::Delete, _) => None,
            _ => Some(*self),
        }
    }
}
