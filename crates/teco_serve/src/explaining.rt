//! The lines of `--explain`: what is told of each text of the stream, and of how a run ended.
ghost use Rattle.std.specs.Prelude.{◌≡◌, ◌++◌, ◌∷◌, [], IfOk, OnOk};
ghost use Rattle.std.specs.List.{list_all};
ghost use Rattle.std.specs.String.{string_bytes};
ghost use Rattle.teco_core.specs.Ascii.{is_filler};
ghost use Rattle.teco_serve.specs.Ending.{output_of};
ghost use Rattle.teco_serve.specs.Explaining.{after_what, anew, beginning_of, counted, end_line, exit_line, exits_first, history_line, is_bare_exit, is_turn, left_line, limits_after, move_lines, next_number, place_had, profile_line, refusal_line, run_lines, seconds_after, steps_line, steps_told, stop_line};
ghost use Rattle.teco_session.specs.Answers.{answer_code, outcome_of};

use crate::alarm::Bounds;
use crate::fate::{Fate, output_name};
use crate::served::Served;
use std::alloc::Global;
use std::fmt::Write;
use teco_cli::Line;
use teco_core::{Code, NoMemory, Profile, TEXT_LIMIT, is_filler};
use teco_exec::Outcome;
use teco_messages::{Limits, show_code, show_stop};
use teco_session::{Answer, Answered, Changes, Session};
use teco_store::{ChangeKind, Desk};

/// What is told of an exit before any page was read.
const COPIED: &str = "EX came before any page was read: the input is copied\n";

/// What is told besides the codes, and of how much it was told.
#[derive(Clone, Copy)]
pub struct Telling {
    /// Whether what was done for each text is told too.
    pub counts: bool,
    /// How many texts were done.
    pub texts: u64,
    /// How much of the input was read when the last one was done.
    pub place: usize,
}

/// The number of the next text.
pub fn next_number(telling: Telling) -> u64
    ensures { result ≡ next_number telling }
{
    telling.texts.saturating_add(1)
}

impl Telling {
    /// Before the first text: what the line wants told.
    pub fn new(line: &Line) -> Telling
        ensures { result ≡ beginning_of line.now }
    {
        Telling {
            counts: line.prompt,
            texts: 0,
            place: 0,
        }
    }

    /// The same once one more text was done.
    pub fn counted(self, session: &Session) -> Telling
        ensures { result ≡ counted session.now self }
    {
        Telling {
            counts: self.counts,
            texts: next_number(self),
            place: session.editor().place(),
        }
    }

    /// The same before the first text of the next input.
    pub fn anew(self) -> Telling
        ensures { result ≡ anew self }
    {
        Telling {
            counts: self.counts,
            texts: 0,
            place: 0,
        }
    }
}

/// How a string ended, if one was run.
pub fn outcome_of(answer: Answer) -> Option<Outcome>
    ensures { result ≡ outcome_of answer }
{
    match answer {
        Answer::Ended(outcome) => Some(outcome),
        _ => None,
    }
}

/// The seconds that are told of a string: those of one that was broken off, since it had steps left.
fn seconds_after(bounds: Bounds, ended: Option<Outcome>) -> Option<u64>
    ensures { result ≡ seconds_after bounds ended }
{
    match ended {
        Some(outcome) if outcome.steps < bounds.steps => bounds.seconds,
        _ => None,
    }
}

/// How large the limits are of a string that ran within these bounds.
pub fn limits_after(bounds: Bounds, ended: Option<Outcome>) -> Limits
    ensures { result ≡ limits_after bounds ended }
{
    Limits {
        steps: bounds.steps,
        seconds: seconds_after(bounds, ended),
        bytes: TEXT_LIMIT as u64,
    }
}

/// Tells why the text of number `n` that was run stopped, if it has a code.
fn tell_stop(
    out: &mut String,
    n: u64,
    bounds: Bounds,
    text: &[u8],
    answered: &Answered,
    session: &Session,
) -> Result<(), NoMemory>
    ensures { OnOk result (string_bytes out.new ≡ string_bytes out.old
        ++ stop_line n bounds text.now answered.now session.now (answer_code answered.now.answer)) }
{
    let Some(code) = answered.answer.code() else {
        return Ok(());
    };
    let place = match &answered.place {
        Ok(place) => place.as_ref(),
        Err(NoMemory) => None,
    };
    let limits = limits_after(bounds, outcome_of(answered.answer));
    let registers = session.editor().registers();
    let profile = session.editor().profile();
    write!(out, "string {n}")?;
    show_stop(out, profile, place, registers, text, code, Some(limits))?;
    out.push_str("\n")
}

fn tell_steps_taken(out: &mut String, n: u64, steps: u64) -> Result<(), NoMemory>
    ensures { OnOk result (string_bytes out.new ≡ string_bytes out.old ++ steps_line n steps) }
{
    writeln!(out, "string {n}: steps taken {steps}")
}

/// Tells with the first text which language the commands are in, if that is the wide one.
fn tell_profile(out: &mut String, n: u64, profile: Profile) -> Result<(), NoMemory>
    ensures { OnOk result (string_bytes out.new ≡ string_bytes out.old ++ profile_line n profile) }
{
    match profile {
        Profile::Wide if n == 1 => out.push_str("the commands are in the wide language\n"),
        _ => Ok(()),
    }
}

/// Tells how many steps the text of number `n` took, if that is wanted and it was begun.
fn tell_steps(
    out: &mut String,
    n: u64,
    wanted: bool,
    ended: Option<Outcome>,
) -> Result<(), NoMemory>
    ensures { OnOk result (string_bytes out.new ≡ string_bytes out.old ++ steps_told n wanted ended) }
{
    if !wanted {
        return Ok(());
    }
    match ended {
        None => Ok(()),
        Some(outcome) => tell_steps_taken(out, n, outcome.steps),
    }
}

fn is_turn(kind: ChangeKind) -> bool
    ensures { result ≡ is_turn kind }
{
    matches!(kind, ChangeKind::Pages)
}

/// Whether a string that exited has read no page: its exit alone moved the place in the input.
fn is_bare_exit(changes: &Changes) -> bool
    ensures { result ≡ is_bare_exit changes.now }
{
    let mut turns: usize = 0;
    for k in 0..changes.len() {
        if is_turn(changes.kind(k)) {
            turns += 1;
        }
    }
    turns < 2
}

/// Whether the last string has made the session done, and its exit was the first to read of the input. Nothing is read of an empty one,
/// so there it isn't seen whether a page came first.
fn exits_first(place: usize, session: &Session, ended: Option<Outcome>) -> bool
    ensures { result ≡ exits_first place session.now ended }
{
    if ended.is_none() {
        return false;
    }
    let last = session.cursor().saturating_sub(1);
    session.editor().done()
        && place == 0
        && session.editor().place() > 0
        && last < session.strings()
        && is_bare_exit(session.entry(last))
}

/// Tells of an exit before any page was read, since most of them were meant to come after one.
fn tell_exit(
    out: &mut String,
    place: usize,
    session: &Session,
    ended: Option<Outcome>,
) -> Result<(), NoMemory>
    ensures { OnOk result (string_bytes out.new ≡ string_bytes out.old ++ exit_line place session.now ended) }
{
    if exits_first(place, session, ended) {
        return out.push_str(COPIED);
    }
    Ok(())
}

/// What is told of the next text, which was run.
pub fn lines_of_run(
    alloc: Global,
    telling: Telling,
    bounds: Bounds,
    text: &[u8],
    answered: &Answered,
    session: &Session,
) -> Result<String, NoMemory>
    ensures { IfOk result (λ lines. string_bytes lines ≡ run_lines telling bounds text.now answered.now session.now) }
{
    let n = next_number(telling);
    let ended = outcome_of(answered.answer);
    let mut lines = String::new(alloc);
    tell_stop(&mut lines, n, bounds, text, answered, session)?;
    tell_profile(&mut lines, n, session.editor().profile())?;
    tell_steps(&mut lines, n, telling.counts, ended)?;
    tell_exit(&mut lines, telling.place, session, ended)?;
    Ok(lines)
}

/// Tells why undos, redos or a rewind were refused, if they were.
fn tell_refusal(out: &mut String, n: u64, code: Option<Code>) -> Result<(), NoMemory>
    ensures { OnOk result (string_bytes out.new ≡ string_bytes out.old ++ refusal_line n code) }
{
    let Some(code) = code else {
        return Ok(());
    };
    write!(out, "string {n}")?;
    show_code(out, code)?;
    out.push_str("\n")
}

/// Tells how many strings can be undone and redone, if that is wanted.
fn tell_history(out: &mut String, n: u64, wanted: bool, session: &Session) -> Result<(), NoMemory>
    ensures { OnOk result (string_bytes out.new ≡ string_bytes out.old ++ history_line n wanted session.now) }
{
    if !wanted {
        return Ok(());
    }
    let before = session.cursor();
    let after = session.strings().saturating_sub(before);
    writeln!(out, "string {n}: strings to undo {before}, to redo {after}")
}

/// What is told of the next text, which asked for undos, redos or a rewind.
pub fn lines_of_move(
    alloc: Global,
    telling: Telling,
    code: Option<Code>,
    session: &Session,
) -> Result<String, NoMemory>
    ensures { IfOk result (λ lines. string_bytes lines ≡ move_lines telling code session.now) }
{
    let n = next_number(telling);
    let mut lines = String::new(alloc);
    tell_refusal(&mut lines, n, code)?;
    tell_profile(&mut lines, n, session.editor().profile())?;
    tell_history(&mut lines, n, telling.counts, session)?;
    Ok(lines)
}

/// After what the bytes come that were not run.
fn after_what(broken_off: bool) -> &'static str
    ensures { result.now ≡ after_what broken_off }
{
    if broken_off {
        "the last string that ran"
    } else {
        "the last ESC ESC"
    }
}

/// Whether bytes are fillers alone.
pub fn are_fillers(bytes: &[u8]) -> bool
    ensures { result ≡ list_all is_filler bytes.now }
{
    bytes.iter().all(|byte| is_filler(*byte))
}

/// What is told of bytes that were not run, if they are not fillers alone.
pub fn line_of_left(alloc: Global, bytes: &[u8], broken_off: bool) -> Result<String, NoMemory>
    ensures { IfOk result (λ line. string_bytes line ≡ left_line bytes.now broken_off) }
{
    if are_fillers(bytes) {
        return Ok(String::new(alloc));
    }
    let n = bytes.len();
    let after = after_what(broken_off);
    if n == 1 {
        return format!(in alloc; "1 byte after {after} was not run\n");
    }
    format!(in alloc; "{n} bytes after {after} were not run\n")
}

/// A line about a file, whose name comes between two texts.
fn line_about(alloc: Global, before: &str, name: &str, after: &str) -> Result<String, NoMemory>
    ensures { IfOk result (λ line. string_bytes line ≡ before.now ++ name.now ++ after.now ++ 10 ∷ []) }
{
    format!(in alloc; "{before}{name}{after}\n")
}

/// What is told of how the run over an input ended, by the name of its output: what became of that.
fn line_by_name(alloc: Global, output: &str, fate: Fate) -> Result<String, NoMemory>
    ensures { IfOk result (λ line. string_bytes line ≡ end_line output.now fate) }
{
    match fate {
        Fate::NoCommands(_) => Ok(String::new(alloc)),
        Fate::Unchanged => line_about(alloc, "", output, " is unchanged"),
        Fate::Lacking(_) => line_about(alloc, "", output, " is written"),
        Fate::Ended(Served::Exit) => line_about(alloc, "", output, " is written"),
        Fate::Ended(Served::EndOfCommands) => line_about(
            alloc,
            "the commands ended without EX: ",
            output,
            " is not written",
        ),
        Fate::NoInput(_)
        | Fate::NoOutput(_)
        | Fate::NoBackup(_)
        | Fate::NotRegular
        | Fate::LargeInput
        | Fate::NoMemory
        | Fate::Changed
        | Fate::Ended(Served::ReadFault)
        | Fate::Ended(Served::ShowFault)
        | Fate::Ended(Served::NoMemory) => line_about(alloc, "", output, " is not written"),
    }
}

/// What is told of how the run over this input of the line ended.
pub fn line_of_end(alloc: Global, line: &Line, input: &str, fate: Fate) -> Result<String, NoMemory>
    ensures { IfOk result (λ text. string_bytes text ≡ end_line (output_of line.now input.now) fate) }
{
    let output = output_name(alloc, line, input)?;
    line_by_name(alloc, output.as_str(), fate)
}
