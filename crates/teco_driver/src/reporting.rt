//! The lines of a tool's manner: what is told on standard error of each end that is no written or unchanged file.
ghost use Rattle.std.specs.Prelude.{◌≡◌, ◌++◌, IfOk, OnOk};
ghost use Rattle.std.specs.String.{string_bytes};
ghost use Rattle.teco_driver.specs.Advice.{advice_of};
ghost use Rattle.teco_driver.specs.Reporting.{after_end, after_left, after_text, end_report, ends_without_exit, first_report, input_named, is_left, left_report, left_words, move_report, of_error, of_input, place_in_stream, refusal_report, run_report, stop_report, string_told, unwritten_report, where_told};
ghost use Rattle.teco_serve.specs.Explaining.{next_number};
ghost use Rattle.teco_session.specs.Answers.{answer_code};

use crate::ReadSources;
use crate::advice::advice_of;
use crate::placing::put_place;
use crate::stopping::{outer_place, place_had, put_reason};
use std::alloc::Global;
use std::fmt::Write;
use teco_cli::{Commands, Line};
use teco_core::{Code, NoMemory};
use teco_messages::{show_reason, show_spot};
use teco_serve::{
    Bounds, Fate, Served, Telling, are_fillers, line_of_end, line_of_left, lines_of_move,
    lines_of_run, next_number,
};
use teco_session::{Answered, Session};

/// Of how much it was told.
#[derive(Clone, Copy)]
pub(crate) struct Reporting {
    /// What `--explain` counts.
    pub(crate) telling: Telling,
    /// How many inputs of the line are done.
    pub(crate) inputs: usize,
    /// Whether a line was told of the input that is run over.
    pub(crate) has_told: bool,
}

impl Reporting {
    /// Before the first text.
    pub(crate) fn new(line: &Line) -> Reporting
        ensures { result ≡ first_report line.now }
    {
        Reporting {
            telling: Telling::new(line),
            inputs: 0,
            has_told: false,
        }
    }

    /// Once one more text was done, which stopped by a code or not.
    pub(crate) fn after_text(self, code: Option<Code>, session: &Session) -> Reporting
        ensures { result ≡ after_text self code session.now }
    {
        Reporting {
            telling: self.telling.counted(session),
            inputs: self.inputs,
            has_told: self.has_told || code.is_some(),
        }
    }

    /// Once it is told what was not run.
    pub(crate) fn after_left(self, bytes: &[u8], broken_off: bool) -> Reporting
        ensures { result ≡ after_left self bytes.now broken_off }
    {
        Reporting {
            telling: self.telling,
            inputs: self.inputs,
            has_told: self.has_told || is_left(bytes, broken_off),
        }
    }

    /// Before the first text of the next input.
    pub(crate) fn after_end(self) -> Reporting
        ensures { result ≡ after_end self }
    {
        Reporting {
            telling: self.telling.anew(),
            inputs: self.inputs.saturating_add(1),
            has_told: false,
        }
    }
}

/// Whether bytes come after the last pair of ESC, and are not fillers alone.
fn is_left(bytes: &[u8], broken_off: bool) -> bool
    ensures { result ≡ is_left bytes.now broken_off }
{
    !broken_off && !are_fillers(bytes)
}

/// The name of the input of this number, in the order of the line.
fn input_named(line: &Line, number: usize) -> &str
    ensures { result.now ≡ input_named line.now number }
{
    if number == 0 {
        return line.input.as_str();
    }
    match line.more.get(number - 1) {
        Some(name) => name.as_str(),
        None => "",
    }
}

/// Puts the beginning of a line, which names its input.
fn put_input(out: &mut String, input: &str) -> Result<(), NoMemory>
    ensures { OnOk result (string_bytes out.new ≡ string_bytes out.old ++ of_input input.now) }
{
    write!(out, "teco: {input}: ")
}

/// Puts how many bytes were not run.
fn put_left(out: &mut String, n: usize) -> Result<(), NoMemory>
    ensures { OnOk result (string_bytes out.new ≡ string_bytes out.old ++ left_words n) }
{
    if n == 1 {
        return out.push_str("1 byte after the last $$ was not run");
    }
    write!(out, "{n} bytes after the last $$ were not run")
}

/// Whether the run over an input ended since its commands did, without EX.
fn ends_without_exit(fate: Fate) -> bool
    ensures { result ≡ ends_without_exit fate }
{
    matches!(fate, Fate::Ended(Served::EndOfCommands))
}

/// Puts that an input whose commands ended without EX is not written, unless a line was told of it before.
fn put_unwritten(
    out: &mut String,
    advice: &str,
    has_told: bool,
    input: &str,
    fate: Fate,
) -> Result<(), NoMemory>
    ensures { OnOk result (string_bytes out.new
        ≡ string_bytes out.old ++ unwritten_report advice.now has_told input.now fate) }
{
    if has_told || !ends_without_exit(fate) {
        return Ok(());
    }
    put_input(out, input)?;
    out.push_str("not written, the commands ended without EX")?;
    out.push_str(advice)?;
    out.push_str("\n")
}

/// What the lines are made of: the line of the program, the sources of its commands, and of how much it was told.
#[derive(Clone, Copy)]
pub(crate) struct Reports<'a> {
    pub(crate) alloc: Global,
    pub(crate) line: &'a Line,
    pub(crate) parts: &'a ReadSources,
    pub(crate) reporting: Reporting,
}

/// What the lines are made of, from its parts.
pub(crate) fn reports_by<'a>(
    alloc: Global,
    line: &'a Line,
    parts: &'a ReadSources,
    reporting: Reporting,
) -> Reports<'a>
    ensures line { result.line.now ≡ line.now }
    ensures parts { result.parts.now ≡ parts.now }
    ensures reporting { result.reporting ≡ reporting }
{
    Reports {
        alloc,
        line,
        parts,
        reporting,
    }
}

impl Reports<'_> {
    /// What is told besides of the sources.
    fn advice(self) -> &'static str
        ensures { result.now ≡ advice_of self.entry.parts.now.list.items }
    {
        advice_of(self.parts.list())
    }

    /// Puts the string of a file that is no source, and the place in it; with `--explain` these come next.
    fn put_string(self, out: &mut String, text: &[u8], at: usize) -> Result<(), NoMemory>
        ensures { OnOk result (string_bytes out.new ≡ string_bytes out.old
            ++ string_told self.entry.line.now.explain (next_number self.entry.reporting.telling) text.now at) }
    {
        if self.line.explain {
            return Ok(());
        }
        let n = next_number(self.reporting.telling);
        write!(out, ": string {n}, ")?;
        show_spot(out, text, at)
    }

    /// Puts where an error is.
    fn put_where(
        self,
        out: &mut String,
        text: &[u8],
        begins: u64,
        at: usize,
    ) -> Result<(), NoMemory>
        ensures { OnOk result (string_bytes out.new ≡ string_bytes out.old
            ++ where_told self.entry.line.now self.entry.parts.now.list.items
            (next_number self.entry.reporting.telling) text.now begins at) }
    {
        match &self.line.commands {
            Commands::Bytes(name) => {
                out.push_str(name.as_str())?;
                self.put_string(out, text, at)
            }
            Commands::StandardInput | Commands::Sources(..) | Commands::Pages(_) => {
                let place = begins.saturating_add(at as u64) as usize;
                put_place(
                    self.alloc,
                    out,
                    &self.line.commands,
                    self.parts.list(),
                    place,
                )
            }
        }
    }

    /// Puts the input and the place of an error.
    fn put_error(
        self,
        out: &mut String,
        text: &[u8],
        begins: u64,
        at: usize,
    ) -> Result<(), NoMemory>
        ensures { OnOk result (string_bytes out.new ≡ string_bytes out.old
            ++ of_error self.entry.line.now self.entry.parts.now.list.items self.entry.reporting text.now begins at) }
    {
        put_input(out, input_named(self.line, self.reporting.inputs))?;
        self.put_where(out, text, begins, at)
    }

    /// Puts where and why a string stopped, if it stopped by a code.
    fn put_stop(
        self,
        out: &mut String,
        text: &[u8],
        begins: u64,
        answered: &Answered,
        bounds: Bounds,
        session: &Session,
    ) -> Result<(), NoMemory>
        ensures { OnOk result (string_bytes out.new ≡ string_bytes out.old
            ++ stop_report self.entry.line.now self.entry.parts.now.list.items self.entry.reporting text.now begins answered.now bounds
            session.now (answer_code answered.now.answer)) }
    {
        let Some(code) = answered.answer.code() else {
            return Ok(());
        };
        self.put_error(out, text, begins, outer_place(place_had(answered)))?;
        if self.line.explain {
            return out.push_str(": ");
        }
        put_reason(out, text, answered, bounds, session, code, self.advice())
    }

    /// What is told of a text that was run.
    pub(crate) fn of_run(
        self,
        text: &[u8],
        begins: u64,
        answered: &Answered,
        bounds: Bounds,
        session: &Session,
    ) -> Result<String, NoMemory>
        ensures { IfOk result (λ lines. string_bytes lines ≡ run_report self.entry.line.now
            self.entry.parts.now.list.items self.entry.reporting text.now begins answered.now bounds session.now) }
    {
        let mut lines = String::new(self.alloc);
        self.put_stop(&mut lines, text, begins, answered, bounds, session)?;
        if self.line.explain {
            let telling = self.reporting.telling;
            let explained = lines_of_run(self.alloc, telling, bounds, text, answered, session)?;
            lines.push_str(explained.as_str())?;
        }
        Ok(lines)
    }

    /// Puts why an undo, a redo or a rewind was refused, if it was.
    fn put_refusal(self, out: &mut String, begins: u64, code: Option<Code>) -> Result<(), NoMemory>
        ensures { OnOk result (string_bytes out.new ≡ string_bytes out.old ++ refusal_report self.entry.line.now
            self.entry.parts.now.list.items self.entry.reporting begins code) }
    {
        let Some(code) = code else {
            return Ok(());
        };
        self.put_error(out, b"", begins, 0)?;
        out.push_str(": ")?;
        if self.line.explain {
            return Ok(());
        }
        show_reason(out, code, None)?;
        out.push_str(self.advice())?;
        out.push_str("\n")
    }

    /// What is told of a text that asked for undos, redos or a rewind.
    pub(crate) fn of_move(
        self,
        begins: u64,
        code: Option<Code>,
        session: &Session,
    ) -> Result<String, NoMemory>
        ensures { IfOk result (λ lines. string_bytes lines ≡ move_report self.entry.line.now
            self.entry.parts.now.list.items self.entry.reporting begins code session.now) }
    {
        let mut lines = String::new(self.alloc);
        self.put_refusal(&mut lines, begins, code)?;
        if self.line.explain {
            let explained = lines_of_move(self.alloc, self.reporting.telling, code, session)?;
            lines.push_str(explained.as_str())?;
        }
        Ok(lines)
    }

    /// What is told of bytes that were not run.
    pub(crate) fn of_left(self, bytes: &[u8], broken_off: bool) -> Result<String, NoMemory>
        ensures { IfOk result (λ lines. string_bytes lines
            ≡ left_report self.entry.line.now self.entry.parts.now.list.items self.entry.reporting bytes.now broken_off) }
    {
        let mut lines = String::new(self.alloc);
        if is_left(bytes, broken_off) {
            put_input(&mut lines, input_named(self.line, self.reporting.inputs))?;
            put_left(&mut lines, bytes.len())?;
            lines.push_str(self.advice())?;
            lines.push_str("\n")?;
            return Ok(lines);
        }
        if broken_off && self.line.explain {
            return line_of_left(self.alloc, bytes, broken_off);
        }
        Ok(lines)
    }

    /// What is told of how the run over an input ended.
    pub(crate) fn of_end(self, input: &str, fate: Fate) -> Result<String, NoMemory>
        ensures { IfOk result (λ lines. string_bytes lines
            ≡ end_report self.entry.line.now self.entry.parts.now.list.items self.entry.reporting input.now fate) }
    {
        if self.line.explain {
            return line_of_end(self.alloc, self.line, input, fate);
        }
        let mut lines = String::new(self.alloc);
        let advice = self.advice();
        put_unwritten(&mut lines, advice, self.reporting.has_told, input, fate)?;
        Ok(lines)
    }
}
