//! What a code says.

ghost use Rattle.std.specs.Prelude.{◌≡◌, ◌++◌, OnOk};
ghost use Rattle.std.specs.String.{string_bytes};
ghost use Rattle.teco_messages.specs.Shown.{code_shown, code_shown_with, limit_reason, limit_shown, plain_reason, reason_shown, reason_with, sentence_of};

use std::fmt::Write;
use teco_core::{Code, NoMemory};

/// How large the limits are that a code may tell of.
#[derive(Clone, Copy)]
pub struct Limits {
    /// The most steps that a string may take.
    pub steps: u64,
    /// The most seconds that it may run, if it was broken off since they were over.
    pub seconds: Option<u64>,
    /// The most bytes that a text may have.
    pub bytes: u64,
}

/// A code in a few words.
pub fn sentence(code: Code) -> &'static str
    ensures { result.now ≡ sentence_of code }
{
    match code {
        Code::Arg => "wrong argument, or wrong arithmetic",
        Code::Bni => "> without its iteration",
        Code::Cpq => "nothing on the push-down list",
        Code::Dtb => "delete past the buffer",
        Code::Ice => "search text not allowed",
        Code::Iia => "insert with argument and text",
        Code::Ill => "no such command",
        Code::Ipa => "P with a number of at most 0",
        Code::Iqc => "no such test",
        Code::Iqn => "no such register",
        Code::Isa => "search count not allowed",
        Code::Iss => "no search text yet",
        Code::Mrp => "parenthesis open at a command",
        Code::Nae => "no number before =",
        Code::Naq => "no number before a test",
        Code::Nau => "no number before U",
        Code::Ovf => "number out of range",
        Code::Dvz => "division by zero",
        Code::Pdo => "too many open or pushed",
        Code::Pop => "place outside the buffer",
        Code::Sni => "; without an iteration",
        Code::Srh => "the search found nothing",
        Code::Tag => "no such tag to go to",
        Code::Utc => "text ends inside a command or block",
        Code::Yca => "page would replace a nonempty buffer",
        Code::Big => "a text or the output past its limit",
        Code::Lim => "step limit",
        Code::Mem => "memory refused",
        Code::Tty => "terminal failed",
        Code::Ntu => "nothing to undo",
        Code::Ntr => "nothing to redo",
        Code::End => "session is done",
    }
}

/// Shows a code and what it says.
pub fn show_code(out: &mut String, code: Code) -> Result<(), NoMemory>
    ensures { OnOk result (string_bytes out.new ≡ string_bytes out.old ++ code_shown code) }
{
    let said = sentence(code);
    write!(out, ": {code}, {said}")
}

/// Shows LIM: that a string has done all its steps; or, if it was broken off after some seconds, that these are over.
fn show_limit(out: &mut String, steps: u64, seconds: Option<u64>) -> Result<(), NoMemory>
    ensures { OnOk result (string_bytes out.new ≡ string_bytes out.old ++ limit_shown steps seconds) }
{
    match seconds {
        None => write!(out, ": LIM, {steps} steps are done: --limit N allows more"),
        Some(seconds) => write!(
            out,
            ": LIM, the time of {seconds} s is over: --seconds N allows more"
        ),
    }
}

/// Shows a code and what it says; where a limit is reached, how large it is and what helps.
pub fn show_code_with_limits(out: &mut String, code: Code, limits: Limits) -> Result<(), NoMemory>
    ensures { OnOk result (string_bytes out.new ≡ string_bytes out.old ++ code_shown_with limits code) }
{
    match code {
        Code::Lim => show_limit(out, limits.steps, limits.seconds),
        Code::Big => {
            let bytes = limits.bytes;
            write!(
                out,
                ": BIG, a text may have {bytes} bytes: --page-lines N makes smaller pages"
            )
        }
        _ => show_code(out, code),
    }
}

/// Shows a code, a colon and what it says.
fn show_plain_reason(out: &mut String, code: Code) -> Result<(), NoMemory>
    ensures { OnOk result (string_bytes out.new ≡ string_bytes out.old ++ plain_reason code) }
{
    let said = sentence(code);
    write!(out, "{code}: {said}")
}

/// The same of LIM: that a string has done all its steps, or that its seconds are over.
fn show_limit_reason(out: &mut String, steps: u64, seconds: Option<u64>) -> Result<(), NoMemory>
    ensures { OnOk result (string_bytes out.new ≡ string_bytes out.old ++ limit_reason steps seconds) }
{
    match seconds {
        None => write!(out, "LIM: {steps} steps are done: --limit N allows more"),
        Some(seconds) => write!(
            out,
            "LIM: the time of {seconds} s is over: --seconds N allows more"
        ),
    }
}

/// The same of any code; where a limit is reached, how large it is and what helps.
fn show_reason_with(out: &mut String, code: Code, limits: Limits) -> Result<(), NoMemory>
    ensures { OnOk result (string_bytes out.new ≡ string_bytes out.old ++ reason_with limits code) }
{
    match code {
        Code::Lim => show_limit_reason(out, limits.steps, limits.seconds),
        Code::Big => {
            let bytes = limits.bytes;
            write!(
                out,
                "BIG: a text may have {bytes} bytes: --page-lines N makes smaller pages"
            )
        }
        _ => show_plain_reason(out, code),
    }
}

/// Shows a code, a colon and what it says; where a limit is reached that is known, how large it is and what helps.
pub fn show_reason(out: &mut String, code: Code, limits: Option<Limits>) -> Result<(), NoMemory>
    ensures { OnOk result (string_bytes out.new ≡ string_bytes out.old ++ reason_shown limits code) }
{
    match limits {
        None => show_plain_reason(out, code),
        Some(limits) => show_reason_with(out, code, limits),
    }
}
