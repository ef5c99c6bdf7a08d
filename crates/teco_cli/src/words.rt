//! The words that a program was called with, and the line that they say.
ghost use Rattle.clap.specs.Words.{Text};
ghost use Rattle.std.specs.Prelude.{◌≡◌, ℕ, List, IfErr, IfOk, codes, map};
ghost use Rattle.std.specs.String.{string_bytes};
ghost use Rattle.teco_cli.specs.Refusals.{IsFaulty};
ghost use Rattle.teco_cli.specs.Words.{AreNotGiven, IsFaultIn, IsLineIn, why_not_text};
ghost use Rattle.teco_cli.specs.declared.fault.LineFault.{LineFault};

use crate::fault::{LineFault, fault_of_words};
use crate::refusal::{Refusal, faulty};
use std::alloc::Global;
use std::env::FillError;
use std::io;
use std::rt::Env;
use teco_core::NoMemory;

/// The line of a program, which its words say.
pub trait CommandLine: Drop {
    // the usage, which the help and each faulty line show
    ghost usage: { List ℕ };

    // these words say this line
    ghost says: { List Text → Self → Type 0 };

    // so these words say no line
    ghost lacks: { List Text → LineFault → Type 0 };

    // what holds of each line
    ghost fits: { Self → Type 0 };

    /// The usage, which the help and each faulty line show.
    fn usage() -> &'static str
        ensures { result.now ≡ usage };

    /// What the words say, the program's name first.
    fn of_words(alloc: Global, words: Vec<String>) -> Result<Self, LineFault>
        ensures line { IfOk result (says (map string_bytes words.items)) }
        ensures fits { IfOk result fits }
        ensures fault { IfErr result (lacks (map string_bytes words.items)) };
}

/// One argument of a program, alone.
#[derive(Drop)]
struct OneArgument<'a, R> {
    rt: &'a R,
    number: usize,
}

impl<'a, R: Env> Env for OneArgument<'a, R> {
    fn arg(&self, i: usize, buf: &mut [u8]) -> Result<usize, FillError> {
        match i {
            0 => self.rt.arg(self.number, buf),
            _ => Err(FillError::NotPresent),
        }
    }

    fn var(&self, _name: &str, _buf: &mut [u8]) -> Result<usize, FillError> {
        Err(FillError::NotPresent)
    }

    fn var_at(&self, _i: usize, _buf: &mut [u8]) -> Result<usize, FillError> {
        Err(FillError::NotPresent)
    }
}

/// The number of the first argument that is not UTF-8, 0 for the program's name. There is none if memory was refused to look.
fn not_text_at<R: Env + AllocGlobal>(rt: &R) -> Option<usize> {
    for number in 0..usize::MAX {
        match std::env::args(&(OneArgument { rt, number }, rt.alloc())) {
            Ok(words) if words.len() > 0 => {}
            Ok(_) => return None,
            Err(error) if error.kind() == io::ErrorKind::InvalidData => return Some(number),
            Err(_) => return None,
        }
    }
    None
}

/// The refusal of a line with an argument that is not UTF-8, which is the one of this number.
pub fn not_text<L: CommandLine>(alloc: Global, number: Option<usize>) -> Result<Refusal, NoMemory>
    ensures { IfOk result (IsFaulty (why_not_text number) L.usage) }
{
    match number {
        Some(number) => {
            let why = format!(in alloc; "argument {number} is not UTF-8 text")?;
            faulty(alloc, why.as_str(), L::usage())
        }
        None => faulty(alloc, "an argument is not UTF-8 text", L::usage()),
    }
}

/// The words that the program was called with.
pub fn words_given<L: CommandLine, R: Env + AllocGlobal>(rt: &R) -> Result<Vec<String>, LineFault>
    ensures { IfErr result (AreNotGiven L.usage) }
{
    match std::env::args(rt) {
        Ok(words) => Ok(words.collect(rt.alloc())?),
        Err(error) => {
            let refusal = not_text::<L>(rt.alloc(), not_text_at(rt));
            Err(fault_of_words(error, refusal))
        }
    }
}

/// The line that the words say, where they were given.
pub fn line_in<L: CommandLine>(
    alloc: Global,
    words: Result<Vec<String>, LineFault>,
) -> Result<L, LineFault>
    ensures line { IfOk result (IsLineIn L.says words) }
    ensures fits { IfOk result L.fits }
    ensures fault { IfErr result (IsFaultIn L.lacks words) }
{
    match words {
        Ok(words) => L::of_words(alloc, words),
        Err(fault) => Err(fault),
    }
}
