//! What a line puts into registers.
ghost use Rattle.std.specs.Prelude.{◌++◌, IfOk, MatchOption, codes};
ghost use Rattle.teco_cli.specs.Assignments.{HasNoMark, IsAssignment, IsNoAssignment, Assigns, AssignsNothing};

use std::alloc::Global;
use teco_core::{NoMemory, Reg};

/// What is put into a register: a text in the place of its text, or a number in the place of its number.
#[derive(Drop)]
pub enum AssignedValue {
    /// The bytes of its text.
    Text(Vec<u8>),
    /// Its number.
    Number(i32),
}

/// What is put into a register before the first command string.
#[derive(Drop)]
pub struct Assignment {
    /// The register.
    pub register: Reg,
    /// What is put there.
    pub value: AssignedValue,
}

/// What is put into a register, if what stands after its name says it: these bytes, `=` and a text.
fn value_of(alloc: Global, before: &[u8], text: &str) -> Result<Option<AssignedValue>, NoMemory>
    requires first { HasNoMark before.now }
    ensures { IfOk result (λ found. MatchOption found
        (AssignsNothing (before.now ++ (codes "=" ++ text.now))) (Assigns (before.now ++ (codes "=" ++ text.now)))) }
{
    if before.is_empty() {
        let text = Vec::from_slice(alloc, text.as_bytes())?;
        return Ok(Some(AssignedValue::Text(text)));
    }
    if before != b":".as_slice() {
        return Ok(None);
    }
    match text.parse::<i32>() {
        Ok(number) => Ok(Some(AssignedValue::Number(number))),
        Err(_) => Ok(None),
    }
}

/// The assignment that a word is, if it is one: `A=TEXT` or `A:=N`.
pub fn assignment_in(alloc: Global, word: &str) -> Result<Option<Assignment>, NoMemory>
    ensures { IfOk result (λ found. MatchOption found (IsNoAssignment word.now) (IsAssignment word.now)) }
{
    let Some((front, text)) = word.split_once('=') else {
        return Ok(None);
    };
    let Some((name, before)) = front.as_bytes().split_first() else {
        return Ok(None);
    };
    let Some(register) = Reg::of(*name) else {
        return Ok(None);
    };
    match value_of(alloc, before, text)? {
        Some(value) => Ok(Some(Assignment { register, value })),
        None => Ok(None),
    }
}
