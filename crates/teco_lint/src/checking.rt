//! Checking commands: their faults and hints, in order.
ghost use Rattle.std.specs.Prelude.{◌≡◌, false, true, Bool, IfOk};
ghost use Rattle.teco_check.specs.Checked.{held};
ghost use Rattle.teco_check.specs.Clean.{IsClean};
ghost use Rattle.teco_lint.specs.Told.{IsTold, TellsFirst, tells_fault};
ghost use Rattle.teco_lint.specs.Calls.{AreCalled, AreCalledOver};
ghost use Rattle.teco_lint.specs.Faults.{has_fault, is_faulty, is_faulty_string};
ghost use Rattle.teco_lint.specs.Right.{AreRight, IsRightString};
ghost use Rattle.teco_lint.specs.Strings.{AreTold, is_request, is_unclean, is_unclean_string, is_unclean_text, strings_of};

use crate::calling::{RegisterUses, registers_in};
use crate::cutting::string_end;
use crate::faults::push_faults;
use crate::hinting::{Hinting, push_hints, push_last_hints};
use crate::listing::push_both;
use crate::remarks::{Hint, Remark};
use crate::requests::is_request;
use std::alloc::Global;
use teco_check::{MOST_TEXTS, REGISTERS, fault_of, first_fault_by_tags};
use teco_core::{NoMemory, Profile, Registers};
use teco_scan::{ends_in_escape, filler_end};

/// What is told of commands.
#[derive(Drop)]
pub struct Advice {
    /// The registers that hold code: those that are called.
    pub code: [bool; REGISTERS],
    /// Whether a command string has a fault.
    pub is_faulty: bool,
    /// Whether a command string has a fault, or something that no check looks into.
    pub is_unclean: bool,
    /// The remarks, in the order of their places.
    pub remarks: Vec<Remark>,
}

/// What is found in a text.
#[derive(Clone, Copy)]
pub struct Flaws {
    /// Whether it has a fault.
    pub is_faulty: bool,
    /// Whether it has a fault, or something that no check looks into.
    pub is_unclean: bool,
}

/// What is found in a clean text.
const NO_FLAWS: Flaws = Flaws {
    is_faulty: false,
    is_unclean: false,
};

/// What is found in a text of which something is told, that is a fault or not.
fn flawed(is_faulty: bool) -> Flaws
    ensures faulty { result.is_faulty ≡ is_faulty }
    ensures unclean { result.is_unclean ≡ true }
{
    Flaws {
        is_faulty,
        is_unclean: true,
    }
}

/// Checks a command string that begins at a place.
fn check_string(
    profile: Profile,
    remarks: &mut Vec<Remark>,
    hinting: &mut Hinting,
    uses: &RegisterUses,
    string: &[u8],
    from: usize,
) -> Result<Flaws, NoMemory>
    ensures found { IfOk result (λ flaws. flaws.is_faulty ≡ is_faulty_string profile uses.now.called string.now) }
    ensures clean { IfOk result (λ flaws. flaws.is_unclean ≡ is_unclean_string profile uses.now.called string.now) }
    ensures right { IfOk result (λ flaws. flaws.is_unclean ≡ false → IsRightString profile uses.now.called string.now) }
    ensures told { is_request string.now ≡ false → IfOk result (λ _. TellsFirst profile uses.now.called remarks.new.items from string.now) }
    ensures tells { IfOk result (λ flaws. flaws.is_faulty ≡ true → IsTold tells_fault remarks.new.items) }
    ensures kept { (test : Remark → Bool) → IsTold test remarks.old.items → IfOk result (λ _. IsTold test remarks.new.items) }
{
    if is_request(string) {
        return Ok(NO_FLAWS);
    }
    let alloc = *remarks.allocator();
    let mut hints = Vec::new(alloc);
    push_hints(&mut hints, hinting, string, from, &uses.given)?;
    let Some(first) = fault_of(alloc, profile, string, &uses.called) else {
        push_both(remarks, &[], &hints)?;
        return Ok(NO_FLAWS);
    };
    let mut faults = Vec::new(alloc);
    let is_faulty = push_faults(
        &mut faults,
        alloc,
        profile,
        string,
        from,
        &uses.called,
        first,
    )?;
    push_both(remarks, &faults, &hints)?;
    Ok(flawed(is_faulty))
}

/// Checks the text that a register holds at first, where these registers hold code, and tells its faults and what isn't looked into, from
/// the first on.
pub fn check_text(
    alloc: Global,
    profile: Profile,
    remarks: &mut Vec<Remark>,
    text: &[u8],
    code: &[bool; REGISTERS],
) -> Result<Flaws, NoMemory>
    ensures found { IfOk result (λ flaws. flaws.is_faulty ≡ has_fault profile code.now text.now) }
    ensures clean { IfOk result (λ flaws. flaws.is_unclean ≡ is_unclean_text profile code.now text.now) }
    ensures right { IfOk result (λ flaws. flaws.is_unclean ≡ false → IsClean profile (held code.now) text.now) }
{
    let Some(first) = first_fault_by_tags(alloc, profile, text, code, MOST_TEXTS) else {
        return Ok(NO_FLAWS);
    };
    Ok(flawed(push_faults(remarks, alloc, profile, text, 0, code, first)?))
}

/// The hint on bytes after the last pair of ESC, if there is more than fillers.
fn hint_on_rest(rest: &[u8]) -> Option<Hint> {
    if filler_end(rest, 0) == rest.len() {
        return None;
    }
    Some(if ends_in_escape(rest) {
        Hint::OneEscape
    } else {
        Hint::NotRun
    })
}

/// Checks commands as [`check_over`] does, where the registers hold nothing at first.
pub fn check(alloc: Global, profile: Profile, commands: &[u8]) -> Result<Advice, NoMemory>
    ensures found { IfOk result (λ advice. advice.is_faulty ≡ is_faulty profile advice.code commands.now) }
    ensures clean { IfOk result (λ advice. advice.is_unclean ≡ is_unclean profile advice.code commands.now) }
    ensures right { IfOk result (λ advice. advice.is_unclean ≡ false → AreRight profile advice.code commands.now) }
    ensures code { IfOk result (λ advice. AreCalled profile advice.code commands.now) }
    ensures told { IfOk result (λ advice. AreTold profile advice.code advice.remarks.items 0 (strings_of commands.now)) }
    ensures tells { IfOk result (λ advice. advice.is_faulty ≡ true → IsTold tells_fault advice.remarks.items) }
{
    check_over(alloc, profile, commands, &Registers::new(alloc))
}

/// Checks commands in a profile, each command string and what comes after the last, without running them, where the registers hold this at first.
///
/// The code registers are those that the commands call. A string is faulty if one of the things that are told of it is a fault. It is clean
/// if none is, and all of it is looked into. Where all are clean, no string of a run of the commands ends by ILL, IQN, IQC, UTC, BNI or TAG,
/// if the code registers hold clean texts at first.
pub fn check_over(
    alloc: Global,
    profile: Profile,
    commands: &[u8],
    first: &Registers,
) -> Result<Advice, NoMemory>
    ensures found { IfOk result (λ advice. advice.is_faulty ≡ is_faulty profile advice.code commands.now) }
    ensures clean { IfOk result (λ advice. advice.is_unclean ≡ is_unclean profile advice.code commands.now) }
    ensures right { IfOk result (λ advice. advice.is_unclean ≡ false → AreRight profile advice.code commands.now) }
    ensures code { IfOk result (λ advice. AreCalledOver profile first.now advice.code commands.now) }
    ensures told { IfOk result (λ advice. AreTold profile advice.code advice.remarks.items 0 (strings_of commands.now)) }
    ensures tells { IfOk result (λ advice. advice.is_faulty ≡ true → IsTold tells_fault advice.remarks.items) }
{
    let uses = registers_in(profile, commands, first);
    let mut remarks = Vec::new(alloc);
    let mut hinting = Hinting::new(profile);
    let mut is_faulty = false;
    let mut is_unclean = false;
    let mut start = 0;
    while let Some(end) = string_end(commands, start) {
        let string = &commands[start..end];
        let flaws = check_string(profile, &mut remarks, &mut hinting, &uses, string, start)?;
        is_faulty |= flaws.is_faulty;
        is_unclean |= flaws.is_unclean;
        start = end + 1;
    }
    hinting.in_rest = true;
    let rest = &commands[start..];
    let flaws = check_string(profile, &mut remarks, &mut hinting, &uses, rest, start)?;
    is_faulty |= flaws.is_faulty;
    is_unclean |= flaws.is_unclean;
    let hint = hint_on_rest(rest);
    push_last_hints(&mut remarks, &hinting, commands, hint, is_unclean)?;
    Ok(Advice {
        code: uses.called,
        is_faulty,
        is_unclean,
        remarks,
    })
}
