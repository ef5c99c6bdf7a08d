//! The faults of a text, from the first on.
ghost use Rattle.std.specs.Prelude.{◌≡◌, ◌-◌, ◌≤◌, true, false, Bool, Some, length, drop, IfOk, OnOk};
ghost use Rattle.std.specs.List.{list_any};
ghost use Rattle.teco_scan.specs.Scan.{scan};
ghost use Rattle.teco_scan.specs.Seen.{IsSpanIn, bytes_in};
ghost use Rattle.teco_check.specs.Walk.{first_of};
ghost use Rattle.teco_lint.specs.Faults.{fault_itself, has_fault, span_in};
ghost use Rattle.teco_lint.specs.Spelling.{is_misspelt_text, put_first};
ghost use Rattle.teco_lint.specs.Told.{ends_run, is_fault, is_in_text, moved, own_fault, tells_fault};

use crate::passing::{part, pass_over};
use crate::remarks::{FaultIn, Remark, What, ends_run};
use std::alloc::Global;
use teco_check::{Fault, MOST_TEXTS, REGISTERS, Wrong, fault_of, first_fault_by_tags};
use teco_core::{NoMemory, Profile};
use teco_scan::{Found, Item, Span, TokenKind, token_at};

/// The most faults of a command string that are told.
pub(crate) const MOST_FAULTS: usize = 20;

/// Where the text lies that the token of a fault puts into a register; nowhere, at the beginning, where it puts none.
fn text_put(profile: Profile, text: &[u8], fault: &FaultIn) -> Span
    requires inside { IsSpanIn (length text.now) fault.now.inside }
    ensures span { result ≡ span_in profile text.now fault.now }
    ensures inside { IsSpanIn (length text.now) result }
    ensures text { bytes_in text.now result ≡ put_first (scan profile (drop (fault.now.at - fault.now.inside.from) (bytes_in text.now fault.now.inside))) }
{
    let begin = fault.inside.from;
    let none = Span {
        from: begin,
        to: begin,
    };
    let inside = &text[begin..fault.inside.to];
    let at = fault.at.saturating_sub(begin);
    if at > inside.len() {
        return none;
    }
    match token_at(profile, inside, at) {
        Found::Token(token) => match token.kind {
            TokenKind::Item(Item::SetText(_, span)) => Span {
                from: begin + span.from,
                to: begin + span.to,
            },
            _ => none,
        },
        _ => none,
    }
}

fn is_in_text(wrong: Wrong) -> bool
    ensures { result ≡ is_in_text wrong }
{
    matches!(wrong, Wrong::InText)
}

/// The fault itself, where a fault says that it is in a text which is put where code is. Each text inside is looked into one text less
/// deep, as the check did.
fn innermost(
    alloc: Global,
    profile: Profile,
    text: &[u8],
    code: &[bool; REGISTERS],
    fault: Fault,
) -> FaultIn
    ensures own { is_in_text fault.wrong ≡ false → result ≡ own_fault (length text.now) fault }
    ensures itself { result ≡ fault_itself profile MOST_TEXTS code.now text.now (own_fault (length text.now) fault) }
    ensures inside { IsSpanIn (length text.now) result.inside }
    ensures ends { Some fault ≡ first_of profile code.now text.now → ends_run result.wrong ≡ is_misspelt_text profile code.now text.now }
{
    let mut found = FaultIn {
        at: fault.at,
        wrong: fault.wrong,
        inside: Span {
            from: 0,
            to: text.len(),
        },
    };
    let mut texts = MOST_TEXTS;
    while texts > 0 && is_in_text(found.wrong) {
        texts -= 1;
        let inside = text_put(profile, text, &found);
        let Some(fault) = first_fault_by_tags(
            alloc,
            profile,
            &text[inside.from..inside.to],
            code,
            texts,
        ) else {
            return found;
        };
        found = FaultIn {
            at: inside.from.saturating_add(fault.at),
            wrong: fault.wrong,
            inside,
        };
    }
    found
}

/// A fault of a command string that begins at a place of the commands.
fn moved(fault: &FaultIn, from: usize) -> Remark
    ensures { result ≡ moved fault.now from }
{
    let at = from.saturating_add(fault.at);
    Remark {
        at,
        what: What::Fault(FaultIn {
            at,
            wrong: fault.wrong,
            inside: Span {
                from: from.saturating_add(fault.inside.from),
                to: from.saturating_add(fault.inside.to),
            },
        }),
    }
}

/// Puts a fault among others, in the order of their places.
fn put_fault(faults: &mut Vec<Remark>, fault: Remark) -> Result<(), NoMemory>
    ensures kept { (test : Remark → Bool) → list_any test faults.old.items ≡ true → OnOk result (list_any test faults.new.items ≡ true) }
    ensures own { (test : Remark → Bool) → test fault ≡ true → OnOk result (list_any test faults.new.items ≡ true) }
{
    let mut at = faults.len();
    while at > 0 && faults[at - 1].at > fault.at {
        at -= 1;
    }
    faults.insert(at, fault)?;
    Ok(())
}

/// Tells the faults of a command string from the first on, and what isn't looked into. Says whether there is a fault.
///
/// Past a fault only those are told that come later. Past what isn't looked into, a block that has no end is told too.
pub(crate) fn push_faults(
    faults: &mut Vec<Remark>,
    alloc: Global,
    profile: Profile,
    string: &[u8],
    from: usize,
    code: &[bool; REGISTERS],
    first: Fault,
) -> Result<bool, NoMemory>
    ensures own { (test : Remark → Bool) → is_in_text first.wrong ≡ false → test (moved (own_fault (length string.now) first) from) ≡ true
        → IfOk result (λ _. list_any test faults.new.items ≡ true) }
    ensures some { IfOk result (λ _. list_any is_fault faults.new.items ≡ true) }
    ensures found { Some first ≡ first_of profile code.now string.now → IfOk result (λ found. found ≡ has_fault profile code.now string.now) }
    ensures told { IfOk result (λ found. found ≡ true → list_any tells_fault faults.new.items ≡ true) }
{
    let mut text = Vec::from_slice(alloc, string)?;
    let mut fault = innermost(alloc, profile, &text, code, first);
    let mut found = ends_run(fault.wrong);
    put_fault(faults, moved(&fault, from))?;
    'faults: for _told in 1..MOST_FAULTS {
        if !pass_over(&mut text, profile, &fault) {
            return Ok(found);
        }
        let Some(next) = fault_of(alloc, profile, &text, code) else {
            return Ok(found);
        };
        let later = innermost(alloc, profile, &text, code, next);
        if found && later.at <= fault.at {
            return Ok(true);
        }
        fault = later;
        found |= ends_run(fault.wrong);
        put_fault(faults, moved(&fault, from))?;
    }
    Ok(found)
}
