//! Reading a command's modifiers and its name.
ghost use Rattle.std.specs.Prelude.{◌≡◌, ◌<◌, ◌≤◌, ℕ, List, ◌∷◌, length, take, drop, IfOk, IfSome, Ok, true};
ghost use Rattle.teco_scan.specs.Scan.{rows_of, no_modifiers, admits, is_refused, after_name, ends_inside, row_at, is_cut, after_letter, modifiers_at};
ghost use Rattle.teco_scan.specs.Led.{form_in};
ghost use Rattle.teco_scan.specs.declared.command.Modifiers.{Modifiers};
ghost use Rattle.teco_core.specs.declared.profile.Profile.{Profile};
ghost use Rattle.teco_scan.specs.FirstRow.{form_at, named_at, picks};
ghost use Rattle.teco_scan.specs.Seen.{Gives, GivesSome};

use crate::command::{Form, Modifiers, Name, Row};
use crate::table::{FIRST, NONE, ROWS, WIDE_ROWS};
use teco_core::{Code, Profile};

/// At most one `@` and two colons, in any order.
#[tactic(auto, using(crate::proofs::Places::front, crate::proofs::Places::no_front), unfolding(crate::specs::Scan::modifiers_at))]
fn modifiers_at(modifiers: Modifiers, text: &[u8], at: usize) -> Result<(Modifiers, usize), Code>
    requires { modifiers.colons ≤ 2 }
    ensures read { Gives (λ x. (x.0, drop x.1 text.now)) result (modifiers_at modifiers (drop at text.now)) }
    ensures within { IfOk result (λ x. at ≤ x.1) }
    ensures inside { at ≤ length text.now → IfOk result (λ x. x.1 ≤ length text.now) }
{
    if at < text.len() && text[at] == b'@' {
        if modifiers.at {
            return Err(Code::Ill);
        }
        let marked = Modifiers {
            at: true,
            ..modifiers
        };
        return modifiers_at(marked, text, at + 1);
    }
    if at < text.len() && text[at] == b':' {
        if modifiers.colons == 2 {
            return Err(Code::Ill);
        }
        let marked = Modifiers {
            colons: modifiers.colons + 1,
            ..modifiers
        };
        return modifiers_at(marked, text, at + 1);
    }
    Ok((modifiers, at))
}

fn admits(row: &Row, modifiers: Modifiers) -> bool
    ensures { result ≡ admits row.now modifiers }
{
    (row.allows.at || !modifiers.at) && modifiers.colons <= row.allows.colons
}

/// The place after this letter, in either case.
#[tactic(auto, using(crate::proofs::Places::front, crate::proofs::Places::no_front), unfolding(crate::specs::Scan::after_letter))]
fn letter_end(letter: u8, text: &[u8], at: usize) -> Option<usize>
    ensures read { GivesSome (λ p. drop p text.now) result (after_letter letter (drop at text.now)) }
    ensures within { IfSome result (λ p. (at < p) × (p ≤ length text.now)) }
{
    if at < text.len() && text[at].to_ascii_uppercase() == letter {
        Some(at + 1)
    } else {
        None
    }
}

/// The place after a name.
#[tactic(auto, using(crate::proofs::Places::front, crate::proofs::Places::no_front), unfolding(crate::specs::Scan::after_name))]
fn name_end(name: Name, text: &[u8], at: usize) -> Option<usize>
    ensures read { GivesSome (λ p. drop p text.now) result (after_name name (drop at text.now)) }
    ensures within { IfSome result (λ p. (at < p) × (p ≤ length text.now)) }
{
    match name {
        Name::One(letter) => letter_end(letter, text, at),
        Name::Two(first, second) => {
            let at = letter_end(first, text, at)?;
            letter_end(second, text, at)
        }
        Name::Three(first, second, third) => {
            let at = letter_end(first, text, at)?;
            let at = letter_end(second, text, at)?;
            letter_end(third, text, at)
        }
        Name::Control(letter) => {
            if at >= text.len() {
                return None;
            }
            let b = text[at];
            if u16::from(b) + 64 == u16::from(letter) {
                return Some(at + 1);
            }
            if b == b'^' {
                letter_end(letter, text, at + 1)
            } else {
                None
            }
        }
    }
}

/// Whether the text ends inside the name.
#[tactic(auto, using(crate::proofs::Places::front, crate::proofs::Places::no_front), unfolding(crate::specs::Scan::ends_inside))]
fn ends_inside(name: Name, text: &[u8], at: usize) -> bool
    requires { at ≤ length text.now }
    ensures { result ≡ ends_inside name (drop at text.now) }
{
    if at == text.len() {
        return true;
    }
    let b = text[at];
    if at + 1 == text.len() {
        return match name {
            Name::One(_) => false,
            Name::Two(first, _) => b.to_ascii_uppercase() == first,
            Name::Three(first, _, _) => b.to_ascii_uppercase() == first,
            Name::Control(_) => b == b'^',
        };
    }
    let c = text[at + 1];
    match name {
        Name::Three(first, second, _) => {
            b.to_ascii_uppercase() == first
                && c.to_ascii_uppercase() == second
                && at + 2 == text.len()
        }
        _ => false,
    }
}

fn is_refused(form: Form) -> bool
    ensures { result ≡ is_refused form }
{
    matches!(form, Form::Refused)
}

/// The first row that admits the modifiers and whose name is here, and the place after it.
#[tactic(auto, unfolding(crate::specs::Scan::row_at))]
fn row_at(rows: &[Row], modifiers: Modifiers, text: &[u8], at: usize) -> Option<(Row, usize)>
    ensures read { GivesSome (λ x. (x.0, drop x.1 text.now)) result
        (row_at rows.now modifiers (drop at text.now)) }
    ensures within { IfSome result (λ x. (at < x.1) × (x.1 ≤ length text.now)) }
{
    for row in rows {
        if admits(row, modifiers) {
            if let Some(to) = name_end(row.name, text, at) {
                return Some((*row, to));
            }
        }
    }
    None
}

/// Whether the text ends inside the name of a command that admits the modifiers.
#[tactic(auto, unfolding(crate::specs::Scan::is_cut))]
fn is_cut(rows: &[Row], modifiers: Modifiers, text: &[u8], at: usize) -> bool
    requires { at ≤ length text.now }
    ensures { result ≡ is_cut rows.now modifiers (drop at text.now) }
{
    for row in rows {
        if admits(row, modifiers) && !is_refused(row.form) && ends_inside(row.name, text, at) {
            return true;
        }
    }
    false
}

/// Where the rows begin that a name with this first byte may be in: those before them can't match.
#[inline(always)]
fn first_row(b: u8) -> usize
    ensures picked { (p : Profile) → picks (rows_of p) result b ≡ true }
    ensures within { result ≤ length ROWS }
{
    let first: &[[u8; 16]] = &FIRST;
    let b = usize::from(b);
    usize::from(first[b / 16][b % 16])
}

/// The form of the command that this byte alone names, whatever follows it, in each profile.
#[inline(always)]
pub fn lone_form(b: u8) -> Option<Form>
    ensures { IfSome result (λ form. (p : Profile) (bs : List ℕ) → named_at (rows_of p) (b ∷ bs) ≡ Ok ((no_modifiers, form_in p form), bs)) }
{
    let rows: &[Row] = &ROWS;
    let first = first_row(b);
    if first == rows.len() {
        return None;
    }
    match rows[first].name {
        Name::One(_) => Some(rows[first].form),
        _ => None,
    }
}

/// Where the rows begin by which a command at this place may be named.
fn first_row_at(text: &[u8], at: usize) -> usize
    requires { at ≤ length text.now }
    ensures same { (p : Profile) (m : Modifiers) → row_at (drop result (rows_of p)) m (drop at text.now)
        ≡ row_at (rows_of p) m (drop at text.now) }
    ensures within { result ≤ length ROWS }
{
    if at == text.len() {
        return 0;
    }
    first_row(text[at])
}

/// The table of a profile.
#[inline(always)]
fn rows_of(profile: Profile) -> &'static [Row]
    ensures { result.now ≡ rows_of profile }
{
    match profile {
        Profile::Named => &ROWS,
        Profile::Wide => &WIDE_ROWS,
    }
}

/// The form of the command of this name, and the place after the name.
fn form_at(
    profile: Profile,
    modifiers: Modifiers,
    text: &[u8],
    at: usize,
) -> Result<(Form, usize), Code>
    requires { at ≤ length text.now }
    ensures read { Gives (λ x. (x.0, drop x.1 text.now)) result (form_at (rows_of profile) modifiers (drop at text.now)) }
    ensures within { IfOk result (λ x. (at < x.1) × (x.1 ≤ length text.now)) }
{
    let rows = rows_of(profile);
    let first = first_row_at(text, at);
    match row_at(&rows[first..], modifiers, text, at) {
        Some((row, to)) => Ok((row.form, to)),
        None => Err(if is_cut(rows, modifiers, text, at) {
            Code::Utc
        } else {
            Code::Ill
        }),
    }
}

/// The form of a row of a profile, by that of the same row of Named.
#[inline(always)]
fn form_in(profile: Profile, form: Form) -> Form
    ensures { result ≡ form_in profile form }
{
    match profile {
        Profile::Named => form,
        Profile::Wide => match form {
            Form::Test => Form::WideTest,
            other => other,
        },
    }
}

/// The modifiers of a command and its form, and the place after its name.
#[tactic(auto, unfolding(crate::specs::FirstRow::named_at))]
pub(crate) fn named_at(
    profile: Profile,
    text: &[u8],
    at: usize,
) -> Result<(Modifiers, Form, usize), Code>
    requires { at < length text.now }
    ensures read { Gives (λ x. ((x.0, x.1), drop x.2 text.now)) result (named_at (rows_of profile) (drop at text.now)) }
    ensures within { IfOk result (λ x. (at < x.2) × (x.2 ≤ length text.now)) }
{
    if let Some(form) = lone_form(text[at]) {
        return Ok((NONE, form_in(profile, form), at + 1));
    }
    let (modifiers, at) = modifiers_at(NONE, text, at)?;
    let (form, at) = form_at(profile, modifiers, text, at)?;
    Ok((modifiers, form, at))
}
