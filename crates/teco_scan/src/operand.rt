//! Reading what follows a command's name.
ghost use Rattle.std.specs.Prelude.{◌≡◌, ◌+◌, ◌<◌, ◌≤◌, ℕ, length, drop, IfOk};
ghost use Rattle.memchr.specs.Find.{IsFirstByte, is_byte};
ghost use Rattle.teco_core.specs.Ascii.{upper};
ghost use Rattle.teco_scan.specs.Scan.{letter_test, more_test, test_of, byte_at, register_at, test_at, delimiter_at, text_at, operand_at};
ghost use Rattle.teco_scan.specs.Seen.{Gives, IsSpanIn, IsKindIn, IsKindPlaced, bytes_in, instruction_in};

use crate::command::{Form, Modifiers, Test, TextCommand};
use crate::token::{Item, Span, TokenKind};
use memchr::memchr;
use teco_core::{Code, ESC, Profile, Reg};

#[inline]
fn letter_test(b: u8) -> Option<Test>
    ensures { result ≡ letter_test (upper b) }
{
    match b.to_ascii_uppercase() {
        b'E' | b'F' | b'U' => Some(Test::Zero),
        b'N' => Some(Test::NotZero),
        b'G' => Some(Test::Above),
        b'L' | b'S' | b'T' => Some(Test::Below),
        b'A' => Some(Test::Letter),
        b'D' => Some(Test::Digit),
        b'R' => Some(Test::LetterOrDigit),
        b'V' => Some(Test::Lower),
        b'W' => Some(Test::Upper),
        _ => None,
    }
}

fn more_test(b: u8) -> Option<Test>
    ensures { result ≡ more_test (upper b) }
{
    match b.to_ascii_uppercase() {
        b'=' => Some(Test::Zero),
        b'<' => Some(Test::Below),
        b'>' => Some(Test::Above),
        b'C' => Some(Test::NameByte),
        _ => None,
    }
}

#[inline(always)]
#[tactic(auto, unfolding(crate::specs::Scan::test_of))]
fn test_of(profile: Profile, b: u8) -> Option<Test>
    ensures { result ≡ test_of profile b }
{
    match profile {
        Profile::Named => letter_test(b),
        Profile::Wide => match letter_test(b) {
            Some(test) => Some(test),
            None => more_test(b),
        },
    }
}

#[inline]
#[tactic(auto, using(crate::proofs::Places::front, crate::proofs::Places::no_front), unfolding(crate::specs::Scan::byte_at))]
fn byte_at(text: &[u8], at: usize) -> Result<(u8, usize), Code>
    ensures read { Gives (λ x. (x.0, drop x.1 text.now)) result (byte_at (drop at text.now)) }
    ensures within { IfOk result (λ x. (at < x.1) × (x.1 ≤ length text.now)) }
{
    if at < text.len() {
        Ok((text[at], at + 1))
    } else {
        Err(Code::Utc)
    }
}

#[inline]
#[tactic(auto, unfolding(crate::specs::Scan::register_at))]
pub(crate) fn register_at(text: &[u8], at: usize) -> Result<(Reg, usize), Code>
    ensures read { Gives (λ x. (x.0, drop x.1 text.now)) result (register_at (drop at text.now)) }
    ensures within { IfOk result (λ x. (at < x.1) × (x.1 ≤ length text.now)) }
{
    let (b, at) = byte_at(text, at)?;
    match Reg::of(b) {
        None => Err(Code::Iqn),
        Some(register) => Ok((register, at)),
    }
}

#[inline(always)]
#[tactic(auto, unfolding(crate::specs::Scan::test_at))]
pub(crate) fn test_at(profile: Profile, text: &[u8], at: usize) -> Result<(Test, usize), Code>
    ensures read { Gives (λ x. (x.0, drop x.1 text.now)) result (test_at profile (drop at text.now)) }
    ensures within { IfOk result (λ x. (at < x.1) × (x.1 ≤ length text.now)) }
{
    let (b, at) = byte_at(text, at)?;
    match test_of(profile, b) {
        None => Err(Code::Iqc),
        Some(test) => Ok((test, at)),
    }
}

/// The byte that ends a text, and where the text begins.
#[inline(always)]
#[tactic(auto, unfolding(crate::specs::Scan::delimiter_at))]
fn delimiter_at(
    modifiers: Modifiers,
    usual: u8,
    text: &[u8],
    at: usize,
) -> Result<(u8, usize), Code>
    requires { at ≤ length text.now }
    ensures read { Gives (λ x. (x.0, drop x.1 text.now)) result
        (delimiter_at modifiers usual (drop at text.now)) }
    ensures within { IfOk result (λ x. (at ≤ x.1) × (x.1 ≤ length text.now)) }
{
    if modifiers.at {
        byte_at(text, at)
    } else {
        Ok((usual, at))
    }
}

/// How many bytes are looked at one by one: most texts of commands and names of tags end within these.
const NEAR: usize = 8;

/// The first place of a byte. The nearest are looked at before a scan is set up.
#[inline]
fn first_place(byte: u8, bytes: &[u8]) -> Option<usize>
    ensures { IsFirstByte (is_byte byte) bytes.now result }
{
    let near = bytes.len().min(NEAR);
    'near: for place in 0..near {
        if bytes[place] == byte {
            return Some(place);
        }
    }
    match memchr(byte, &bytes[near..]) {
        None => None,
        Some(n) => Some(near + n),
    }
}

/// The bytes before the next delimiter, and the place after it.
#[inline]
pub(crate) fn text_at(delimiter: u8, text: &[u8], at: usize) -> Result<(Span, usize), Code>
    requires { at ≤ length text.now }
    ensures read { Gives (λ x. (bytes_in text.now x.0, drop x.1 text.now)) result
        (text_at delimiter (drop at text.now)) }
    ensures within { IfOk result (λ x. (at ≤ x.1) × (x.1 ≤ length text.now)) }
    ensures spans { IfOk result (λ x. IsSpanIn (length text.now) x.0) }
    ensures placed { IfOk result (λ x. (x.0.from ≡ at) × (x.0.to + 1 ≡ x.1)) }
{
    let place = first_place(delimiter, &text[at..]);
    match place {
        None => Err(Code::Utc),
        Some(n) => Ok((
            Span {
                from: at,
                to: at + n,
            },
            at + n + 1,
        )),
    }
}

/// The text of a command.
#[tactic(auto, unfolding(crate::specs::Scan::operand_at))]
fn one_text_at(
    command: TextCommand,
    usual: u8,
    modifiers: Modifiers,
    text: &[u8],
    at: usize,
) -> Result<(TokenKind, usize), Code>
    requires { at ≤ length text.now }
    ensures read { Gives (λ x. (instruction_in text.now x.0, drop x.1 text.now)) result
        (operand_at (Form.Text command usual) modifiers (drop at text.now)) }
    ensures within { IfOk result (λ x. (at ≤ x.1) × (x.1 ≤ length text.now)) }
    ensures spans { IfOk result (λ x. IsKindIn (length text.now) x.0) }
    ensures placed { (from : ℕ) → IfOk result (λ x. IsKindPlaced (record { from = from; to = x.1 }) x.0) }
{
    let (delimiter, at) = delimiter_at(modifiers, usual, text, at)?;
    let (span, at) = text_at(delimiter, text, at)?;
    Ok((TokenKind::Item(Item::Text(command, span)), at))
}

/// A register and its new text.
#[tactic(auto, unfolding(crate::specs::Scan::operand_at))]
fn set_text_at(modifiers: Modifiers, text: &[u8], at: usize) -> Result<(TokenKind, usize), Code>
    requires { at ≤ length text.now }
    ensures read { Gives (λ x. (instruction_in text.now x.0, drop x.1 text.now)) result
        (operand_at Form.SetText modifiers (drop at text.now)) }
    ensures within { IfOk result (λ x. (at ≤ x.1) × (x.1 ≤ length text.now)) }
    ensures spans { IfOk result (λ x. IsKindIn (length text.now) x.0) }
    ensures placed { (from : ℕ) → IfOk result (λ x. IsKindPlaced (record { from = from; to = x.1 }) x.0) }
{
    let (register, at) = register_at(text, at)?;
    let (delimiter, at) = delimiter_at(modifiers, ESC, text, at)?;
    let (span, at) = text_at(delimiter, text, at)?;
    Ok((TokenKind::Item(Item::SetText(register, span)), at))
}

/// A text and the one to replace it.
#[inline(always)]
#[tactic(auto, unfolding(crate::specs::Scan::operand_at))]
pub(crate) fn replace_at(
    modifiers: Modifiers,
    text: &[u8],
    at: usize,
) -> Result<(TokenKind, usize), Code>
    requires { at ≤ length text.now }
    ensures read { Gives (λ x. (instruction_in text.now x.0, drop x.1 text.now)) result
        (operand_at Form.Replace modifiers (drop at text.now)) }
    ensures within { IfOk result (λ x. (at ≤ x.1) × (x.1 ≤ length text.now)) }
    ensures spans { IfOk result (λ x. IsKindIn (length text.now) x.0) }
    ensures placed { (from : ℕ) → IfOk result (λ x. IsKindPlaced (record { from = from; to = x.1 }) x.0) }
{
    let (delimiter, at) = delimiter_at(modifiers, ESC, text, at)?;
    let (old, at) = text_at(delimiter, text, at)?;
    let (new, at) = text_at(delimiter, text, at)?;
    Ok((TokenKind::Item(Item::Replace(old, new)), at))
}

/// What follows a command's name.
#[tactic(auto, unfolding(crate::specs::Scan::operand_at))]
pub(crate) fn operand_at(
    form: Form,
    modifiers: Modifiers,
    text: &[u8],
    at: usize,
) -> Result<(TokenKind, usize), Code>
    requires { at ≤ length text.now }
    ensures read { Gives (λ x. (instruction_in text.now x.0, drop x.1 text.now)) result
        (operand_at form modifiers (drop at text.now)) }
    ensures within { IfOk result (λ x. (at ≤ x.1) × (x.1 ≤ length text.now)) }
    ensures spans { IfOk result (λ x. IsKindIn (length text.now) x.0) }
    ensures placed { (from : ℕ) → IfOk result (λ x. IsKindPlaced (record { from = from; to = x.1 }) x.0) }
{
    match form {
        Form::Bare(command) => Ok((TokenKind::Item(Item::Bare(command)), at)),
        Form::Mark(mark) => Ok((TokenKind::Mark(mark), at)),
        Form::Escape => Ok((TokenKind::Escape, at)),
        Form::Register(command) => {
            let (register, at) = register_at(text, at)?;
            Ok((TokenKind::Item(Item::Register(command, register)), at))
        }
        Form::Byte => {
            let (b, at) = byte_at(text, at)?;
            Ok((TokenKind::Item(Item::Byte(b)), at))
        }
        Form::Test => {
            let (test, at) = test_at(Profile::Named, text, at)?;
            Ok((TokenKind::Test(test), at))
        }
        Form::WideTest => {
            let (test, at) = test_at(Profile::Wide, text, at)?;
            Ok((TokenKind::Test(test), at))
        }
        Form::Text(command, usual) => one_text_at(command, usual, modifiers, text, at),
        Form::Tag => {
            let (name, at) = text_at(b'!', text, at)?;
            Ok((TokenKind::Tag(name), at))
        }
        Form::SetText => set_text_at(modifiers, text, at),
        Form::Replace => replace_at(modifiers, text, at),
        Form::Refused => Err(Code::Ill),
    }
}
