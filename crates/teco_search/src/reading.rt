//! Reading a search text.
ghost use Rattle.std.specs.Prelude.{◌≡◌, ◌⊎◌, ◌<◌, ◌≤◌, ◌++◌, ◌∷◌, [], length, map, true, IfOk, IfErr, IfSome, OnOk};
ghost use Rattle.std.specs.List.{list_all};
ghost use Rattle.teco_search.specs.Literal.{plain, is_exact};
ghost use Rattle.teco_search.specs.Reading.{Reads, occurs_at, byte_at, class_named, item_at, listed_at, items_at, one_byte_at, element_at, read};
ghost use Rattle.teco_search.specs.Spelling.{is_control};

use crate::element::{Class, Element, Items, OneByte, SetItem, is_exact};
use std::alloc::Global;
use teco_core::{CaseMode, Code};

const CONTROL_E: u8 = 5;

const CONTROL_N: u8 = 14;

const CONTROL_Q: u8 = 17;

const CONTROL_R: u8 = 18;

const CONTROL_S: u8 = 19;

const CONTROL_V: u8 = 22;

const CONTROL_W: u8 = 23;

const CONTROL_X: u8 = 24;

/// Whether a byte means something else than itself in a search text.
#[inline(always)]
pub(crate) fn is_control(byte: u8) -> bool
    ensures { result ≡ is_control byte }
{
    matches!(
        byte,
        CONTROL_Q
            | CONTROL_E
            | CONTROL_X
            | CONTROL_S
            | CONTROL_N
            | CONTROL_R
            | CONTROL_V
            | CONTROL_W
    )
}

fn occurs_at(text: &[u8], at: usize, byte: u8) -> bool
    ensures { result ≡ occurs_at text.now at byte }
{
    at < text.len() && text[at] == byte
}

#[tactic(auto, unfolding(crate::specs::Reading::byte_at))]
fn byte_at(text: &[u8], at: usize) -> Result<u8, Code>
    ensures read { result ≡ byte_at text.now at }
    ensures only { IfErr result (λ e. e ≡ Code.Ice) }
    ensures within { IfOk result (λ _. at < length text.now) }
{
    text.get(at).copied().ok_or(Code::Ice)
}

/// The kind of bytes that a letter after `^E` names.
fn class_named(letter: u8) -> Result<Class, Code>
    ensures read { result ≡ class_named letter }
    ensures only { IfErr result (λ e. e ≡ Code.Ice) }
{
    match letter {
        b'X' => Ok(Class::Any),
        b'B' => Ok(Class::Other),
        b'A' => Ok(Class::Letter),
        b'D' => Ok(Class::Digit),
        b'L' => Ok(Class::LineEnd),
        b'R' => Ok(Class::LetterOrDigit),
        b'V' => Ok(Class::LowerCase),
        b'W' => Ok(Class::UpperCase),
        _ => Err(Code::Ice),
    }
}

#[tactic(auto, unfolding(crate::specs::Reading::item_at))]
fn item_at(text: &[u8], at: usize) -> Result<(SetItem, usize), Code>
    ensures read { result ≡ item_at text.now at }
    ensures only { IfErr result (λ e. e ≡ Code.Ice) }
    ensures within { IfOk result (λ i. (at < i.1) × (i.1 ≤ length text.now)) }
{
    let byte = byte_at(text, at)?;
    let at = at + 1;
    match byte {
        CONTROL_Q | CONTROL_E => {
            let next = byte_at(text, at)?;
            let item = if byte == CONTROL_Q {
                SetItem::Byte(next)
            } else {
                SetItem::Class(class_named(next.to_ascii_uppercase())?)
            };
            Ok((item, at + 1))
        }
        CONTROL_X => Ok((SetItem::Class(Class::Any), at)),
        CONTROL_S => Ok((SetItem::Class(Class::Other), at)),
        CONTROL_N | CONTROL_R | CONTROL_V | CONTROL_W => Err(Code::Ice),
        _ => Ok((SetItem::Byte(byte), at)),
    }
}

/// An item of a list, which doesn't begin with a comma or `]`.
#[tactic(auto, unfolding(crate::specs::Reading::listed_at))]
fn listed_at(text: &[u8], at: usize) -> Result<(SetItem, usize), Code>
    ensures read { result ≡ listed_at text.now at }
    ensures only { IfErr result (λ e. e ≡ Code.Ice) }
    ensures within { IfOk result (λ i. (at < i.1) × (i.1 ≤ length text.now)) }
{
    if occurs_at(text, at, b',') || occurs_at(text, at, b']') {
        Err(Code::Ice)
    } else {
        item_at(text, at)
    }
}

/// Puts one more at the end of a list.
fn keep<T: Drop>(list: &mut Vec<T>, one: T) -> Result<(), Code>
    ensures ok { OnOk result (list.new.items ≡ list.old.items ++ one ∷ []) }
    ensures err { IfErr result (λ e. e ≡ Code.Mem) }
{
    match list.push(one) {
        Ok(()) => Ok(()),
        Err(_) => Err(Code::Mem),
    }
}

/// The items of a list, from after its `^E[` up to its `]`.
fn items_at(alloc: Global, text: &[u8], at: usize) -> Result<(Items, usize), Code>
    ensures read { Reads result (items_at (length text.now) text.now at) }
    ensures within { IfOk result (λ i. (at < i.1) × (i.1 ≤ length text.now)) }
{
    let mut items = Vec::new(alloc);
    let mut at = at;
    'items: loop {
        let (item, after) = listed_at(text, at)?;
        keep(&mut items, item)?;
        let byte = byte_at(text, after)?;
        if byte == b']' {
            let list = Items::new(alloc, items)?;
            return Ok((list, after + 1));
        }
        if byte != b',' {
            return Err(Code::Ice);
        }
        at = after + 1;
    }
}

/// What one byte may be: `^E[` and a list, or one item.
#[tactic(auto, unfolding(crate::specs::Reading::one_byte_at))]
fn one_byte_at(alloc: Global, text: &[u8], at: usize) -> Result<(OneByte, usize), Code>
    requires { at ≤ length text.now }
    ensures read { Reads result (one_byte_at text.now at) }
    ensures within { IfOk result (λ i. (at < i.1) × (i.1 ≤ length text.now)) }
{
    if occurs_at(text, at, CONTROL_E) && occurs_at(text, at + 1, b'[') {
        let (items, at) = items_at(alloc, text, at + 2)?;
        Ok((OneByte::Listed(items), at))
    } else {
        let (item, at) = item_at(text, at)?;
        Ok((OneByte::Single(item), at))
    }
}

#[tactic(auto, unfolding(crate::specs::Reading::element_at))]
fn element_at(alloc: Global, text: &[u8], at: usize) -> Result<(Element, usize), Code>
    requires { at ≤ length text.now }
    ensures read { Reads result (element_at text.now at) }
    ensures within { IfOk result (λ i. (at < i.1) × (i.1 ≤ length text.now)) }
{
    if occurs_at(text, at, CONTROL_E)
        && (occurs_at(text, at + 1, b'S') || occurs_at(text, at + 1, b's'))
    {
        return Ok((Element::Blanks, at + 2));
    }
    let is_except = occurs_at(text, at, CONTROL_N);
    let start = if is_except { at + 1 } else { at };
    let (one, after) = one_byte_at(alloc, text, start)?;
    if is_except {
        Ok((Element::Except(one), after))
    } else {
        Ok((Element::Among(one), after))
    }
}

/// The elements of a search text.
pub(crate) fn read(alloc: Global, text: &[u8]) -> Result<Vec<Element>, Code>
    ensures ok { IfOk result (λ es. read text.now ≡ Ok es.items) }
    ensures some { IfOk result (λ es. 0 < length text.now → 0 < length es.items) }
    ensures err { IfErr result (λ e. (e ≡ Code.Mem) ⊎ ((e ≡ Code.Ice) × (read text.now ≡ Err Code.Ice))) }
{
    let mut elements = Vec::new(alloc);
    let mut at = 0;
    'elements: while at < text.len() {
        let (element, after) = element_at(alloc, text, at)?;
        keep(&mut elements, element)?;
        at = after;
    }
    Ok(elements)
}

/// The bytes of a search text that has no other elements, where each of them admits itself alone; none where it has others or isn't allowed.
pub(crate) fn literal(alloc: Global, text: &[u8], mode: CaseMode) -> Result<Option<Vec<u8>>, Code>
    ensures elements { IfOk result (λ r. IfSome r (λ bytes. read text.now ≡ Ok (map plain bytes.items))) }
    ensures exact { IfOk result (λ r. IfSome r (λ bytes. list_all (is_exact mode) bytes.items ≡ true)) }
    ensures some { IfOk result (λ r. IfSome r (λ bytes. 0 < length text.now → 0 < length bytes.items)) }
    ensures err { IfErr result (λ e. e ≡ Code.Mem) }
{
    let mut bytes = Vec::new(alloc);
    let mut at = 0;
    'bytes: while at < text.len() {
        let Ok((SetItem::Byte(byte), after)) = item_at(text, at) else {
            return Ok(None);
        };
        if !is_exact(mode, byte) {
            return Ok(None);
        }
        keep(&mut bytes, byte)?;
        at = after;
    }
    Ok(Some(bytes))
}
