//! A guess at how often bytes stand in a text. It decides which byte of a match is looked for, and never what is found.
ghost use Rattle.std.specs.Prelude.{◌≤◌};

use crate::element::{Class, Element, OneByte, SetItem, is_exact};
use teco_core::CaseMode;

/// All the bytes of a text.
const ALL: u32 = 1000;

/// About how many of a thousand bytes are this one.
fn frequency_of_byte(byte: u8) -> u32
    ensures { result ≤ 160 }
{
    match byte {
        b' ' => 160,
        b'e' => 100,
        b'a' | b'i' | b'n' | b'o' | b't' => 70,
        b'h' | b'r' | b's' => 50,
        b'c' | b'd' | b'l' | b'm' | b'u' => 30,
        b'\n' => 25,
        b'b' | b'f' | b'g' | b'p' | b'v' | b'w' | b'y' => 15,
        b',' | b'.' => 10,
        b'0' | b'1' | b'2' => 8,
        b'j' | b'k' | b'q' | b'x' | b'z' => 5,
        _ => 3,
    }
}

/// About how many of a thousand bytes are of a kind.
fn frequency_of_class(class: Class) -> u32
    ensures { result ≤ 1000 }
{
    match class {
        Class::Any => ALL,
        Class::LetterOrDigit => 750,
        Class::Letter => 700,
        Class::LowerCase => 650,
        Class::Other => 250,
        Class::UpperCase => 50,
        Class::Digit => 40,
        Class::LineEnd => 25,
    }
}

/// About how many of a thousand bytes an item admits.
pub(crate) fn frequency_of_item(mode: CaseMode, item: SetItem) -> u32
    ensures { result ≤ 1000 }
{
    match item {
        SetItem::Class(class) => frequency_of_class(class),
        SetItem::Byte(byte) => {
            if is_exact(mode, byte) {
                frequency_of_byte(byte)
            } else {
                frequency_of_byte(byte.to_ascii_lowercase())
                    + frequency_of_byte(byte.to_ascii_uppercase())
            }
        }
    }
}

/// The sum over some items, which may have bytes in common.
fn frequency_of_list(mode: CaseMode, items: &[SetItem]) -> u32
    ensures { result ≤ 1000 }
{
    let mut sum = 0;
    'items: for item in items {
        sum = ALL.min(sum + frequency_of_item(mode, *item));
    }
    sum
}

fn frequency_of_one(mode: CaseMode, one: &OneByte) -> u32
    ensures { result ≤ 1000 }
{
    match one {
        OneByte::Single(item) => frequency_of_item(mode, *item),
        OneByte::Listed(items) => frequency_of_list(mode, items.as_slice()),
    }
}

/// About how many of a thousand bytes may begin the match of an element.
pub(crate) fn frequency(mode: CaseMode, element: &Element) -> u32
    ensures { result ≤ 1000 }
{
    match element {
        Element::Among(one) => frequency_of_one(mode, one),
        Element::Except(one) => ALL - frequency_of_one(mode, one),
        Element::Blanks => 165,
    }
}
