//! The byte of a match that is looked for first.
ghost use Rattle.std.specs.Prelude.{◌≡◌, ◌<◌, ℕ, Some, length, map, slice_get};
ghost use Rattle.teco_search.specs.Anchor.{AreSingle, IsAnchored, begins};
ghost use Rattle.teco_search.specs.ByteSet.{contains};
ghost use Rattle.teco_search.specs.Element.{item_admits};
ghost use Rattle.teco_search.specs.Literal.{plain};

use crate::byte_set::ByteSet;
use crate::byte_table::{others, table_of};
use crate::element::{Element, OneByte, SetItem, both_cases, is_exact};
use crate::frequency::{frequency, frequency_of_item};
use teco_core::CaseMode;

/// A place at a known distance from the start of each match, and the bytes that may be there.
///
/// Only where one of them is does the whole match have to be tried.
#[derive(Clone, Copy)]
pub(crate) struct Anchor {
    pub(crate) offset: usize,
    pub(crate) bytes: ByteSet,
}

/// Which bytes an item admits.
#[tactic(auto, unfolding(crate::specs::Element::item_admits))]
fn bytes_of(mode: CaseMode, item: SetItem) -> ByteSet
    ensures { (b : ℕ) → contains result b ≡ item_admits mode item b }
{
    match item {
        SetItem::Class(class) => ByteSet::Kind(class),
        SetItem::Byte(byte) => {
            if is_exact(mode, byte) {
                ByteSet::One(byte)
            } else {
                let (lower, upper) = both_cases(mode, byte);
                ByteSet::Two(lower, upper)
            }
        }
    }
}

/// Which bytes the match of an element may begin with. Only a list and an element that excludes bytes take a table.
#[tactic(auto, unfolding(crate::specs::Anchor::begins, crate::specs::Element::admits))]
fn beginnings(mode: CaseMode, element: &Element) -> ByteSet
    ensures { (b : ℕ) → b < 256 → contains result b ≡ begins mode element.now b }
{
    match element {
        Element::Among(OneByte::Single(item)) => bytes_of(mode, *item),
        Element::Among(one) => ByteSet::of(table_of(mode, one)),
        Element::Except(one) => ByteSet::of(others(&table_of(mode, one))),
        Element::Blanks => ByteSet::Two(b' ', b'\t'),
    }
}

/// Which of the elements before any run, or with the first, may begin with the rarest bytes.
fn rarest(mode: CaseMode, elements: &[Element]) -> usize
    requires { 0 < length elements.now }
    ensures within { result < length elements.now }
    ensures single { AreSingle elements.now result }
{
    let mut rarest = 0;
    let mut least = u32::MAX;
    'offsets: for (offset, element) in elements.iter().enumerate() {
        let frequency = frequency(mode, element);
        if frequency < least {
            rarest = offset;
            least = frequency;
        }
        if element.is_run() {
            break;
        }
    }
    rarest
}

/// Which of some bytes is likely the rarest.
fn rarest_byte(mode: CaseMode, bytes: &[u8]) -> usize
    requires { 0 < length bytes.now }
    ensures { result < length bytes.now }
{
    let mut rarest = 0;
    let mut least = u32::MAX;
    'offsets: for (offset, byte) in bytes.iter().enumerate() {
        let frequency = frequency_of_item(mode, SetItem::Byte(*byte));
        if frequency < least {
            rarest = offset;
            least = frequency;
        }
    }
    rarest
}

impl Anchor {
    /// The anchor of some elements at the one whose bytes are rarest, as far as they can be guessed.
    pub(crate) fn of(mode: CaseMode, elements: &[Element]) -> Anchor
        requires { 0 < length elements.now }
        ensures { IsAnchored mode elements.now result }
    {
        let offset = rarest(mode, elements);
        Anchor {
            offset,
            bytes: beginnings(mode, &elements[offset]),
        }
    }
    /// The anchor of bytes that are looked for as they stand, at the one that is likely the rarest.
    pub(crate) fn of_bytes(mode: CaseMode, bytes: &[u8]) -> Anchor
        requires { 0 < length bytes.now }
        ensures { IsAnchored mode (map plain bytes.now) result }
    {
        let offset = rarest_byte(mode, bytes);
        Anchor {
            offset,
            bytes: bytes_of(mode, SetItem::Byte(bytes[offset])),
        }
    }
}
