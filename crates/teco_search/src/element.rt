//! The elements of a search text, and which bytes they admit.
ghost use Rattle.std.specs.Prelude.{◌≡◌, ◌↔◌, ◌<◌, ◌||◌, ◌==◌, ℕ, false, IsTrue, IfOk, IfErr, Some};
ghost use Rattle.std.specs.List.{list_any};
ghost use Rattle.teco_search.specs.Anchor.{begins};
ghost use Rattle.teco_search.specs.ByteSet.{in_table};
ghost use Rattle.teco_search.specs.Element.{is_blank, is_in, is_same, item_admits, admits};
ghost use Rattle.teco_search.specs.Literal.{is_exact};
ghost use Rattle.teco_search.specs.Shown.{shown_class, shown_element, shown_item, shown_items, shown_one};

use crate::byte_table::Tables;
use std::alloc::Global;
use std::fmt::{self, Display};
use std::marker::Model;
use teco_core::{CaseMode, Code, is_line_end};

/// A kind of bytes. Letters and digits are those of ASCII.
#[derive(Clone, Copy)]
pub enum Class {
    /// Any byte.
    Any,
    /// Neither a letter nor a digit.
    Other,
    Letter,
    Digit,
    /// LF, VT or FF.
    LineEnd,
    LetterOrDigit,
    LowerCase,
    UpperCase,
}

/// What one byte may be: a given byte, or one of a kind.
#[derive(Clone, Copy)]
pub enum SetItem {
    Byte(u8),
    Class(Class),
}

/// The items of a list. What is read has at least one.
///
/// Its tables tell of a byte at once whether an item admits it, however many items there are.
#[derive(Drop)]
pub struct Items {
    items: Vec<SetItem>,
    tables: Box<Tables>,
}

impl Model for Items {
    ghost use Rattle.std.specs.Prelude.{List};
    ghost use Rattle.teco_search.specs.declared.element.SetItem.{SetItem};

    ghost Value = { List SetItem };

    ghost use Rattle.teco_search.specs.ByteSet.{AreTablesOf};

    ghost view = { λ i. i.items.items };

    ghost invariant = { λ i. AreTablesOf i.tables.value i.items.items };
}

/// One item, or a list of them.
#[derive(Drop)]
pub enum OneByte {
    Single(SetItem),
    Listed(Items),
}

/// A part of a search text that matches by itself.
#[derive(Drop)]
pub enum Element {
    /// A byte that one of these admits.
    Among(OneByte),
    /// A byte that none of these admits.
    Except(OneByte),
    /// The longest run of spaces and tabs, at least one.
    Blanks,
}

/// Whether a byte is a space or a tab.
#[inline]
pub(crate) fn is_blank(byte: u8) -> bool
    ensures { result ≡ is_blank byte }
{
    byte == b' ' || byte == b'\t'
}

/// Whether a byte as an item admits itself alone.
#[inline(always)]
pub(crate) fn is_exact(mode: CaseMode, byte: u8) -> bool
    ensures { result ≡ is_exact mode byte }
{
    match mode {
        CaseMode::Exact => true,
        CaseMode::Either => !byte.is_ascii_alphabetic(),
    }
}

/// A letter in both its cases, where it does not admit itself alone.
pub(crate) fn both_cases(mode: CaseMode, letter: u8) -> (u8, u8)
    requires { is_exact mode letter ≡ false }
    ensures { (b : ℕ) → (b == result.0 || b == result.1) ≡ is_same mode letter b }
{
    (letter.to_ascii_lowercase(), letter.to_ascii_uppercase())
}

impl Class {
    /// Whether a byte is of this kind.
    #[tactic(auto, unfolding(crate::specs::Element::is_in))]
    #[inline]
    pub(crate) fn contains(self, byte: u8) -> bool
        ensures { result ≡ is_in self byte }
    {
        match self {
            Class::Any => true,
            Class::Other => !byte.is_ascii_alphanumeric(),
            Class::Letter => byte.is_ascii_alphabetic(),
            Class::Digit => byte.is_ascii_digit(),
            Class::LineEnd => is_line_end(byte),
            Class::LetterOrDigit => byte.is_ascii_alphanumeric(),
            Class::LowerCase => byte.is_ascii_lowercase(),
            Class::UpperCase => byte.is_ascii_uppercase(),
        }
    }
}

impl SetItem {
    /// Whether a byte may be here. With either case a letter admits both its cases.
    #[tactic(auto, unfolding(crate::specs::Element::item_admits))]
    #[inline]
    pub(crate) fn admits(self, mode: CaseMode, byte: u8) -> bool
        ensures { result ≡ item_admits mode self byte }
    {
        match self {
            SetItem::Class(class) => class.contains(byte),
            SetItem::Byte(own) => match mode {
                CaseMode::Exact => own == byte,
                CaseMode::Either => own.to_ascii_uppercase() == byte.to_ascii_uppercase(),
            },
        }
    }
}

impl Items {
    /// A list of these items.
    pub(crate) fn new(alloc: Global, items: Vec<SetItem>) -> Result<Items, Code>
        ensures ok { IfOk result (λ list. list ≡ items.items) }
        ensures err { IfErr result (λ e. e ≡ Code.Mem) }
    {
        match Box::new(alloc, Tables::of(&items)) {
            Ok(tables) => Ok(Items { items, tables }),
            Err(_) => Err(Code::Mem),
        }
    }

    pub(crate) fn as_slice(&self) -> &[SetItem]
        ensures { result.now ≡ self.now }
    {
        self.items.as_slice()
    }

    /// The table of the bytes that one of the items admits.
    #[inline]
    pub(crate) fn table(&self, mode: CaseMode) -> &[bool; 256]
        ensures { (b : ℕ) → b < 256 → in_table result.now b ≡ list_any (λ i. item_admits mode i b) self.now }
    {
        self.tables.in_mode(mode)
    }

    /// Whether one of the items admits a byte.
    #[inline]
    pub(crate) fn admit(&self, mode: CaseMode, byte: u8) -> bool
        ensures { result ≡ list_any (λ i. item_admits mode i byte) self.now }
    {
        self.table(mode)[usize::from(byte)]
    }
}

impl OneByte {
    /// Whether a byte may be here.
    #[tactic(auto, unfolding(crate::specs::Element::admits))]
    #[inline]
    pub(crate) fn admits(&self, mode: CaseMode, byte: u8) -> bool
        ensures { result ≡ admits mode self.now byte }
    {
        match self {
            OneByte::Single(item) => item.admits(mode, byte),
            OneByte::Listed(items) => items.admit(mode, byte),
        }
    }
}

impl Element {
    /// Whether it is a run of spaces and tabs.
    #[inline]
    pub(crate) fn is_run(&self) -> bool
        ensures { IsTrue result ↔ (self.now ≡ Element.Blanks) }
    {
        match self {
            Element::Blanks => true,
            Element::Among(_) | Element::Except(_) => false,
        }
    }
}

impl fmt::Display for Class {
    ghost output = { λ class. Some (shown_class class) };

    fn fmt<W: fmt::Write>(&self, f: &mut fmt::Formatter<W>) -> fmt::Result {
        f.write_str(match self {
            Class::Any => "^EX",
            Class::Other => "^EB",
            Class::Letter => "^EA",
            Class::Digit => "^ED",
            Class::LineEnd => "^EL",
            Class::LetterOrDigit => "^ER",
            Class::LowerCase => "^EV",
            Class::UpperCase => "^EW",
        })
    }
}

impl fmt::Display for SetItem {
    ghost output = { λ item. Some (shown_item item) };

    /// A byte is shown as itself, or by its code where it is no ASCII character that shows.
    fn fmt<W: fmt::Write>(&self, f: &mut fmt::Formatter<W>) -> fmt::Result {
        match self {
            SetItem::Byte(byte) => {
                if matches!(*byte, b' '..=b'~') {
                    f.write_char(char::from(*byte))
                } else {
                    write!(f, "<{byte}>")
                }
            }
            SetItem::Class(class) => class.fmt(f),
        }
    }
}

impl fmt::Display for Items {
    ghost output = { λ items. Some (shown_items items) };

    fn fmt<W: fmt::Write>(&self, f: &mut fmt::Formatter<W>) -> fmt::Result {
        let mut between = "";
        'items: for item in self.items.as_slice() {
            write!(f, "{between}{item}")?;
            between = ",";
        }
        Ok(())
    }
}

impl fmt::Display for OneByte {
    ghost output = { λ one. Some (shown_one one) };

    fn fmt<W: fmt::Write>(&self, f: &mut fmt::Formatter<W>) -> fmt::Result {
        match self {
            OneByte::Single(item) => item.fmt(f),
            OneByte::Listed(items) => write!(f, "^E[{items}]"),
        }
    }
}

impl fmt::Display for Element {
    ghost output = { λ element. Some (shown_element element) };

    fn fmt<W: fmt::Write>(&self, f: &mut fmt::Formatter<W>) -> fmt::Result {
        match self {
            Element::Among(one) => one.fmt(f),
            Element::Except(one) => write!(f, "^N{one}"),
            Element::Blanks => f.write_str("^ES"),
        }
    }
}
