//! Tables that tell of each byte whether it may be here. Those of a list are made item by item, once.
ghost use Rattle.std.specs.Prelude.{◌≡◌, ◌<◌, ◌==◌, ℕ, not};
ghost use Rattle.std.specs.List.{list_any};
ghost use Rattle.teco_search.specs.ByteSet.{Adds, AreTablesOf, in_table, table_in};
ghost use Rattle.teco_search.specs.Element.{admits, is_in, item_admits};

use crate::element::{Class, OneByte, SetItem, both_cases, is_exact};
use teco_core::CaseMode;

/// The bytes that a list admits, for each case mode.
#[derive(Clone, Copy)]
pub(crate) struct Tables {
    exact: [bool; 256],
    either: [bool; 256],
}

/// Adds a byte to a table.
fn add_byte(table: &mut [bool; 256], byte: u8)
    ensures { Adds table.old table.new (λ b. b == byte) }
{
    table[usize::from(byte)] = true;
}

/// Adds the bytes of a kind to a table.
fn add_class(table: &mut [bool; 256], class: Class)
    ensures { Adds table.old table.new (is_in class) }
{
    'bytes: for byte in 0..256usize {
        if class.contains(byte as u8) {
            table[byte] = true;
        }
    }
}

/// Adds the bytes that an item admits to a table.
#[tactic(auto, unfolding(crate::specs::Element::item_admits))]
fn add_item(table: &mut [bool; 256], mode: CaseMode, item: SetItem)
    ensures { Adds table.old table.new (item_admits mode item) }
{
    match item {
        SetItem::Class(class) => add_class(table, class),
        SetItem::Byte(byte) if is_exact(mode, byte) => add_byte(table, byte),
        SetItem::Byte(byte) => {
            let (lower, upper) = both_cases(mode, byte);
            add_byte(table, lower);
            add_byte(table, upper);
        }
    }
}

/// The table of the bytes that one of some items admits.
fn table_of_items(mode: CaseMode, items: &[SetItem]) -> [bool; 256]
    ensures { (b : ℕ) → b < 256 → in_table result b ≡ list_any (λ i. item_admits mode i b) items.now }
{
    let mut table = [false; 256];
    'items: for item in items {
        add_item(&mut table, mode, *item);
    }
    table
}

impl Tables {
    /// The tables of a list of items.
    pub(crate) fn of(items: &[SetItem]) -> Tables
        ensures { AreTablesOf result items.now }
    {
        Tables {
            exact: table_of_items(CaseMode::Exact, items),
            either: table_of_items(CaseMode::Either, items),
        }
    }

    /// The table of a case mode.
    #[inline]
    pub(crate) fn in_mode(&self, mode: CaseMode) -> &[bool; 256]
        ensures { result.now ≡ table_in mode self.now }
    {
        match mode {
            CaseMode::Exact => &self.exact,
            CaseMode::Either => &self.either,
        }
    }
}

/// The table of the bytes that are admitted here.
#[tactic(auto, unfolding(crate::specs::Element::admits))]
pub(crate) fn table_of(mode: CaseMode, one: &OneByte) -> [bool; 256]
    ensures { (b : ℕ) → b < 256 → in_table result b ≡ admits mode one.now b }
{
    match one {
        OneByte::Single(item) => table_of_items(mode, &[*item]),
        OneByte::Listed(items) => *items.table(mode),
    }
}

/// The table of all other bytes.
pub(crate) fn others(table: &[bool; 256]) -> [bool; 256]
    ensures { (b : ℕ) → b < 256 → in_table result b ≡ not (in_table table.now b) }
{
    let mut others = [false; 256];
    'bytes: for byte in 0..256usize {
        others[byte] = !table[byte];
    }
    others
}
