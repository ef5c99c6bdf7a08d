//! Tables that are texts. A row is a line after four blanks, with an arrow between blanks from one cell to the next; last cells that are
//! empty are left out. A line that begins with two slashes tells of the rows after it. Where cells have lines of their own, each row is an
//! item of a list.
use super::assert_of;
use super::bytes::is;
use std::alloc::Global;
use std::process::Abort;

/// What is before each line.
pub(crate) const LINE: &str = "\n    ";

/// What is before each item.
const ITEM: &str = "\n    - ";

/// Whether a line is a row.
pub(crate) fn is_row(line: &str) -> bool {
    !line.is_empty() && !line.starts_with("//")
}

/// What the rows of a table say.
pub(crate) trait Rule {
    /// Whether a row holds.
    fn holds(&self, alloc: Global, row: &str) -> bool;
}

/// Each row of a table holds; where memory was refused, the second time.
pub(crate) fn all_hold<R: Rule>(rt: &impl Abort, alloc: Global, rule: &R, table: &str) {
    let before = if table.starts_with(ITEM) { ITEM } else { LINE };
    for line in table.split(before) {
        let held = !is_row(line) || rule.holds(alloc, line) || rule.holds(alloc, line);
        assert_of(rt, line, held);
    }
}

/// Up to nine cells.
pub(crate) type Cells<'a> = [&'a str; 9];

/// The cells of a row, each without the blank that is before it, and empty ones after them.
pub(crate) fn cells_of(row: &str) -> Cells<'_> {
    let mut cells = [""; 9];
    let mut at = 0;
    for part in row.split(" =>") {
        if at < 9 {
            cells[at] = part.strip_prefix(' ').unwrap_or(part);
            at += 1;
        }
    }
    cells
}

/// What is before the first of these in a text, and what is after it; all and nothing where there is none.
pub(crate) fn halves_at<'a>(text: &'a str, between: &str) -> (&'a str, &'a str) {
    text.split_once(between).unwrap_or((text, ""))
}

/// The number that a cell says; another where it is empty.
pub(crate) fn number_or(cell: &str, other: u64) -> u64 {
    if cell.is_empty() {
        return other;
    }
    u64::from_str_radix(cell, 10).unwrap_or(u64::MAX)
}

/// The text of a cell, in which a hyphen is an empty one.
pub(crate) fn text_of(cell: &str) -> &str {
    if is(cell, "-") { "" } else { cell }
}
