//! How many lines the pages of an input have at most.
ghost use Rattle.std.specs.Prelude.{◌≡◌, ◌≤◌, ◌<◌, ◌↔◌, ℕ, List, length, IsTrue};
ghost use Rattle.memchr.specs.Find.{is_byte3};
ghost use Rattle.teco_core.specs.declared.limits.TheConstants.{FILE_LIMIT};
ghost use Rattle.teco_cli.specs.declared.line.Line.{Line};
ghost use Rattle.teco_driver.specs.Paging.{PagesFit, lines_within, longest_page, longest_part, page_lines_of};

use memchr::memchr3_iter;
use teco_cli::{Commands, Line};
use teco_core::TEXT_LIMIT;

const LINE_FEED: u8 = 10;

const VERTICAL_TAB: u8 = 11;

const FORM_FEED: u8 = 12;

/// The bytes of a page whose lines are counted: few beside [`TEXT_LIMIT`], so that commands may make it longer.
const PAGE_BYTES: usize = 1 << 20;

/// The length of the longest part of a text that these bytes divide.
fn longest_part(text: &[u8], a: u8, b: u8, c: u8) -> usize
    ensures value { result ≡ longest_part (is_byte3 a b c) 0 text.now }
    ensures within { result ≤ length text.now }
{
    let length = text.len();
    let mut longest = 0;
    let mut from = 0;
    for end in memchr3_iter(a, b, c, text) {
        longest = longest.max(end - from);
        from = end + 1;
    }
    longest.max(length - from)
}

/// Whether a page of an input is longer than a text may be, if form feeds alone end its pages.
fn has_long_page(input: &[u8]) -> bool
    ensures { IsTrue result ↔ (TEXT_LIMIT < longest_page input.now) }
{
    input.len() > TEXT_LIMIT && longest_part(input, FORM_FEED, FORM_FEED, FORM_FEED) > TEXT_LIMIT
}

/// How many lines of an input a short page of it has.
fn lines_within(input: &[u8]) -> usize
    requires { length input.now ≤ FILE_LIMIT }
    ensures { result ≡ lines_within input.now }
{
    let line = longest_part(input, LINE_FEED, VERTICAL_TAB, FORM_FEED);
    (PAGE_BYTES / (line + 1)).max(1)
}

/// The lines after which a page of an input ends, or 0 if form feeds alone end its pages.
pub(crate) fn page_lines_of(line: &Line, input: &[u8]) -> usize
    requires { length input.now ≤ FILE_LIMIT }
    ensures { result ≡ page_lines_of line.now input.now }
{
    match (line.page_lines, &line.commands) {
        (Some(lines), _) => lines as usize,
        (None, Commands::Pages(_)) if has_long_page(input) => lines_within(input),
        (None, _) => 0,
    }
}

/// The law of the pages that commands for every page come to: none of them is too long, if no line is. The call does nothing.
pub fn paging_laws()
    ensures { (line : Line) (input : List ℕ) → PagesFit line input }
{}
