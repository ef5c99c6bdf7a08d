//! Lines and columns.
ghost use Rattle.std.specs.Prelude.{◌≡◌, ◌≤◌, ◌+◌, length, take, drop, count_by};
ghost use Rattle.std.specs.List.{after_last, before_first};
ghost use Rattle.teco_messages.specs.Spot.{is_newline, spot_of};

use std::fmt;

/// A line and a column of a text, from 1 on.
#[derive(Clone, Copy, PartialEq)]
pub struct Spot {
    pub line: u64,
    pub column: u64,
}

impl fmt::Display for Spot {
    ghost use Rattle.std.specs.Prelude.{Some};
    ghost use Rattle.teco_messages.specs.Shown.{spot_shown};

    ghost output = { λ s. Some (spot_shown s) };

    fn fmt<W: fmt::Write>(&self, f: &mut fmt::Formatter<W>) -> fmt::Result {
        let line = self.line;
        let column = self.column;
        write!(f, "{line}:{column}")
    }
}

/// Where the line of a place begins.
pub fn line_start(text: &[u8], at: usize) -> usize
    requires { at ≤ length text.now }
    ensures within { result ≤ at }
    ensures value { at ≡ result + length (after_last is_newline (take at text.now)) }
{
    let mut start = at;
    while start > 0 && text[start - 1] != b'\n' {
        start -= 1;
    }
    start
}

/// Where the line of a place ends.
pub fn line_end(text: &[u8], at: usize) -> usize
    requires { at ≤ length text.now }
    ensures from { at ≤ result }
    ensures within { result ≤ length text.now }
    ensures value { result ≡ at + length (before_first is_newline (drop at text.now)) }
{
    let mut end = at;
    while end < text.len() && text[end] != b'\n' {
        end += 1;
    }
    end
}

/// The line and the column of a place.
pub fn spot_of(text: &[u8], at: usize) -> Spot
    requires { at ≤ length text.now }
    ensures { result ≡ spot_of text.now at }
{
    let mut lines = 0;
    for byte in &text[..at] {
        if *byte == b'\n' {
            lines += 1;
        }
    }
    Spot {
        line: lines + 1,
        column: (at - line_start(text, at)) as u64 + 1,
    }
}
