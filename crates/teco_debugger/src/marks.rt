//! Which places of the sources are marked, since a walk that goes on may have to stop there.
ghost use Rattle.std.specs.Prelude.{◌≡◌, ◌+◌, ◌^◌, ◌<◌, IfOk};
ghost use Rattle.teco_debugger.specs.Marks.{AreMarks, MarkText, mark_at, mark_of, spot_behind};

use crate::sources::{SourceText, number_at, place_in_source, shown_string};
use crate::stops::{Break, is_any_there};
use std::alloc::Global;
use teco_core::NoMemory;
use teco_exec::Wants;
use teco_messages::Spot;

/// The line and the column behind a byte.
fn spot_behind(here: Spot, byte: u8) -> Spot
    requires line { here.line + 1 < 2 ^ 64 }
    requires column { here.column + 1 < 2 ^ 64 }
    ensures { result ≡ spot_behind here byte }
{
    if byte == b'\n' {
        return Spot {
            line: here.line + 1,
            column: 1,
        };
    }
    Spot {
        line: here.line,
        column: here.column + 1,
    }
}

/// For each place of a text, as the source of this number, whether one of these is there.
fn marks_in(
    alloc: Global,
    text: &[u8],
    stops: &[Break],
    number: usize,
) -> Result<Vec<bool>, NoMemory>
    ensures { IfOk result (λ marks. MarkText stops.now number text.now marks.items) }
{
    let mut marks = Vec::new(alloc);
    let mut here = Spot { line: 1, column: 1 };
    for byte in text {
        marks.push(is_any_there(stops, number, here))?;
        here = spot_behind(here, *byte);
    }
    marks.push(is_any_there(stops, number, here))?;
    Ok(marks)
}

/// The marks of each source, or of the string if there is none.
pub fn marks_of(
    alloc: Global,
    sources: &[SourceText],
    text: &[u8],
    stops: &[Break],
) -> Result<Vec<Vec<bool>>, NoMemory>
    ensures { IfOk result (λ marks. AreMarks sources.now text.now stops.now marks.items) }
{
    let mut all = Vec::new(alloc);
    for number in 0..sources.len().max(1) {
        let shown = shown_string(sources, number, text);
        all.push(marks_in(alloc, shown, stops, number)?)?;
    }
    Ok(all)
}

/// The places that are sought: those that are marked, with no call open, and all with fewer calls open than `calls`.
#[derive(Clone, Copy)]
pub struct Places<'a> {
    pub sources: &'a [SourceText],
    pub marks: &'a [Vec<bool>],
    pub calls: usize,
}

/// Whether a place of the source of this number is marked.
fn mark_of(marks: &[Vec<bool>], number: usize, place: usize) -> bool
    ensures { result ≡ mark_of marks.now number place }
{
    match marks.get(number) {
        Some(marks) => marks.get(place).copied().unwrap_or(false),
        None => false,
    }
}

/// Whether a place of the string is, where it is shown.
fn mark_at(sources: &[SourceText], marks: &[Vec<bool>], at: usize) -> bool
    ensures { result ≡ mark_at sources.now marks.now at }
{
    let number = number_at(sources, at);
    mark_of(marks, number, place_in_source(sources.get(number), at))
}

impl<'a> Wants for Places<'a> {
    ghost use Rattle.teco_debugger.specs.Marks.{is_wanted};

    ghost wanted = { λ here calls at. is_wanted here.sources.now here.marks.now here.calls calls at };

    fn wants(&self, calls: usize, at: usize) -> bool {
        calls < self.calls || (calls == 0 && mark_at(self.sources, self.marks, at))
    }
}
