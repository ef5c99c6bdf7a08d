//! The places to stop at, shown.
ghost use Rattle.std.specs.Prelude.{◌≡◌, ◌+◌, ◌++◌, ◌<◌, OnOk, length, slice_get};
ghost use Rattle.std.specs.String.{string_bytes};
ghost use Rattle.teco_debugger.specs.Breaks.{column_shown, numbered_stop, source_shown, stop_line, stop_lines, stop_shown, stops_shown, test_shown};

use crate::sources::{SourceText, name_or_none};
use crate::stops::{Break, Stop};
use std::fmt::Write;
use teco_core::NoMemory;
use teco_messages::spell;

/// Shows the source of a place, if it is in a certain one.
fn show_source(
    out: &mut String,
    sources: &[SourceText],
    source: Option<usize>,
) -> Result<(), NoMemory>
    ensures { OnOk result (string_bytes out.new ≡ string_bytes out.old ++ source_shown sources.now source) }
{
    match source {
        None => Ok(()),
        Some(number) => {
            out.push_str(name_or_none(sources, number))?;
            out.push_str(":")
        }
    }
}

/// Shows the column of a place, if it is in a certain one.
fn show_column(out: &mut String, column: Option<u64>) -> Result<(), NoMemory>
    ensures { OnOk result (string_bytes out.new ≡ string_bytes out.old ++ column_shown column) }
{
    match column {
        None => Ok(()),
        Some(column) => write!(out, ":{column}"),
    }
}

/// Shows a place to stop at, as `break` takes it.
#[tactic(auto, unfolding(crate::specs::Breaks::stop_shown))]
fn show_stop(out: &mut String, sources: &[SourceText], stop: Stop) -> Result<(), NoMemory>
    ensures { OnOk result (string_bytes out.new ≡ string_bytes out.old ++ stop_shown sources.now stop) }
{
    let line = stop.line;
    show_source(out, sources, stop.source)?;
    write!(out, "{line}")?;
    show_column(out, stop.column)
}

/// Shows the string that a place to stop at depends on, if there is one.
fn show_test(out: &mut String, test: &Option<Vec<u8>>) -> Result<(), NoMemory>
    ensures { OnOk result (string_bytes out.new ≡ string_bytes out.old ++ test_shown test.now) }
{
    match test {
        None => Ok(()),
        Some(test) => {
            out.push_str(" if ")?;
            spell(out, test.as_slice())
        }
    }
}

/// Shows a place to stop at with its number, in a line.
#[tactic(auto, unfolding(crate::specs::Breaks::numbered_stop))]
fn show_numbered_stop(
    out: &mut String,
    sources: &[SourceText],
    number: usize,
    it: &Break,
) -> Result<(), NoMemory>
    ensures { OnOk result (string_bytes out.new ≡ string_bytes out.old ++ numbered_stop sources.now number it.now) }
{
    write!(out, "{number}: ")?;
    show_stop(out, sources, it.stop)?;
    show_test(out, &it.test)?;
    out.push_str("\n")
}

/// Shows the place to stop at after `k` others, in a line.
fn show_stop_line(
    out: &mut String,
    sources: &[SourceText],
    stops: &[Break],
    k: usize,
) -> Result<(), NoMemory>
    requires { k < length stops.now }
    ensures { OnOk result (string_bytes out.new ≡ string_bytes out.old ++ stop_line sources.now k (slice_get stops.now k)) }
{
    match stops.get(k) {
        None => Ok(()),
        Some(it) => show_numbered_stop(out, sources, k + 1, it),
    }
}

/// Shows a line for each place to stop at.
fn show_stop_lines(
    out: &mut String,
    sources: &[SourceText],
    stops: &[Break],
) -> Result<(), NoMemory>
    ensures { OnOk result (string_bytes out.new ≡ string_bytes out.old ++ stop_lines sources.now stops.now (length stops.now)) }
{
    for k in 0..stops.len() {
        show_stop_line(out, sources, stops, k)?;
    }
    Ok(())
}

/// Shows the places to stop at, with their numbers, or says that there is none.
pub fn show_stops(out: &mut String, sources: &[SourceText], stops: &[Break]) -> Result<(), NoMemory>
    ensures { OnOk result (string_bytes out.new ≡ string_bytes out.old ++ stops_shown sources.now stops.now) }
{
    if stops.is_empty() {
        return out.push_str("no place to stop at is noted\n");
    }
    show_stop_lines(out, sources, stops)
}
