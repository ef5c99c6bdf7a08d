//! Of teco_driver: the pages of an input that has more bytes than a text may have.
use super::files_after;
use crate::tests::bytes::{are_there, put};
use crate::tests::rows::{Rule, all_hold, cells_of, halves_at, number_or};
use std::alloc::Global;
use std::test::*;
use teco_fs::{MemoryDisk, RefusedCall};

/// A row as those of runs, but for the bytes of the one file, which stay. [4*3] stands for three lines of four bytes, with their ends.
/// Fifteen of these lines have 983055 bytes, and sixteen more than 1048576. Form feeds end pages too, and a vertical tab ends a line.
const SHORT_PAGES: &str = "
    - teco -i -p Z-983055\"NZ=^E=' in => => 917519\r\n0\r\n196611\r\n-1\r\n1\r\n-1\r\n2\r\n0\r\n => => => => [65537*14][1*1][65537*243]\x0cx\x0cx\x0b";

/// A line that doesn't fit is BIG.
const LONG_LINES: &str = "
    - teco -i -p Z= in => => 2\r\n => => teco: in: --pages:1:3: BIG: a text may have 16777216 bytes: --page-lines N makes smaller pages\n => 2 => [2*1][16777217*1]";

/// So is a page that other strings read.
const LONG_PAGES: &str = "
    - teco -i -e YZ=EX$$ in => => => => teco: in: --execute:1:1: BIG: a text may have 16777216 bytes: --page-lines N makes smaller pages\n => 2 => [4194304*4][2*1]";

/// Puts so many lines of so many bytes, each with its end.
fn put_lines(bytes: &mut Vec<u8>, length: usize, lines: u64) {
    for _line in 0..lines {
        let before_end = bytes.len().saturating_add(length).saturating_sub(1);
        let _ = bytes.resize(before_end, b'x').is_ok() || bytes.resize(before_end, b'x').is_ok();
        put(bytes, b"\n");
    }
}

/// The bytes of a cell, with its lines.
fn bytes_with_lines(alloc: Global, cell: &str) -> Vec<u8> {
    let (first, rest) = halves_at(cell, "[");
    let mut bytes = Vec::new(alloc);
    put(&mut bytes, first.as_bytes());
    for part in rest.split('[') {
        let (said, after) = halves_at(part, "]");
        let (length, lines) = halves_at(said, "*");
        put_lines(
            &mut bytes,
            number_or(length, 0) as usize,
            number_or(lines, 0),
        );
        put(&mut bytes, after.as_bytes());
    }
    bytes
}

/// A run over a file with such lines.
#[derive(Clone, Copy)]
struct LargeRuns;

impl Rule for LargeRuns {
    fn holds(&self, alloc: Global, row: &str) -> bool {
        let cells = cells_of(row);
        let before = bytes_with_lines(alloc, cells[6]);
        let mut disk = MemoryDisk::new(alloc, RefusedCall::Nothing);
        let _ = disk.put("in", &before).is_ok() || disk.put("in", &before).is_ok();
        match files_after(alloc, disk, &cells) {
            Some(disk) => are_there(disk.bytes("in"), &before),
            None => false,
        }
    }
}

#[test]
fn large_inputs_have_short_pages(rt: HostRuntime) {
    all_hold(&rt, rt.alloc(), &LargeRuns, SHORT_PAGES);
}

#[test]
fn long_lines_on_pages_are_big(rt: HostRuntime) {
    all_hold(&rt, rt.alloc(), &LargeRuns, LONG_LINES);
}

#[test]
fn long_pages_of_other_strings_are_big(rt: HostRuntime) {
    all_hold(&rt, rt.alloc(), &LargeRuns, LONG_PAGES);
}
