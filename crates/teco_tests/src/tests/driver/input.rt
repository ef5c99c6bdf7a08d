//! What is read of sources that end, fail, or give too much.
use crate::tests::bytes::{are, is, joined};
use crate::tests::rows::{Rule, all_hold, cells_of, number_or};
use std::alloc::Global;
use std::test::*;
use teco_io::{FailAfter, InputFault, MemorySource, ReaderSource, Source, read_input};

/// Whether reading a source ends so: with all eight bytes, or by a fault.
fn reads<S: Source>(alloc: Global, source: &mut S, most: usize, wanted: &str) -> bool {
    match read_input(alloc, source, most) {
        Ok(input) => is(wanted, "all") && are(&input, b"12345678"),
        Err(InputFault::Read) => is(wanted, "failed"),
        Err(InputFault::TooLarge) => is(wanted, "large"),
        Err(InputFault::Memory) => false,
    }
}

/// The bytes of a source, the most that may be, what reading it gives, and how it ends.
#[derive(Clone, Copy)]
struct Inputs;

impl Rule for Inputs {
    /// A reader fails after its bytes; a source in memory gives them in three pieces, and then ends or fails.
    fn holds(&self, alloc: Global, row: &str) -> bool {
        let [bytes, most, wanted, end, ..] = cells_of(row);
        let bytes = joined(alloc, &[bytes.as_bytes()]);
        let most = number_or(most, 0) as usize;
        if is(end, "reader") {
            let reader = FailAfter::new(bytes);
            return reads(alloc, &mut ReaderSource::new(reader), most, wanted);
        }
        let mut cuts = Vec::new(alloc);
        let _ = cuts.push(3).is_ok() && cuts.push(5).is_ok();
        let mut source = MemorySource::new(bytes, cuts, is(end, "fails"));
        reads(alloc, &mut source, most, wanted)
    }
}

const ROWS: &str = "
    // With room for all bytes, and more, and with too little.
    12345678 => 8 => all
    12345678 => 9 => all
    12345678 => 1073741824 => all
    12345678 => 8 => failed => fails
    12345678 => 9 => failed => fails
    12345678 => 1073741824 => failed => fails
    12345678 => 0 => large
    12345678 => 2 => large
    12345678 => 3 => large
    12345678 => 7 => large
    12345678 => 0 => large => fails
    12345678 => 2 => large => fails
    12345678 => 3 => large => fails
    12345678 => 7 => large => fails
    // However many bytes came before the read that fails, no part of them is read.
     => 8 => failed => reader
    1 => 8 => failed => reader
    12 => 8 => failed => reader
    123 => 8 => failed => reader
    1234 => 8 => failed => reader
    12345 => 8 => failed => reader
    123456 => 8 => failed => reader
    1234567 => 8 => failed => reader
    12345678 => 8 => failed => reader
    ";

#[test]
fn reads_all_or_a_fault(rt: HostRuntime) {
    all_hold(&rt, rt.alloc(), &Inputs, ROWS);
}
