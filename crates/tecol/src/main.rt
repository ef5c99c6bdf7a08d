//! The program: turns sources of command strings into bytes and back, and checks them.
#![tactic(auto)]

use std::cell::Cell;
use std::process;
use std::process::ExitCode;
use teco_cli::words_given;
use teco_fs::{FileDisk, Piped, UntilLeft, hold_standard_streams};
use teco_io::{ReaderSource, WriterTerminal};
use tecol_driver::{TecolLine, program};

// That these are the program's words, streams and files is told by no contract.

fn main(rt: HostRuntime) -> ExitCode {
    hold_standard_streams(&rt);
    let has_left = Cell::new(false);
    program(
        rt.alloc(),
        words_given::<TecolLine, HostRuntime>(&rt),
        process::id(rt.process()),
        &mut ReaderSource::new(rt.stdin()),
        &mut WriterTerminal::new(Piped::new(rt.stdout(), &has_left)),
        &mut WriterTerminal::new(UntilLeft::new(rt.stderr(), &has_left)),
        &mut FileDisk::new(&rt),
    )
}
