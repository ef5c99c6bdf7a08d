//! The program: walks over the steps of a command string, forward and back, by commands on standard input.
#![tactic(auto)]

use std::cell::Cell;
use std::process::ExitCode;
use teco_cli::words_given;
use teco_debugger::{DebuggerLine, is_typed, program};
use teco_fs::{FileDisk, Piped, UntilLeft, hold_standard_streams};
use teco_io::WriterTerminal;

// That these are the program's words, streams and files is told by no contract.

fn main(rt: HostRuntime) -> ExitCode {
    hold_standard_streams(&rt);
    let has_left = Cell::new(false);
    program(
        rt.alloc(),
        words_given::<DebuggerLine, HostRuntime>(&rt),
        is_typed(&rt),
        &mut rt.reader(),
        &mut WriterTerminal::new(Piped::new(rt.stdout(), &has_left)),
        &mut WriterTerminal::new(UntilLeft::new(rt.stderr(), &has_left)),
        &mut FileDisk::new(&rt),
    )
}
