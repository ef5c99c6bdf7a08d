//! The program: reads the input file, serves the commands on standard input, and writes the output file.
#![tactic(auto)]

use std::alloc::AllocError;
use std::cell::Cell;
use std::env::VarError;
use std::process::ExitCode;
use std::{env, process};
use teco_cli::{Line, LineFault, words_given};
use teco_driver::{Host, program};
use teco_fs::{FileDisk, Piped, UntilLeft, hold_standard_streams};
use teco_io::{ReaderSource, WriterTerminal};
use teco_serve::ClockAlarm;

// The theorem ends here: that these are the program's words, streams, clock and files is told by no contract.

/// The folders that `$TECO_LIBRARY` names, with colons between them; none, if it is not set or no text.
fn library_of(rt: &HostRuntime) -> Result<Vec<String>, AllocError> {
    let mut folders = Vec::new(rt.alloc());
    let names = match env::var(rt, "TECO_LIBRARY") {
        Ok(names) => names,
        Err(VarError::OutOfMemory) => return Err(AllocError),
        Err(_) => return Ok(folders),
    };
    for name in names.as_str().split(':') {
        if !name.is_empty() {
            folders.push(String::from_str(rt.alloc(), name)?)?;
        }
    }
    Ok(folders)
}

fn main(rt: HostRuntime) -> ExitCode {
    hold_standard_streams(&rt);
    let has_left = Cell::new(false);
    let mut host = Host {
        commands: ReaderSource::new(rt.stdin()),
        alarm: ClockAlarm::new(&rt),
        terminal: WriterTerminal::new(Piped::new(rt.stdout(), &has_left)),
        disk: FileDisk::new(&rt),
        process: process::id(rt.process()),
    };
    let (words, library) = match library_of(&rt) {
        Ok(library) => (words_given::<Line, HostRuntime>(&rt), library),
        Err(AllocError) => (Err(LineFault::NoMemory), Vec::new(rt.alloc())),
    };
    program(
        rt.alloc(),
        words,
        library.as_slice(),
        &mut host,
        &mut WriterTerminal::new(UntilLeft::new(rt.stderr(), &has_left)),
        &mut WriterTerminal::new(UntilLeft::new(rt.stderr(), &has_left)),
    )
}
