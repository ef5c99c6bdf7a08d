//! Of teco_driver: its parts, and runs of the whole program over files in memory.
use super::bytes::{Screen, are_there, first_of, is, is_typed, joined, screen_of, wide_screen};
use super::line_commands::{checked, explained, kept, manners, shown, sources, values, wide};
use super::rows::{Cells, Rule, all_hold, cells_of, halves_at, number_or};
use super::tecol::runs;
use std::alloc::Global;
use std::cell::Cell;
use std::io;
use std::process::ExitCode;
use std::test::*;
use std::time::{Clock, Duration};
use teco_cli::LineFault;
use teco_driver::{Host, program};
use teco_fs::{MemoryDisk, RefusedCall};
use teco_io::{MemorySource, Source};
use teco_serve::ClockAlarm;

mod arguments;
mod disk;
mod ending;
mod extending;
mod input;
mod inputs;
mod large;
mod limits;
mod line;
mod reader_source;
mod serving;
mod shifting;
mod slips;
mod splitter;
mod word;

/// The words of a text with a blank between them, as the program is given them. A word that was refused memory is left out.
pub(crate) fn words_of(alloc: Global, text: &str) -> Vec<String> {
    parts_of(alloc, text, ' ')
}

/// The parts of a text with this between them. A part that was refused memory is left out.
fn parts_of(alloc: Global, text: &str, between: char) -> Vec<String> {
    let mut words = Vec::new(alloc);
    for word in text.split(between) {
        if let Ok(word) = String::from_str(alloc, word) {
            let _ = words.push(word).is_ok();
        }
    }
    words
}

/// Commands that no run may read, since its line gives others.
const NOT_READ: &str = "Ino\x1b\x1bEX\x1b\x1b";

/// The commands on standard input that a cell says.
fn commands_of(cell: &str) -> &str {
    if cell.is_empty() { NOT_READ } else { cell }
}

/// Whether commands that no run may read are still to be read, if they are such.
fn is_unread(source: &mut MemorySource, commands: &str) -> bool {
    let mut piece = [0; 100];
    !is(commands, NOT_READ)
        || matches!(source.read(&mut piece), Ok(n) if n == NOT_READ.len())
            && piece.starts_with(NOT_READ.as_bytes())
}

/// A clock that tells a second more each time.
#[derive(Drop)]
pub(super) struct Ticking {
    seconds: Cell<u64>,
}

impl Ticking {
    pub(super) fn new() -> Ticking {
        Ticking {
            seconds: Cell::new(0),
        }
    }
}

impl Clock for Ticking {
    fn monotonic(&self) -> io::Result<Duration> {
        let now = self.seconds.get();
        self.seconds.set(now.saturating_add(1));
        Ok(Duration::from_secs(now))
    }

    fn since_1970(&self) -> io::Result<Duration> {
        self.monotonic()
    }
}

/// The status of a run of `tecol`, which needs no alarm.
fn status_of_tecol<A>(
    alloc: Global,
    words: Result<Vec<String>, LineFault>,
    host: &mut Host<MemorySource, A, Screen, MemoryDisk>,
    told: &mut Screen,
) -> ExitCode {
    let (source, to, disk) = (&mut host.commands, &mut host.terminal, &mut host.disk);
    tecol_driver::program(alloc, words, 7, source, to, told, disk)
}

/// The files after a run of `teco` or `tecol` over these; none if it doesn't end so, or doesn't type, tell and note what its row says.
fn files_after(alloc: Global, disk: MemoryDisk, cells: &Cells) -> Option<MemoryDisk> {
    let (line, library) = halves_at(cells[0], " TECO_LIBRARY=");
    let words = if is(cells[8], "no words") {
        Err(LineFault::NoMemory)
    } else {
        Ok(words_of(alloc, line))
    };
    let library = if library.is_empty() {
        Vec::new(alloc)
    } else {
        parts_of(alloc, library, ':')
    };
    let commands = commands_of(cells[1]);
    let bytes = joined(alloc, &[commands.as_bytes()]);
    let clock = Ticking::new();
    let mut host = Host {
        commands: MemorySource::new(bytes, Vec::new(alloc), false),
        alarm: ClockAlarm::new(&clock),
        terminal: screen_of(alloc, if is(cells[8], "no room") { 0 } else { 10_000 }),
        disk,
        process: 7,
    };
    let (mut told, mut noted) = (wide_screen(alloc), wide_screen(alloc));
    let status = if cells[0].starts_with("tecol") {
        status_of_tecol(alloc, words, &mut host, &mut told)
    } else {
        program(
            alloc,
            words,
            library.as_slice(),
            &mut host,
            &mut told,
            &mut noted,
        )
    };
    let held = status == ExitCode::from(number_or(cells[5], 0).min(255) as u8)
        && is_typed(&host.terminal, cells[2])
        && is_typed(&told, cells[3])
        && is_typed(&noted, cells[4])
        && is_unread(&mut host.commands, commands);
    if held { Some(host.disk) } else { None }
}

/// The call that is refused, by the first letter of what a row says: that which reads, makes, writes or syncs, keeps an old file, puts a draft
/// in its place, or that and the removal of the draft; that a file has changed; that an owner can't be kept, or what is written late; that a
/// file is held by another run; that which cuts one.
pub(super) fn refused_of(said: &str) -> RefusedCall {
    match first_of(said) {
        b'r' => RefusedCall::Read,
        b'm' => RefusedCall::Make,
        b'w' => RefusedCall::Write,
        b's' => RefusedCall::Sync,
        b'k' => RefusedCall::Keep,
        b'p' => RefusedCall::Rename,
        b'b' => RefusedCall::RenameAndRemove,
        b'c' => RefusedCall::Changed,
        b'o' => RefusedCall::Owner,
        b'l' => RefusedCall::Changes,
        b'h' => RefusedCall::Hold,
        b't' => RefusedCall::Cut,
        _ => RefusedCall::Nothing,
    }
}

/// The files of a cell, each with its bytes, and empty ones after them.
fn files_of(cell: &str) -> [(&str, &str); 6] {
    let mut files = [("", ""); 6];
    let mut at = 0;
    for file in cell.split(" ++ ") {
        if at < 6 {
            files[at] = halves_at(file, " == ");
            at += 1;
        }
    }
    files
}

/// A disk with the files of a cell, of which a call is refused. Where memory was refused, it is asked for a second time.
fn disk_with(alloc: Global, cell: &str, call: &str) -> MemoryDisk {
    let mut disk = MemoryDisk::new(alloc, refused_of(call));
    for (name, bytes) in &files_of(cell) {
        if !name.is_empty() {
            let bytes = bytes.as_bytes();
            let _ = disk.put(name, bytes).is_ok() || disk.put(name, bytes).is_ok();
        }
    }
    disk
}

/// Whether a disk has the files of a cell alone, of which there are at most five.
fn has_just(disk: &MemoryDisk, cell: &str) -> bool {
    let files = files_of(cell);
    let mut count: usize = 0;
    let mut held = true;
    for (name, bytes) in &files {
        if !name.is_empty() {
            held = are_there(disk.bytes(name), bytes.as_bytes()) && held;
            count = count.saturating_add(1);
        }
    }
    held && count < 6 && disk.has_only(&files[..count.min(6)])
}

/// A run: its words, with blanks between them, and its library after them, if it has one; its commands, where none are said if no run may read them; what it types, tells on standard
/// error and notes there besides; its status, if not 0; the files before it, and those after it, if they are others; and which call of
/// the disk is refused, or that memory for the words was, or all that is to be shown.
#[derive(Clone, Copy)]
struct Runs;

impl Rule for Runs {
    fn holds(&self, alloc: Global, row: &str) -> bool {
        let cells = cells_of(row);
        let after = if cells[7].is_empty() {
            cells[6]
        } else {
            cells[7]
        };
        let disk = disk_with(alloc, cells[6], cells[8]);
        match files_after(alloc, disk, &cells) {
            Some(disk) => has_just(&disk, after),
            None => false,
        }
    }
}

const ROWS: &str = "
    - // An exit writes the output, in the place of what was there, and by another draft where one is taken.
    - teco in => Y\x1b\x1bZ=\x1b\x1bEX\x1b\x1b => 3\r\n => => => => in == hi\n => in == hi\n ++ in.out == hi\n
    - teco in => Y\x1b\x1bZ=\x1b\x1bEX\x1b\x1b => 3\r\n => => => => in == hi\n ++ in.out == old => in == hi\n ++ in.out == hi\n
    - teco in => Y\x1b\x1bZ=\x1b\x1bEX\x1b\x1b => 3\r\n => => => => in == hi\n ++ .teco-7 == theirs => in == hi\n ++ .teco-7 == theirs ++ in.out == hi\n
    - teco --output out in => Y\x1b\x1bZ=\x1b\x1bEX\x1b\x1b => 3\r\n => => => => in == hi\n => in == hi\n ++ out == hi\n
    - // Without an exit there is no output.
    - teco --prompt in => 1=\x1b\x1b => *1\r\n* => => => 2 => in == hi\n
    - teco in => Ia\x1b => => => => 2 => in == hi\n ++ in.out == old
    - // The limit, the seconds and the depth are those of the line. What a string that was broken off leaves is what a limit of its steps leaves, and an undo takes it back. The time of each string begins anew.
    - teco --seconds 3 in => <%A>\x1b\x1bQA=\x1b\x1b2{\x1b\x1bQA=\x1b\x1b => ?LIM\r\n1\r\n0\r\n => => => 2 => in == hi\n
    - teco --limit 2 in => <%A>\x1b\x1bQA=\x1b\x1b2{\x1b\x1bQA=\x1b\x1b => ?LIM\r\n1\r\n0\r\n => => => 2 => in == hi\n
    - teco --seconds 3 in => 1=\x1b\x1b2=\x1b\x1b3=\x1b\x1b4=\x1b\x1b5=\x1b\x1b => 1\r\n2\r\n3\r\n4\r\n5\r\n => => => 2 => in == hi\n
    - // They end a search within its step.
    - teco --seconds 10 in => @I/\x18/HXBGBHXBGB\x1b\x1bHXBGBHXBGBHXBGB\x1b\x1bHXBGBHXBGBHXBGB\x1b\x1bHXBGBHXBGB\x1b\x1bJ@I/Sq/ZJ@I/e\x1b/HXCHK\x1b\x1b@I/q/HXAGAHXAGA\x1b\x1bHXAGAHXAGAHXAGA\x1b\x1bHXAGAHXAGAHXAGA\x1b\x1bHXAGAHXAGAHXAGA\x1b\x1bHXAGA\x1b\x1b5JCCCCCMC\x1b\x1b.=\x1b\x1b => ?LIM\r\n10\r\n => => => 2 => in == hi\n
    - teco --limit 0 in => 1=\x1b\x1b => ?LIM\r\n => => => 2 => in == hi\n
    - teco --limit 5 in => YNc\x1b\x1bHT\x1b\x1b => ?LIM\r\nc => => => 2 => in == a\x0cb\x0cc
    - teco --undo 2 in => Ia\x1b\x1bIb\x1b\x1bIc\x1b\x1b3{\x1b\x1bHT\x1b\x1b => ?NTU\r\na => => => 2 => in == hi\n
    - // An input that is not there.
    - teco none => Y\x1b\x1bZ=\x1b\x1bEX\x1b\x1b => => teco: cannot read none: there is no such file or folder\n => => 1 => in == hi\n
    - // A read that fails.
    - teco in => Y\x1b\x1bZ=\x1b\x1bEX\x1b\x1b => => teco: cannot read in: a read failed\n => => 1 => in == hi\n => => read
    - // An output that cannot be written: what was there stays, and no draft is left but one that can't be removed.
    - teco in => Y\x1b\x1bZ=\x1b\x1bEX\x1b\x1b => 3\r\n => teco: cannot write in.out: permission is denied\n => => 1 => in == hi\n => => make
    - teco in => Y\x1b\x1bZ=\x1b\x1bEX\x1b\x1b => 3\r\n => teco: cannot write in.out: there is no room on the disk\n => => 1 => in == hi\n => => write
    - teco in => Y\x1b\x1bZ=\x1b\x1bEX\x1b\x1b => 3\r\n => teco: cannot write in.out: there is no room on the disk\n => => 1 => in == hi\n => => sync
    - teco in => Y\x1b\x1bZ=\x1b\x1bEX\x1b\x1b => 3\r\n => teco: cannot write in.out: permission is denied\n => => 1 => in == hi\n ++ in.out == old => => place
    - teco in => Y\x1b\x1bZ=\x1b\x1bEX\x1b\x1b => 3\r\n => teco: cannot write in.out: permission is denied\n => => 1 => in == hi\n ++ in.out == old => in == hi\n ++ in.out == old ++ .teco-7 == hi\n => both place and remove
    - // A faulty line.
    - teco --version => Y\x1b\x1bZ=\x1b\x1bEX\x1b\x1b => teco 0.2.0\n => => => => in == hi\n";

/// The tables of runs. Past the last there are no rows. An array of them would cost the proof more.
fn table(at: usize) -> &'static str {
    match at {
        0 => ROWS,
        1 => inputs::ROWS,
        2 => sources::ROWS,
        3 => checked::ROWS,
        4 => explained::ROWS,
        5 => manners::ROWS,
        6 => shown::ROWS,
        7 => runs::ROWS,
        8 => values::ROWS,
        9 => kept::ROWS,
        10 => wide::ROWS,
        _ => "",
    }
}

#[test]
fn runs_over_files(rt: HostRuntime) {
    for at in 0..32 {
        all_hold(&rt, rt.alloc(), &Runs, table(at));
    }
}

#[test]
fn strings_of_options_have_steps_by_their_input(rt: HostRuntime) {
    all_hold(&rt, rt.alloc(), &Runs, limits::BY_OPTIONS);
}

#[test]
fn a_limit_is_told_as_it_holds(rt: HostRuntime) {
    all_hold(&rt, rt.alloc(), &Runs, limits::AS_TOLD);
}
