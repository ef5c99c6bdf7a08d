//! Of teco_recorder: the file of a session is begun or gone on with, and written as a stream is served, over files in memory. The checks are
//! those of another program.
ghost use Rattle.std.specs.Prelude.{◌≡◌, Some};

use super::bytes::{are_there, is, is_typed, joined, wide_screen};
use super::driver::{Ticking, refused_of};
use super::rows::{Cells, Rule, all_hold, cells_of, halves_at, number_or, text_of};
use std::alloc::Global;
use std::test::*;
use teco_core::{DEPTH_LIMIT, FILE_LIMIT, Profile};
use teco_fs::MemoryDisk;
use teco_io::MemorySource;
use teco_journal::Start;
use teco_recorder::{
    Asked, HearsReplay, OpenFault, Opened, Recorder, open_session, serve_recorded,
};
use teco_serve::{Bounds, ClockAlarm, Manner, Settings, Silent};

/// The file of the session.
const FILE: &str = "s";

/// The head of a session over `ab`, which a plus stands for.
const HEAD: &str = "teco session 1\nlines 0\ndepth -\ninput 2\nab\nf78827da5cdb0018 begun\n";

/// The file before; the lines of a page, the depth and the input that it may be begun with; the lines and the depth that are asked for, and
/// whether the wide profile is; the commands; how it is opened, with how many records and torn bytes, and whether a line could not be written
/// then; what is typed; the file after it; which call is refused; and how many steps are heard of, with a hyphen for none. With an equals sign
/// the file is as it was.
const ROWS: &str = "
    - // It is begun where no file is, or one that ends before a head does.
    - none => 0 - ab => - - => Y\x1b\x1bHT\x1b\x1b => open 0 0 => ab => +6f6d4bb1d9dcf1a1 run 1 Y$\naac9147d153caa7e run 2 HT$\n => => -
    - - => 0 - ab => - - => - => open 0 0 => - => +
    - teco session 1\nlines 0\ndepth -\ninput 2\na => 66 20 xyz => - - => Y\x1b\x1b => open 0 0 => - => teco session 1\nlines 66\ndepth 20\ninput 3\nxyz\nded49c42324136f5 begun\n076d911f80605de8 run 1 Y$\n
    - // It is gone on with, and what was undone can be redone.
    - + => 0 - ab => - - => Y\x1b\x1bHT\x1b\x1b => open 0 0 => ab => +6f6d4bb1d9dcf1a1 run 1 Y$\naac9147d153caa7e run 2 HT$\n => => 0
    - +6f6d4bb1d9dcf1a1 run 1 Y$\n => 0 - ab => - - => HT\x1b\x1b => open 1 0 => ab => +6f6d4bb1d9dcf1a1 run 1 Y$\naac9147d153caa7e run 2 HT$\n
    - +6f6d4bb1d9dcf1a1 run 1 Y$\n537cdc2ec787d104 undo\n => 0 - ab => - - => }\x1b\x1bHT\x1b\x1b => open 2 0 => ab => +6f6d4bb1d9dcf1a1 run 1 Y$\n537cdc2ec787d104 undo\naa83849c6c4d42a6 redo\n8c107218022b6171 run 2 HT$\n
    - +2834494091cca95d run 2 HT$\n => 0 - ab => - - => Y\x1b\x1bHT\x1b\x1b1~\x1b\x1b => open 1 0 => ab => +2834494091cca95d run 2 HT$\n58afc04f7601c30f run 1 Y$\nf6ae7c30fb911c0c run 2 HT$\nc633f98a15faf643 rewind 1\n => => 2
    - // A line that has no end is cut off.
    - +6f6d4bb1d9dcf1a1 run 1 Y$\naac9147d153caa7e run 2 HT$ => 0 - ab => - - => HT\x1b\x1b => open 1 26 => ab => +6f6d4bb1d9dcf1a1 run 1 Y$\naac9147d153caa7e run 2 HT$\n => => 1
    - +6f6d4bb1d9dcf1a1 run 1 Y$ => 0 - ab => - - => - => open 0 25 => - => +
    - // What was asked for is what it was begun with.
    - +6f6d4bb1d9dcf1a1 run 1 Y$\n => 0 - ab => 0 - => - => open 1 0 => - => =
    - teco session 1\nlines 66\ndepth 20\ninput 3\nxyz\nded49c42324136f5 begun\n076d911f80605de8 run 1 Y$\n => 0 - xyz => 66 20 => - => open 1 0 => - => =
    - +6f6d4bb1d9dcf1a1 run 1 Y$\n => 0 - ab => 66 - => - => settings => - => =
    - +6f6d4bb1d9dcf1a1 run 1 Y$\n => 0 - ab => - 20 => - => settings => - => = => => -
    - teco session 1\nlines 66\ndepth 20\ninput 3\nxyz\nded49c42324136f5 begun\n076d911f80605de8 run 1 Y$\n => 0 - xyz => 66 21 => - => settings => - => =
    - // A session begins in the profile that is asked for, and goes on in that of its file, in which its strings run again.
    - none => 0 - ab => - - wide => - => open 0 0 => - => teco session 1 wide\nlines 0\ndepth -\ninput 2\nab\n587671a71e93b4f9 begun\n
    - teco session 1 wide\nlines 0\ndepth -\ninput 2\nab\n587671a71e93b4f9 begun\n3e5e01f4bb591e3e run 1 Y$\nfdbf597f467ea216 run 3 0\"=Ixy$'$\n => 0 - ab => - - => HT\x1b\x1b => open 2 0 => xyab => teco session 1 wide\nlines 0\ndepth -\ninput 2\nab\n587671a71e93b4f9 begun\n3e5e01f4bb591e3e run 1 Y$\nfdbf597f467ea216 run 3 0\"=Ixy$'$\n614d0e652450ef92 run 2 HT$\n => => 4
    - teco session 1 wide\nlines 0\ndepth -\ninput 2\nab\n587671a71e93b4f9 begun\n => 0 - ab => - - wide => - => open 0 0 => - => =
    - + => 0 - ab => - - wide => - => settings => - => = => => -
    - // A line that is not as it was written is told, and nothing is changed.
    - +6f6d4bb1d9dcf1a1 run 1 Y$\naac9147d153caa7e run 3 HT$\n => 0 - ab => - - => - => changed 2 => - => = => => -
    - +6f6d4bb1d9dcf1a1 run 1 Y$\n6f6d4bb1d9dcf1a1 run 1 Y$\n => 0 - ab => - - => - => changed 2 => - => =
    - +aac9147d153caa7e run 2 HT$\n => 0 - ab => - - => - => changed 1 => - => =
    - +6f6d4bb1d9dcf1a1 run 1 Y$\ndb48f2b66c2f8623 leave\n => 0 - ab => - - => - => changed 2 => - => =
    - // So is another version, a file of another kind, and a head that is not as it was written, or has a depth that is too large.
    - teco session 2\n => 0 - ab => - - => - => version => - => =
    - my text\n => 0 - ab => - - => - => version => - => =
    - teco session 1\nlines 0\ndepth -\ninput 2\ncd\nf78827da5cdb0018 begun\n => 0 - ab => - - => - => head => - => =
    - teco session 1\nlines 0\ndepth 100001\ninput 2\nab\ndefaf6bad3148848 begun\n => 0 - ab => - - => - => head => - => =
    - // Steps and an undo that can't have been.
    - +6f6d4bb1d9dcf1a1 run 1 Y$\n826a89397efcb208 run 5 HT$\n => 0 - ab => - - => - => replay => - => = => => 6
    - +e757019bf466f00f undo\n => 0 - ab => - - => - => replay => - => =
    - // Another input is told, unless it is the output of the last exit.
    - +6f6d4bb1d9dcf1a1 run 1 Y$\n => 0 - abc => - - => - => input => - => =
    - +6f6d4bb1d9dcf1a1 run 1 Y$\n => 0 - - => - - => - => input => - => =
    - +a9c3a794285b42c5 run 3 YIx$EX$\n => 0 - xab => - - => {\x1b\x1bYHT\x1b\x1b => open 1 0 => ab => +a9c3a794285b42c5 run 3 YIx$EX$\ne052cac47c164607 undo\n119919e1c4d4ed78 run 3 YHT$\n
    - +a9c3a794285b42c5 run 3 YIx$EX$\ne052cac47c164607 undo\n => 0 - xab => - - => - => open 2 0 => - => =
    - +a9c3a794285b42c5 run 3 YIx$EX$\ne052cac47c164607 undo\n => 0 - ab => - - => - => open 2 0 => - => =
    - +a9c3a794285b42c5 run 3 YIx$EX$\ne052cac47c164607 undo\n0a2aab93f175653a run 2 YEX$\n => 0 - xab => - - => - => input => - => = => => 5
    - // A call that is refused leaves what the file told.
    - +6f6d4bb1d9dcf1a1 run 1 Y$\n => 0 - ab => - - => - => file => - => = => held
    - none => 0 - ab => - - => - => file => - => none => make => -
    - +6f6d4bb1d9dcf1a1 run 1 Y$\n => 0 - ab => - - => - => file => - => = => read
    - teco session 1\nlines 0\ndepth -\ninput 2\na => 0 - ab => - - => - => file => - => = => to cut
    - +6f6d4bb1d9dcf1a1 run 1 Y$\naac9147d153caa7e run 2 HT$ => 0 - ab => - - => - => file => - => = => to cut
    - none => 0 - ab => - - => - => file => - => teco session 1\nlines 0\ndepth -\ni => write
    - none => 0 - ab => - - => - => file => - => + => sync
    - // Where a line can't be written, the editing goes on, and no more are written.
    - + => 0 - ab => - - => Y\x1b\x1bHT\x1b\x1b => broken 0 0 => ab => +6f6d4bb1d9dcf => write
    - + => 0 - ab => - - => Y\x1b\x1bHT\x1b\x1b => broken 0 0 => ab => +6f6d4bb1d9dcf1a1 run 1 Y$\naac9147d153caa7e run 2 HT$\n => sync";

/// A number of a cell, if it has one.
fn number_in(cell: &str) -> Option<usize> {
    if is(cell, "-") {
        None
    } else {
        Some(number_or(cell, 0) as usize)
    }
}

/// What is asked for.
fn asked_of(cell: &str) -> Asked {
    let (lines, rest) = halves_at(cell, " ");
    let (depth, profile) = halves_at(rest, " ");
    Asked {
        profile: if is(profile, "wide") {
            Some(Profile::Wide)
        } else {
            None
        },
        lines: number_in(lines),
        depth: number_in(depth),
    }
}

/// Hears how many steps are run again.
#[derive(Drop)]
struct Ear {
    heard: Option<u128>,
}

impl HearsReplay for Ear {
    ghost hears = { λ _ new steps. new.heard ≡ Some steps };

    fn replays(&mut self, steps: u128) {
        self.heard = Some(steps);
    }
}

/// Whether so many steps were heard of, or none, where a cell says it.
fn is_heard(heard: Option<u128>, cell: &str) -> bool {
    match heard {
        _ if cell.is_empty() => true,
        Some(steps) => steps == u128::from(number_or(cell, 0)),
        None => is(cell, "-"),
    }
}

/// The session that a file is opened with: the lines of a page, the depth and the input of one that begins, and what is asked for.
fn opened_of(
    alloc: Global,
    cells: &Cells,
    disk: &mut MemoryDisk,
    ear: &mut Ear,
) -> Result<Opened<MemoryDisk>, OpenFault> {
    let (lines, rest) = halves_at(cells[1], " ");
    let (depth, input) = halves_at(rest, " ");
    let depth = match number_in(depth) {
        Some(depth) => Some(depth.min(DEPTH_LIMIT)),
        None => None,
    };
    let mut input = joined(alloc, &[text_of(input).as_bytes()]);
    input.truncate(FILE_LIMIT);
    let asked = asked_of(cells[2]);
    let start = Start {
        profile: asked.profile.unwrap_or(Profile::Named),
        lines: number_or(lines, 0) as usize,
        depth,
        input: input.as_slice(),
    };
    open_session(alloc, FILE, start, asked, disk, ear)
}

/// The bytes of a file.
fn file_of(alloc: Global, cell: &str) -> Vec<u8> {
    match cell.strip_prefix('+') {
        Some(lines) => joined(alloc, &[HEAD.as_bytes(), lines.as_bytes()]),
        None => joined(alloc, &[text_of(cell).as_bytes()]),
    }
}

/// A disk with the file before.
fn disk_before(alloc: Global, cells: &Cells) -> MemoryDisk {
    let mut disk = MemoryDisk::new(alloc, refused_of(cells[7]));
    if !is(cells[0], "none") {
        let bytes = file_of(alloc, cells[0]);
        let _ = disk.put(FILE, &bytes).is_ok() || disk.put(FILE, &bytes).is_ok();
    }
    disk
}

/// Whether a disk has the file after.
fn has_file_after(alloc: Global, disk: &MemoryDisk, cells: &Cells) -> bool {
    let wanted = if is(cells[6], "=") {
        cells[0]
    } else {
        cells[6]
    };
    if is(wanted, "none") {
        return disk.bytes(FILE).is_none();
    }
    are_there(disk.bytes(FILE), &file_of(alloc, wanted))
}

/// The word of a fault, and its line.
fn word_of(fault: OpenFault) -> (&'static str, usize) {
    match fault {
        OpenFault::NoFile(_) => ("file", 0),
        OpenFault::NoMemory => ("memory", 0),
        OpenFault::Version => ("version", 0),
        OpenFault::Head => ("head", 0),
        OpenFault::Changed(line) => ("changed", line),
        OpenFault::Settings => ("settings", 0),
        OpenFault::Replay(_) => ("replay", 0),
        OpenFault::Input => ("input", 0),
    }
}

/// Whether a file is refused as its row says.
fn is_refused(fault: OpenFault, said: &str) -> bool {
    let (word, line) = halves_at(said, " ");
    let (found, at) = word_of(fault);
    is(found, word) && at as u64 == number_or(line, 0)
}

/// Whether a session that is open serves its row's commands so.
fn is_served(
    alloc: Global,
    opened: Opened<MemoryDisk>,
    disk: &mut MemoryDisk,
    cells: &Cells,
) -> bool {
    let (word, numbers) = halves_at(cells[4], " ");
    let (records, torn) = halves_at(numbers, " ");
    let held = opened.records as u64 == number_or(records, 0)
        && opened.torn as u64 == number_or(torn, 0);
    let mut session = opened.session;
    let mut file = opened.file;
    let mut recorder = Recorder {
        alloc,
        disk,
        file: &mut file,
        syncs: false,
        broken: None,
        listener: &mut Silent,
    };
    let commands = joined(alloc, &[text_of(cells[3]).as_bytes()]);
    let mut source = MemorySource::new(commands, Vec::new(alloc), false);
    let settings = Settings {
        bounds: Bounds {
            steps: 1_000_000,
            seconds: None,
        },
        manner: Manner {
            prompt: false,
            shows_codes: true,
        },
    };
    let clock = Ticking::new();
    let alarm = &mut ClockAlarm::new(&clock);
    let mut term = wide_screen(alloc);
    let _ = serve_recorded(
        alloc,
        &mut source,
        &mut session,
        settings,
        alarm,
        &mut term,
        &mut recorder,
    );
    let said = if recorder.broken.is_some() {
        "broken"
    } else {
        "open"
    };
    held && is(said, word) && is_typed(&term, text_of(cells[5]))
}

struct Recorded;

impl Rule for Recorded {
    fn holds(&self, alloc: Global, row: &str) -> bool {
        let cells = cells_of(row);
        let mut disk = disk_before(alloc, &cells);
        let mut ear = Ear { heard: None };
        let held = match opened_of(alloc, &cells, &mut disk, &mut ear) {
            Ok(opened) => is_served(alloc, opened, &mut disk, &cells),
            Err(fault) => is_refused(fault, cells[4]),
        };
        held && is_heard(ear.heard, cells[8]) && has_file_after(alloc, &disk, &cells)
    }
}

#[test]
fn sessions_are_kept(rt: HostRuntime) {
    all_hold(&rt, rt.alloc(), &Recorded, ROWS);
}
