//! What is said of how the program ends.
use crate::tests::bytes::{first_of, is};
use crate::tests::rows::{Cells, number_or};
use std::alloc::Global;
use teco_cli::Line;
use teco_core::NoMemory;
use teco_fs::{Reason, Unkept};
use teco_serve::{Fate, Served, ending, ending_of};

/// How the program ends, by the first letter of what a row says.
fn fate_of(said: &str) -> Fate {
    match first_of(said) {
        b'c' => Fate::NoCommands(Reason::Denied),
        b'i' => Fate::NoInput(Reason::Missing),
        b'l' => Fate::LargeInput,
        b'm' => Fate::NoMemory,
        b'o' => Fate::NoOutput(Reason::NoRoom),
        b'b' => Fate::NoBackup(Reason::Denied),
        b'd' => Fate::Changed,
        b'u' => Fate::Unchanged,
        b'k' => Fate::Lacking(Unkept::Permissions),
        b'g' => Fate::Lacking(Unkept::Group),
        b'w' => Fate::Lacking(Unkept::Changes),
        b'e' => Fate::Ended(Served::Exit),
        b's' => Fate::Ended(Served::EndOfCommands),
        b'r' => Fate::Ended(Served::ReadFault),
        b't' => Fate::Ended(Served::ShowFault),
        _ => Fate::Ended(Served::NoMemory),
    }
}

/// Whether a run that a line asks for ends as its row says.
pub(super) fn ends_so(alloc: Global, line: &Line, cells: &Cells) -> bool {
    let fate = fate_of(cells[1]);
    let ended = if line.more.is_empty() {
        ending(alloc, line, fate)
    } else {
        ending_of(alloc, line, "in", fate)
    };
    match ended {
        Ok((status, text)) => u64::from(status) == number_or(cells[2], 0) && is(&text, cells[3]),
        Err(NoMemory) => false,
    }
}

/// The words of a line, how the program ends, and its status and text. Of several inputs the first is spoken of.
pub(super) const ROWS: &str = "
    - teco -b strings in => commands => 1 => teco: cannot read strings: permission is denied\n
    - teco -b strings in => input => 1 => teco: cannot read in: there is no such file or folder\n
    - teco -b strings in => large => 1 => teco: in is too large\n
    - teco -b strings in => memory => 1 => teco: no memory\n
    - teco -b strings in => output => 1 => teco: cannot write in.out: there is no room on the disk\n
    - teco -b strings -o out in => output => 1 => teco: cannot write out: there is no room on the disk\n
    - teco -b strings in => exit => 0
    - teco -b strings in => stream ended => 2
    - teco -b strings in => read failed => 1 => teco: cannot read commands\n
    - teco -b strings in => terminal failed => 1 => teco: cannot show\n
    - teco -b strings in => no memory in a run => 1 => teco: no memory\n
    - teco -b strings -i in => output => 1 => teco: cannot write in: there is no room on the disk\n
    - teco -b strings -i.bak in => backup => 1 => teco: in: no backup in.bak: permission is denied\n
    - teco -b strings -i in => differs => 1 => teco: in has changed\n
    - teco -b strings -i in => unchanged => 0
    - teco -b strings -i in => kept all but the permissions => 0 => teco: in: permissions not kept\n
    - teco -b strings -o out in => group => 0 => teco: out: group not kept\n
    - teco -b strings -i in => written late => 1 => teco: in: changes made meanwhile not kept\n
    - // Of several inputs each line names one.
    - teco -b strings in two => input => 1 => teco: cannot read in: there is no such file or folder\n
    - teco -b strings in two => output => 1 => teco: cannot write in.out: there is no room on the disk\n
    - teco -b strings in two => memory => 1 => teco: in: no memory\n
    - teco -b strings in two => terminal failed => 1 => teco: in: cannot show\n
    - teco -b strings in two => no memory in a run => 1 => teco: in: no memory\n";
