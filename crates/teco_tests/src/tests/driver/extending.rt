//! A file is gone on with: it is opened to be extended, cut, and written to after what it has. So on a disk in memory and on the system's.
//! And a file is read whole.
use super::disk::{failed_by, is_a, reads_so};
use super::{disk_with, files_of, has_just};
use crate::tests::assert_of;
use crate::tests::bytes::{are, is};
use crate::tests::rows::{Rule, all_hold, cells_of, number_or};
use std::alloc::Global;
use std::fs;
use std::fs::{Files, Permissions};
use std::os::unix::fs::PermissionsExt;
use teco_fs::{Disk, FileDisk, read_whole};

/// The file that is extended, and its folder.
const FILE: &str = "extended/f";

const FOLDER: &str = "extended";

/// The last call that is done, of those that open the file, cut it to so many bytes, write these and wait for them.
fn last_done<D: Disk>(disk: &mut D, length: u64, bytes: &str) -> &'static str {
    let Ok(mut draft) = disk.open_to_extend(FILE) else {
        return "none";
    };
    if disk.cut(&mut draft, FILE, length).is_err() {
        return "open";
    }
    if disk.write(&mut draft, FILE, bytes.as_bytes()).is_err() {
        return "cut";
    }
    if disk.sync(&draft, FILE).is_err() {
        return "write";
    }
    "sync"
}

/// The files before, how many bytes stay, which are written, the last call that is done, the files after it, and which call is refused.
#[derive(Clone, Copy)]
struct InMemory;

impl Rule for InMemory {
    fn holds(&self, alloc: Global, row: &str) -> bool {
        let cells = cells_of(row);
        let mut disk = disk_with(alloc, cells[0], cells[5]);
        let last = last_done(&mut disk, number_or(cells[1], 0), cells[2]);
        is(last, cells[3]) && has_just(&disk, cells[4])
    }
}

/// The same of files of the system, which refuses nothing here.
#[derive(Clone, Copy)]
struct OnTheSystem<'a> {
    rt: &'a HostRuntime,
}

/// Puts the files of a cell into a new folder.
fn puts_files<R: Files + AllocGlobal>(rt: &R, cell: &str) -> bool {
    let _ = rt.remove_dir_all(rt.alloc(), FOLDER);
    let mut put = rt.create_dir(FOLDER).is_ok();
    for (name, bytes) in &files_of(cell) {
        put = (name.is_empty() || fs::write(rt, *name, bytes.as_bytes()).is_ok()) && put;
    }
    put
}

/// Whether the files of a cell are there.
fn has_files<R: Files + AllocGlobal>(rt: &R, cell: &str) -> bool {
    let mut held = true;
    for (name, bytes) in &files_of(cell) {
        held = (name.is_empty() || reads_so(rt, name, bytes)) && held;
    }
    held
}

impl Rule for OnTheSystem<'_> {
    fn holds(&self, _alloc: Global, row: &str) -> bool {
        let cells = cells_of(row);
        if !cells[5].is_empty() {
            return true;
        }
        let put = puts_files(self.rt, cells[0]);
        let last = last_done(
            &mut FileDisk::new(self.rt),
            number_or(cells[1], 0),
            cells[2],
        );
        put && is(last, cells[3]) && has_files(self.rt, cells[4])
    }
}

const ROWS: &str = "
    // What is written comes after what is there, or after what stays of that.
    extended/f == abc => 3 => de => sync => extended/f == abcde
    extended/f == abc => 2 => de => sync => extended/f == abde
    extended/f == abc => 0 => de => sync => extended/f == de
    // A cut never lets a file grow.
    extended/f == abc => 9 => de => sync => extended/f == abcde
    // A file that is not there is made. Another stays as it is.
    extended/other == theirs => 0 => de => sync => extended/f == de ++ extended/other == theirs
    extended/other == theirs => 7 => de => sync => extended/f == de ++ extended/other == theirs
    // Another run holds the file, or none can be made.
    extended/f == abc => 2 => de => none => extended/f == abc => held
    extended/other == theirs => 2 => de => none => extended/other == theirs => held
    extended/other == theirs => 2 => de => none => extended/other == theirs => make
    extended/f == abc => 2 => de => sync => extended/f == abde => make
    // A cut that is refused leaves the file as it was, and a write a beginning of its bytes.
    extended/f == abc => 2 => de => open => extended/f == abc => to cut
    extended/f == abc => 2 => defg => cut => extended/f == abde => write
    extended/f == abc => 2 => de => write => extended/f == abde => sync
    ";

#[test]
fn goes_on_with_a_file(rt: HostRuntime) {
    all_hold(&rt, rt.alloc(), &InMemory, ROWS);
    all_hold(&rt, rt.alloc(), &OnTheSystem { rt: &rt }, ROWS);
}

/// Whether a disk refuses to open this to be extended, by this.
fn refuses<D: Disk>(disk: &mut D, name: &str, kind: &str) -> bool {
    disk.open_to_extend(name).is_err() && failed_by(disk.why(), kind)
}

/// Whether a file that one disk extends is in use for another, under its own name and that of a link, until it is closed.
fn is_held<D: Disk>(rt: &impl Files, one: &mut D, other: &mut D) -> bool {
    let link = "extended/link";
    let held = match one.open_to_extend(FILE) {
        Ok(_draft) => {
            rt.symlink("f", link).is_ok()
                && refuses(other, FILE, "ResourceBusy")
                && refuses(other, link, "ResourceBusy")
        }
        Err(_) => false,
    };
    held && other.open_to_extend(link).is_ok()
}

/// Whether a file that is made is for its owner alone, and one that is there keeps its permissions.
fn has_its_permissions<D: Disk>(rt: &impl Files, disk: &mut D) -> bool {
    disk.open_to_extend(FILE).is_ok()
        && is_a(rt, FILE, "600")
        && rt
            .set_permissions(FILE, Permissions::from_mode(0o640))
            .is_ok()
        && disk.open_to_extend(FILE).is_ok()
        && is_a(rt, FILE, "640")
}

/// Whether another file that was opened to be read is told to be as it was, though a file was extended and read meanwhile.
fn tells_of_the_input<R: Files + AllocGlobal, D: Disk>(rt: &R, disk: &mut D) -> bool {
    let input = "extended/in";
    let is_read = disk.open(input).is_ok()
        && is(last_done(disk, 0, "new"), "sync")
        && gives(rt.alloc(), disk, FILE, "new")
        && matches!(disk.is_as_read(input), Ok(true));
    is_read
        && fs::write(rt, input, b"changed").is_ok()
        && matches!(disk.is_as_read(input), Ok(false))
}

/// Whether a file has these bytes, read whole.
fn gives<D: Disk>(alloc: Global, disk: &mut D, name: &str, bytes: &str) -> bool {
    match read_whole(alloc, name, disk) {
        Ok(read) => are(&read, bytes.as_bytes()),
        Err(_) => false,
    }
}

/// What of this does not hold of files of the system; empty where all does.
fn first_failure(rt: &HostRuntime) -> &'static str {
    let (mut one, mut other) = (FileDisk::new(rt), FileDisk::new(rt));
    if !puts_files(rt, "extended/in == input") || !has_its_permissions(rt, &mut one) {
        return "permissions";
    }
    if !is_held(rt, &mut one, &mut other) {
        return "held";
    }
    if !tells_of_the_input(rt, &mut one) {
        return "input";
    }
    if !refuses(&mut one, FOLDER, "IsADirectory")
        || !refuses(&mut one, "extended/none/f", "NotFound")
        || !refuses(&mut one, "/dev/null", "another")
    {
        return "no file";
    }
    ""
}

/// Where memory was refused, a second time.
#[test]
fn holds_the_file_that_it_extends(rt: HostRuntime) {
    let mut failed = first_failure(&rt);
    if !failed.is_empty() {
        failed = first_failure(&rt);
    }
    let _ = rt.remove_dir_all(rt.alloc(), FOLDER);
    assert_of(&rt, failed, failed.is_empty());
}

/// A file of a disk in memory is read whole, or the error says why not.
#[test]
fn reads_a_file_whole(rt: HostRuntime) {
    let alloc = rt.alloc();
    let mut disk = disk_with(alloc, "in == input", "");
    let held = (gives(alloc, &mut disk, "in", "input") || gives(alloc, &mut disk, "in", "input"))
        && !gives(alloc, &mut disk, "none", "")
        && failed_by(disk.why(), "NotFound")
        && !gives(
            alloc,
            &mut disk_with(alloc, "in == input", "read"),
            "in",
            "input",
        );
    assert!(rt; held);
}
