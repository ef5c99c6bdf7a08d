//! A file of the system that becomes shorter or longer once it was opened: just what is read of it is the input.
use crate::tests::bytes::{are, is, joined, put};
use crate::tests::rows::{Rule, all_hold, cells_of, number_or};
use std::alloc::Global;
use std::fs;
use std::fs::Files;
use std::test::*;
use teco_fs::{Disk, FileDisk};
use teco_io::{InputFault, Source, read_input};

/// The file, and its folder.
const FILE: &str = "shifting/f";

const FOLDER: &str = "shifting";

/// How many bytes the file has when it is opened, how many of them are read then, how many it has after that, how many may come behind
/// those, and how many come, or the fault.
const ROWS: &str = "
    // It becomes shorter: before a byte was read, behind those that were, and before their end.
    200000 => 0 => 10 => 1073741824 => 10
    200000 => 0 => 0 => 1073741824 => 0
    200000 => 65536 => 70000 => 1073741824 => 4464
    200000 => 65536 => 65536 => 1073741824 => 0
    200000 => 65536 => 10 => 1073741824 => 0
    200000 => 100 => 0 => 1073741824 => 0
    // It becomes longer, from nothing too, and past what may come.
    10 => 0 => 200000 => 1073741824 => 200000
    0 => 0 => 200000 => 1073741824 => 200000
    10 => 10 => 200000 => 1073741824 => 199990
    65536 => 65536 => 65537 => 1073741824 => 1
    10 => 0 => 11 => 10 => large
    10 => 0 => 10 => 10 => 10
    // It keeps its size, and has other bytes.
    200000 => 65536 => 200000 => 1073741824 => 134464
    ";

/// So many letters of the alphabet from this one on, again and again. Where memory was refused, it is asked for a second time.
fn letters(alloc: Global, from: u8, length: u64) -> Vec<u8> {
    let length = length.min(1 << 20) as usize;
    let mut bytes = Vec::new(alloc);
    let _ = bytes.resize(length, from).is_ok() || bytes.resize(length, from).is_ok();
    for (i, byte) in bytes.iter_mut().enumerate() {
        *byte = byte.wrapping_add((i % 26) as u8);
    }
    bytes
}

/// The first bytes of a source, as many as one read gives into so much room.
fn first_read<S: Source>(alloc: Global, source: &mut S, room: u64) -> Vec<u8> {
    let mut piece = [0; 65_536];
    let room = piece.len().min(room as usize);
    match source.read(&mut piece[..room]) {
        Ok(n) => joined(alloc, &[&piece[..n]]),
        Err(_) => Vec::new(alloc),
    }
}

/// The rest of a source, if so many bytes come as a cell says.
fn rest_of<S: Source>(alloc: Global, source: &mut S, most: u64, wanted: &str) -> Option<Vec<u8>> {
    match read_input(alloc, source, most as usize) {
        Ok(rest) if number_or(wanted, 0) == rest.len() as u64 => Some(rest),
        Err(InputFault::TooLarge) if is(wanted, "large") => Some(Vec::new(alloc)),
        _ => None,
    }
}

/// The bytes from one place to another, as far as they are there.
fn part(bytes: &[u8], from: usize, to: usize) -> &[u8] {
    let to = to.min(bytes.len());
    &bytes[from.min(to)..to]
}

/// Whether what is read of the file in two parts is what it had first, and then what it has.
fn reads_both<D: Disk>(rt: &(impl Files + AllocGlobal), disk: &mut D, row: &str) -> bool {
    let alloc = rt.alloc();
    let [opened, read, after, most, wanted, ..] = cells_of(row);
    let before = letters(alloc, b'a', number_or(opened, 0));
    let now = letters(alloc, b'A', number_or(after, 0));
    if fs::write(rt, FILE, before.as_slice()).is_err() {
        return false;
    }
    let Ok(mut source) = disk.open(FILE) else {
        return false;
    };
    let mut all = first_read(alloc, &mut source, number_or(read, 0));
    let first = all.len();
    if first as u64 != number_or(read, 0) || fs::write(rt, FILE, now.as_slice()).is_err() {
        return false;
    }
    let Some(rest) = rest_of(alloc, &mut source, number_or(most, 0), wanted) else {
        return false;
    };
    put(&mut all, &rest);
    let wanted = [part(&before, 0, first), part(&now, first, all.len())];
    are(&all, &joined(alloc, &wanted))
}

#[derive(Clone, Copy)]
struct Shifts<'a> {
    rt: &'a HostRuntime,
}

impl Rule for Shifts<'_> {
    fn holds(&self, alloc: Global, row: &str) -> bool {
        let _ = self.rt.remove_dir_all(alloc, FOLDER);
        let made = self.rt.create_dir(FOLDER).is_ok();
        let held = reads_both(self.rt, &mut FileDisk::new(self.rt), row);
        made && self.rt.remove_dir_all(alloc, FOLDER).is_ok() && held
    }
}

#[test]
fn files_that_shift_are_what_is_read(rt: HostRuntime) {
    all_hold(&rt, rt.alloc(), &Shifts { rt: &rt }, ROWS);
}
