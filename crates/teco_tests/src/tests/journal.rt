//! Of teco_journal: heads, where the reading of lines stops, and whole files. The checks are those of another program.
use super::assert_of;
use super::bytes::{are, is};
use super::rows::{Rule, all_hold, cells_of, number_or, text_of};
use std::alloc::Global;
use std::test::*;
use teco_core::Profile;
use teco_journal::{
    Ending, HeadFault, SessionFault, Start, new_head, read_head, read_journal, read_session,
};

/// Lines, how many of them tell records, how many bytes these have, and why the reading ended.
const READ: &str = "
    - // each kind of record, and a text with blanks and a line end
    - 7772a21d9463a3be run 1 Y$$\nff84eb7912376626 run 12 <FScat$dog$;>$$\nb44d5ea68ab66001 run 0 \nfd366577bdcb2d75 run 3 ^.  a^Jb ^.\n2897888c5b3d4944 undo\nea178b670623cf6b redo\na6ca2240206b4822 rewind 3\n68aada9afc400d86 forget\n => 8 => 220 => whole
    - // a line without its end
    - 7772a21d9463a3be run 1 Y$$\nff84eb7912376626 run 12 <FScat$dog$;>$$ => 1 => 27 => torn
    - // another number, and a line twice
    - 7772a21d9463a3be run 1 Y$$\nff84eb7912376626 run 13 <FScat$dog$;>$$\n => 1 => 27 => changed
    - 7772a21d9463a3be run 1 Y$$\n7772a21d9463a3be run 1 Y$$\n => 1 => 27 => changed
    - // words of no record, with their check
    - ea23502dc83d2f22 leave\n => 0 => 0 => unknown";

fn word_of(ending: Ending) -> &'static str {
    match ending {
        Ending::Whole => "whole",
        Ending::Torn => "torn",
        Ending::Changed => "changed",
        Ending::Unknown => "unknown",
    }
}

struct Reads;

impl Rule for Reads {
    fn holds(&self, alloc: Global, row: &str) -> bool {
        let [lines, records, good, ending, ..] = cells_of(row);
        match read_journal(alloc, *b"0123456789abcdef", lines.as_bytes()) {
            Ok(journal) => {
                journal.records.len() as u64 == number_or(records, 0)
                    && journal.good as u64 == number_or(good, 0)
                    && is(word_of(journal.ending), ending)
            }
            Err(_) => false,
        }
    }
}

/// The profile, the lines of a page, the depth, the input, and the head.
const HEADS: &str = "
    - named => 0 => every => - => teco session 1\nlines 0\ndepth -\ninput 0\n\n6996772a1af895c2 begun\n
    - named => 0 => every => one\ntwo\n => teco session 1\nlines 0\ndepth -\ninput 8\none\ntwo\n\n0742fc23a4ee42a0 begun\n
    - named => 66 => 20 => a\x0cb => teco session 1\nlines 66\ndepth 20\ninput 3\na\x0cb\n7d26d7430dc4fe70 begun\n
    - named => 0 => 0 => \n\n => teco session 1\nlines 0\ndepth 0\ninput 2\n\n\n\n17617a341613ea1a begun\n
    - wide => 0 => every => - => teco session 1 wide\nlines 0\ndepth -\ninput 0\n\n41a5550b987b23ff begun\n
    - wide => 66 => 20 => a\x0cb => teco session 1 wide\nlines 66\ndepth 20\ninput 3\na\x0cb\n353483a19304464b begun\n";

/// The profile of a word.
fn profile_of(word: &str) -> Profile {
    if is(word, "wide") {
        Profile::Wide
    } else {
        Profile::Named
    }
}

/// A head is read as what it was written of.
fn is_read_as(start: Start<'_>, head: &[u8]) -> bool {
    match read_head(head) {
        Ok(read) => {
            read.start.profile == start.profile
                && read.start.lines == start.lines
                && read.start.depth == start.depth
                && read.start.input == start.input
                && read.rest.is_empty()
        }
        Err(_) => false,
    }
}

struct Heads;

impl Rule for Heads {
    fn holds(&self, alloc: Global, row: &str) -> bool {
        let [profile, lines, depth, input, head, ..] = cells_of(row);
        let start = Start {
            profile: profile_of(profile),
            lines: number_or(lines, 0) as usize,
            depth: if is(depth, "every") {
                None
            } else {
                Some(number_or(depth, 0) as usize)
            },
            input: text_of(input).as_bytes(),
        };
        match new_head(alloc, start) {
            Ok(made) => are(&made.bytes, head.as_bytes()) && is_read_as(start, head.as_bytes()),
            Err(_) => false,
        }
    }
}

/// Bytes that begin with no head, and why.
const REFUSED: &str = "
    - - => torn
    - teco session => torn
    - teco session 2\n => version
    - ?\n => version
    - teco session 1\n => torn
    - teco session 1 => torn
    - teco session 1 wi => torn
    - teco session 1 wide => torn
    - teco session 1 wide\n => torn
    - teco session 1 wider\n => version
    - teco session 1 Wide\n => version
    - teco session 1 wide\nlines 0 => torn
    - teco session 1 wide\nlines 00 => changed
    - teco session 1\nlines 0 => torn
    - teco session 1\nlines 00 => changed
    - teco session 1\nlines 18446744073709551615\ndepth => torn
    - teco session 1\nlines 18446744073709551616\ndepth => changed
    - teco session 1\nlines 0\ndepth +1\n => changed
    - teco session 1\nlines 0\ndepth -\ninput 8\none\n => torn
    - teco session 1\nlines 0\ndepth -\ninput 4\none\ntwo\n => changed
    - teco session 1 wide\nlines 0\ndepth -\ninput 0\n\n6996772a1af895c2 begun\n => changed";

fn fault_word(fault: HeadFault) -> &'static str {
    match fault {
        HeadFault::Version => "version",
        HeadFault::Torn => "torn",
        HeadFault::Changed => "changed",
    }
}

struct Refused;

impl Rule for Refused {
    fn holds(&self, _alloc: Global, row: &str) -> bool {
        let [bytes, why, ..] = cells_of(row);
        match read_head(text_of(bytes).as_bytes()) {
            Ok(_) => false,
            Err(fault) => is(fault_word(fault), why),
        }
    }
}

#[test]
fn lines_and_heads_are_read(rt: HostRuntime) {
    let alloc = rt.alloc();
    all_hold(&rt, alloc, &Reads, READ);
    all_hold(&rt, alloc, &Heads, HEADS);
    all_hold(&rt, alloc, &Refused, REFUSED);
}

/// A head of 71 bytes and two records of 27 and 22.
const FILE: &[u8; 120] =
    b"teco session 1\nlines 0\ndepth -\ninput 8\none\ntwo\n\n0742fc23a4ee42a0 begun\n\
3098cc39e0ece123 run 1 Y$$\n9affe36b5c0a6787 undo\n";

/// Where its head ends, and where its first record does.
const HEAD_END: usize = 71;

const FIRST_END: usize = 98;

/// A front that has the head tells the records whose lines are whole, and a line after them is torn. Else the head is.
fn front_is_read(alloc: Global, front: &[u8]) -> bool {
    let length = front.len();
    match read_session(alloc, front) {
        Ok(file) => {
            let (records, good) = match length {
                HEAD_END..FIRST_END => (0, HEAD_END),
                FIRST_END..120 => (1, FIRST_END),
                _ => (2, 120),
            };
            let ending = if good == length { "whole" } else { "torn" };
            length >= HEAD_END
                && file.start.input == b"one\ntwo\n".as_slice()
                && file.journal.records.len() == records
                && file.journal.good == good
                && is(word_of(file.journal.ending), ending)
        }
        Err(SessionFault::Head(fault)) => length < HEAD_END && is(fault_word(fault), "torn"),
        Err(SessionFault::Memory) => false,
    }
}

#[test]
fn fronts_of_a_file_are_read(rt: HostRuntime) {
    let alloc = rt.alloc();
    for length in 0..FILE.len() + 1 {
        let front = &FILE[..length];
        let held = front_is_read(alloc, front) || front_is_read(alloc, front);
        assert_of(&rt, "front", held);
    }
}

#[test]
fn changed_heads_are_refused(rt: HostRuntime) {
    for at in 0..HEAD_END {
        let mut bytes = *FILE;
        bytes[at] ^= 1;
        assert_of(&rt, "changed", read_head(&bytes).is_err());
    }
}
