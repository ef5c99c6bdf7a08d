//! Each byte alone as a command string.
use super::requests::{Over, Trial, holds_in, ran, turned};
use crate::tests::bytes::{Screen, is_typed};
use crate::tests::commands::COMMANDS;
use crate::tests::exec::strings::is_code;
use crate::tests::rows::{LINE, cells_of, is_row, number_or};
use crate::tests::store::states::{is_seen, seen};
use std::alloc::Global;
use std::test::*;
use teco_session::{Answer, Session};

/// Whether a command's name begins with a byte: a letter in either case, or for a caret and a letter the control byte.
fn begins(command: &[u8], byte: u8) -> bool {
    match command {
        [b'^', letter, ..] => u16::from(byte) + 64 == u16::from(*letter),
        [first, ..] => byte.to_ascii_uppercase() == *first,
        [] => false,
    }
}

/// How a byte ends: the letters of a code, if it ends by one, and its steps.
fn ending_of(byte: u8) -> (&'static str, &'static str) {
    for row in COMMANDS.split(LINE) {
        let [command, _, code, steps, ..] = cells_of(row);
        if is_row(row) && begins(command.as_bytes(), byte) {
            return (code, steps);
        }
    }
    match byte {
        0 | b'\n' | b'\r' => ("", "0"),
        b'0'..=b'9' => ("", "1"),
        b':' | b'@' | b'^' => ("UTC", "0"),
        _ => ("ILL", "0"),
    }
}

/// A byte ends as it means in a new session, types nothing, and is undone to the first state.
#[derive(Clone, Copy)]
struct Alone(u8);

impl Trial for Alone {
    fn holds(&self, alloc: Global, session: &mut Session, term: &mut Screen) -> bool {
        let first = seen(alloc, session.editor());
        let (code, steps) = ending_of(self.0);
        let ends_so = match ran(session, &[self.0], 1000, term) {
            Answer::Ended(outcome) => {
                is_code(outcome.code, code) && number_or(steps, 0) == outcome.steps
            }
            _ => false,
        };
        ends_so
            && is_typed(term, "")
            && turned(session, false).is_none()
            && is_seen(alloc, session.editor(), &first)
    }
}

#[test]
fn single_bytes_end_as_they_mean(rt: HostRuntime) {
    for byte in 0..=u8::MAX {
        assert!(rt;
            holds_in(rt.alloc(), &Over::new(b""), &Alone(byte)),
            "byte {byte}"
        );
    }
}
