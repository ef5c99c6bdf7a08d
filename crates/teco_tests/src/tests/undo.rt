//! Of teco_undo: changes of each kind after any number of steps, the largest places, and a string of many changes.
use super::bytes::wide_screen;
use super::rows::{Rule, all_hold, number_or};
use std::alloc::Global;
use std::test::*;
use teco_core::{CaseMode, Reg};
use teco_session::Session;
use teco_store::{ChangeKind, Desk, Editor};
use teco_undo::{ChangeList, Recorder};

mod late;

/// The steps that were done before the first changes.
const STEPS: &str = "
    0
    4294967294
    4294967295
    4294967296
    18446744073709551000";

/// The kinds of the ten changes of a step, in order.
const KINDS: &[u8] = b"nsspmfpsPd";

/// Makes a change of each kind, where no search has come to this yet.
fn are_made(recorder: &mut Recorder, found: bool) -> bool {
    let Some(q) = Reg::of(b'9') else {
        return false;
    };
    recorder.set_number(q, i32::MIN).is_ok()
        && recorder.splice(0, 0, b"\xff", None).is_ok()
        && recorder.splice(0, 0, b"bc", None).is_ok()
        && recorder.point(0).is_ok()
        && recorder.set_case(CaseMode::Either).is_ok()
        && recorder.note_search(None, found, 0).is_ok()
        && recorder.finish().is_ok()
}

/// A letter of a kind.
fn letter(kind: ChangeKind) -> u8 {
    match kind {
        ChangeKind::Splice { .. } => b's',
        ChangeKind::Point => b'p',
        ChangeKind::Number(_) => b'n',
        ChangeKind::Pages => b'P',
        ChangeKind::Found => b'f',
        ChangeKind::Done => b'd',
        ChangeKind::Mode => b'm',
        ChangeKind::Text(_) | ChangeKind::Push | ChangeKind::Pop(_) | ChangeKind::Search => b'-',
    }
}

/// Whether it is the kind of a change of a step.
fn is_kind(kind: ChangeKind, i: usize) -> bool {
    match KINDS.get(i) {
        Some(wanted) => letter(kind) == *wanted,
        None => false,
    }
}

/// Whether the changes of two steps are there, the first with so many steps done.
fn are_marked(changes: &ChangeList, done: u64) -> bool {
    let mut held = changes.len() == 20;
    for i in 0..changes.len() {
        let step = done.wrapping_add((i / 10) as u64);
        held = held && changes.step(i) == step && is_kind(changes.kind(i), i % 10);
    }
    held
}

struct Marked;

impl Rule for Marked {
    fn holds(&self, alloc: Global, row: &str) -> bool {
        let done = number_or(row, 0);
        let mut recorder = Recorder::new(Editor::new(Vec::new(alloc)));
        recorder.step_done(done);
        let mut made = are_made(&mut recorder, true);
        recorder.step_done(done.wrapping_add(1));
        made = are_made(&mut recorder, false) && made;
        made && are_marked(&recorder.take(), done)
    }
}

#[test]
fn changes_are_marked(rt: HostRuntime) {
    all_hold(&rt, rt.alloc(), &Marked, STEPS);
}

/// A string takes out the last byte of the longest text, and is turned back and forth.
fn is_put_back(alloc: Global) -> bool {
    let mut session = Session::new(Vec::new(alloc));
    let _long = session.run(b"Ia\x1b24<HXAGA>", 1_000, &mut wide_screen(alloc));
    let _short = session.run(b"-D", 100, &mut wide_screen(alloc));
    session.editor().pointer() == 16_777_215
        && session.undo().is_ok()
        && session.editor().pointer() == 16_777_216
        && session.redo().is_ok()
        && session.editor().pointer() == 16_777_215
        && session.undo().is_ok()
        && session.editor().pointer() == 16_777_216
}

/// The number of the register A.
fn number_of_a(session: &Session) -> i32 {
    match Reg::of(b'A') {
        Some(q) => session.editor().registers().number(q),
        None => -1,
    }
}

/// A string makes 100,000 changes, which are turned back and forth.
fn are_turned(alloc: Global) -> bool {
    let mut session = Session::new(Vec::new(alloc));
    let _run = session.run(b"100000<%A>", 1_000_000, &mut wide_screen(alloc));
    let undone = session.undo().is_ok() && number_of_a(&session) == 0;
    let redone = session.redo().is_ok() && number_of_a(&session) == 100_000;
    undone && redone
}

#[test]
fn many_changes_are_turned(rt: HostRuntime) {
    let alloc = rt.alloc();
    assert!(rt; is_put_back(alloc) || is_put_back(alloc));
    assert!(rt; are_turned(alloc) || are_turned(alloc));
}
