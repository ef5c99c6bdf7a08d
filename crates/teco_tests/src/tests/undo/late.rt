//! Changes before 2^32 steps, across them and after them, which are turned back and forth, and cut off.
ghost use Rattle.std.specs.Prelude.{ℕ, ◌≡◌, ◌+◌, ◌<◌, ◌≤◌, ◌^◌};
ghost use Rattle.teco_store.specs.Trail.{most_changes};
ghost use Rattle.teco_tests.specs.Steps.{HasDone};
ghost use Rattle.teco_undo.specs.Entry.{FitsBack};

use crate::tests::bytes::joined;
use crate::tests::rows::{Rule, all_hold, number_or};
use crate::tests::store::states::{is_seen, seen};
use std::alloc::Global;
use std::io;
use std::test::*;
use std::time::{Clock, Instant};
use teco_core::{CaseMode, FILE_LIMIT, Reg};
use teco_store::{Desk, Editor, Refused};
use teco_undo::{ChangeList, Recorder, apply_all, revert_all, rewind};

/// How many calls make changes, each in a step of its own: those of all kinds twice, and those of the first half of the kinds.
const CALLS: u64 = 20;

const HALF: u64 = 5;

/// The steps that are done before the first change: none, and so many that the first half of the kinds comes before 2^32 steps.
const EARLY: &str = "0";

const LATE: &str = "4294967291";

/// Makes the change of a call: it reads a page, or makes a change of one of the kinds that take 12 bytes before 2^32 steps, and what goes
/// with it.
fn made(recorder: &mut Recorder, call: u64, q: Reg) -> Result<(), Refused>
    ensures { (n : ℕ) → HasDone n 0 recorder.old → HasDone n most_changes recorder.new }
{
    let is_empty = recorder.editor().len() == 0;
    match call % 10 {
        0 => recorder.read_page(),
        1 => recorder.set_number(q, i32::MIN),
        2 => recorder.splice(0, 0, b"\xff", None),
        3 => recorder.point(0),
        4 if !is_empty => recorder.splice(0, 1, b"", None),
        5 => recorder.set_case(CaseMode::Either),
        6 => recorder.note_search(Some(b"x"), false, 0),
        7 => recorder.note_search(None, true, 0),
        8 => recorder.write_out(0, 0, true),
        _ => recorder.finish(),
    }
}

/// Ends a step.
fn end_step(recorder: &mut Recorder, steps: u64)
    ensures { (n : ℕ) → n + 1 ≡ steps → HasDone n most_changes recorder.old → HasDone steps 0 recorder.new }
{
    recorder.step_done(steps);
}

/// Does steps that change nothing.
fn pass(recorder: &mut Recorder, start: u64)
    ensures { HasDone 0 0 recorder.old → HasDone start 0 recorder.new }
{
    for step in 0..start {
        end_step(recorder, step + 1);
    }
}

/// Makes the changes of some calls, each in a step.
fn are_made(recorder: &mut Recorder, q: Reg, start: u64, from: u64, to: u64) -> bool
    requires within { start + to < 2 ^ 64 }
    requires ordered { from ≤ to }
    ensures { HasDone (start + from) 0 recorder.old → HasDone (start + to) 0 recorder.new }
{
    let mut all = true;
    for call in from..to {
        all = made(recorder, call, q).is_ok() && all;
        end_step(recorder, start + call + 1);
    }
    all
}

/// A recorder in which so many steps are done, over two pages.
fn recorder_after(alloc: Global, start: u64) -> Recorder
    ensures { HasDone start 0 result }
{
    let mut input = joined(alloc, &[b"one\n\x0ctwo\n"]);
    input.truncate(FILE_LIMIT);
    let mut recorder = Recorder::new(Editor::new(input));
    recorder.begin();
    pass(&mut recorder, start);
    recorder
}

/// Turns the changes back and forth, and tells whether each state is as it was.
fn are_turned(
    alloc: Global,
    editor: &mut Editor,
    changes: &mut ChangeList,
    first: &[u8],
    last: &[u8],
) -> bool
    requires { FitsBack editor.old.room changes.old.items editor.old.body }
    ensures editor { editor.new ≡ editor.old }
    ensures changes { changes.new.items ≡ changes.old.items }
{
    revert_all(editor, changes);
    let back = is_seen(alloc, editor, first);
    apply_all(editor, changes);
    back && is_seen(alloc, editor, last)
}

/// Whether changes on both sides of a start, and behind them, are turned back and forth twice, and then cut off where the first ones end.
fn come_back(alloc: Global, q: Reg, start: u64) -> bool
    requires { start < 2 ^ 63 }
{
    let mut recorder = recorder_after(alloc, start);
    let first = seen(alloc, recorder.editor());
    let front = are_made(&mut recorder, q, start, 0, HALF);
    let middle = seen(alloc, recorder.editor());
    let rest = are_made(&mut recorder, q, start, HALF, CALLS);
    let last = seen(alloc, recorder.editor());
    let mut changes = recorder.take();
    let editor = recorder.editor_mut();
    let once = are_turned(alloc, editor, &mut changes, &first, &last);
    let twice = are_turned(alloc, editor, &mut changes, &first, &last);
    rewind(editor, &mut changes, start + HALF);
    front && rest && once && twice && is_seen(alloc, editor, &middle)
}

struct Late;

impl Rule for Late {
    fn holds(&self, alloc: Global, row: &str) -> bool {
        let start = number_or(row, 0).min(1 << 40);
        match Reg::of(b'9') {
            Some(q) => come_back(alloc, q, start),
            None => false,
        }
    }
}

/// Whether many steps take no time: the compiler has made them one, which a build with checks does not.
fn are_quick<R: Clock>(rt: &R, recorder: &mut Recorder) -> io::Result<bool> {
    let start = Instant::now(rt)?;
    pass(recorder, 1 << 26);
    Ok(start.elapsed(rt)?.as_millis() < 10)
}

/// The late row is left out where its steps would take minutes.
#[test]
fn late_changes_are_turned(rt: HostRuntime) {
    let mut recorder = recorder_after(rt.alloc(), 0);
    all_hold(&rt, rt.alloc(), &Late, EARLY);
    if matches!(are_quick(&rt, &mut recorder), Ok(true)) {
        all_hold(&rt, rt.alloc(), &Late, LATE);
    }
}
