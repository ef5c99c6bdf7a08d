//! The run of a text, and of the texts that it calls.
ghost use Rattle.std.specs.Prelude.{◌≡◌, ◌≤◌, ◌<◌, ℕ, [], Option, Some, is_some, length, true, false, None};
ghost use Rattle.teco_core.specs.ArgumentsView.{arguments};
ghost use Rattle.teco_core.specs.Register.{content};
ghost use Rattle.teco_core.specs.declared.code.Code.TheVariants.{Lim, Mem};
ghost use Rattle.teco_scan.specs.Lists.{nodes};
ghost use Rattle.teco_scan.specs.Breaks.{IsTokenPlace};
ghost use Rattle.teco_exec.specs.Following.{KeepsWatch, KeepsWatchInside};
ghost use Rattle.teco_exec.specs.Places.{IsReadAt, Told, call_token, with_call, Wanted};
ghost use Rattle.teco_exec.specs.Running.{RunLeadsAt, StandsFrom, StandsInside, Tells, code_left, at_beginning, at_cursor, at_register_call, reached_by_exit, reached_after_call};
ghost use Rattle.teco_exec.specs.TextStep.{StepsText};
ghost use Rattle.teco_exec.specs.Tokens.{CountsSteps};
ghost use Rattle.teco_exec.specs.View.{cursor as cursor_of};
ghost use Rattle.teco_exec.specs.Quiet.{takes_no_memory};
ghost use Rattle.teco_exec.specs.declared.flow.Exit.TheVariants as exit;

use crate::blocks::{Block, Body};
use crate::called::{SHORT_LIMIT, Spare, copy_short};
use crate::cursor::Cursor;
use crate::dispatch::step;
use crate::flow::{Exit, Flow, Steps};
use crate::stop::Stop;
use crate::watch::Watch;
use std::alloc::Global;
use teco_core::{Args, BLOCK_LIMIT, CALL_LIMIT, Code, Reg};
use teco_io::Terminal;
use teco_scan::Text;
use teco_store::Desk;

/// The room for the open blocks of a text. What is in it means nothing before a block is opened.
pub(crate) type Room = [Block; BLOCK_LIMIT];

pub(crate) const EMPTY_ROOM: Room = [Block {
    start: 0,
    body: Body::Endless,
}; BLOCK_LIMIT];

/// How many rooms are made at once: for a text, and for one that it calls.
pub(crate) const ROOMS: usize = 2;

/// What a run has of its own: its steps, how deep in calls its text lies, what is spare for copies, and who watches.
#[derive(Drop)]
pub(crate) struct Running<W> {
    pub steps: Steps,
    pub depth: usize,
    pub spare: Spare,
    pub watch: W,
}

/// A command that calls the text of a register, and where it begins.
#[derive(Clone, Copy)]
struct CallSite {
    register: Reg,
    at: usize,
}

/// Runs a text from its beginning, with these arguments. Where it returns, `args` are what it leaves.
///
/// Its open blocks, and those of the texts that it calls, lie in these rooms, so that a call clears none. If there is none left, new ones
/// are made.
#[cycle(run_text)]
#[inline(always)]
fn run_text<D: Desk, S: Stop, T: Terminal, W: Watch>(
    desk: &mut D,
    text: Text,
    args: &mut Args,
    rooms: &mut [Room],
    running: &mut Running<W>,
    stop: &mut S,
    term: &mut T,
) -> Exit
    requires { running.old.depth ≤ CALL_LIMIT }
    ensures counts { CountsSteps (S.answered stop.old) (S.answered stop.new) (result ≡ exit.Stop Lim)
        running.old.steps running.new.steps }
    ensures depth { running.new.depth ≡ running.old.depth }
    ensures leads { RunLeadsAt D.Desk T.Terminal running.old.depth (desk.old, term.old, running.old.steps)
        (desk.new, term.new, running.new.steps) (at_beginning text.entry.profile (arguments args.old) text.entry.bytes.now) (λ callers. reached_by_exit text.entry.profile (arguments args.new) callers result) }
    ensures no_memory { takes_no_memory (nodes text.entry.profile text.entry.bytes.now) ≡ true → code_left result ≡ Some Mem → ⊥ }
    ensures told { W.knows running.old.watch None → Tells (W.knows running.new.watch) result running.new.steps.done
        (StandsFrom D.Desk T.Terminal running.old.depth (desk.old, term.old, running.old.steps) (at_beginning text.entry.profile (arguments args.old) text.entry.bytes.now)) }
    ensures visits { KeepsWatch text.entry.profile D.Desk T.Terminal W.follows running.old.depth (desk.old, term.old, running.old.steps)
        (at_beginning text.entry.profile (arguments args.old) text.entry.bytes.now) running.old.watch running.new.watch running.new.steps.done }
{
    if rooms.is_empty() {
        return run_apart(desk, text, args, running, stop, term);
    }
    run_in(desk, text, args, rooms, running, stop, term)
}

/// Runs a text as `run_text` does, in new rooms.
#[cycle(run_text)]
#[inline(never)]
fn run_apart<D: Desk, S: Stop, T: Terminal, W: Watch>(
    desk: &mut D,
    text: Text,
    args: &mut Args,
    running: &mut Running<W>,
    stop: &mut S,
    term: &mut T,
) -> Exit
    requires { running.old.depth ≤ CALL_LIMIT }
    ensures counts { CountsSteps (S.answered stop.old) (S.answered stop.new) (result ≡ exit.Stop Lim)
        running.old.steps running.new.steps }
    ensures depth { running.new.depth ≡ running.old.depth }
    ensures leads { RunLeadsAt D.Desk T.Terminal running.old.depth (desk.old, term.old, running.old.steps)
        (desk.new, term.new, running.new.steps) (at_beginning text.entry.profile (arguments args.old) text.entry.bytes.now) (λ callers. reached_by_exit text.entry.profile (arguments args.new) callers result) }
    ensures no_memory { takes_no_memory (nodes text.entry.profile text.entry.bytes.now) ≡ true → code_left result ≡ Some Mem → ⊥ }
    ensures told { W.knows running.old.watch None → Tells (W.knows running.new.watch) result running.new.steps.done
        (StandsFrom D.Desk T.Terminal running.old.depth (desk.old, term.old, running.old.steps) (at_beginning text.entry.profile (arguments args.old) text.entry.bytes.now)) }
    ensures visits { KeepsWatch text.entry.profile D.Desk T.Terminal W.follows running.old.depth (desk.old, term.old, running.old.steps)
        (at_beginning text.entry.profile (arguments args.old) text.entry.bytes.now) running.old.watch running.new.watch running.new.steps.done }
{
    let mut rooms = [EMPTY_ROOM; ROOMS];
    run_in(desk, text, args, &mut rooms, running, stop, term)
}

/// Runs a text as `run_text` does, in the first of these rooms. The texts that it calls have the others.
#[cycle(run_text)]
pub(crate) fn run_in<D: Desk, S: Stop, T: Terminal, W: Watch>(
    desk: &mut D,
    text: Text,
    args: &mut Args,
    rooms: &mut [Room],
    running: &mut Running<W>,
    stop: &mut S,
    term: &mut T,
) -> Exit
    requires room { rooms.old ≡ [] → ⊥ }
    requires deep { running.old.depth ≤ CALL_LIMIT }
    ensures counts { CountsSteps (S.answered stop.old) (S.answered stop.new) (result ≡ exit.Stop Lim)
        running.old.steps running.new.steps }
    ensures depth { running.new.depth ≡ running.old.depth }
    ensures leads { RunLeadsAt D.Desk T.Terminal running.old.depth (desk.old, term.old, running.old.steps)
        (desk.new, term.new, running.new.steps) (at_beginning text.entry.profile (arguments args.old) text.entry.bytes.now) (λ callers. reached_by_exit text.entry.profile (arguments args.new) callers result) }
    ensures no_memory { takes_no_memory (nodes text.entry.profile text.entry.bytes.now) ≡ true → code_left result ≡ Some Mem → ⊥ }
    ensures told { W.knows running.old.watch None → Tells (W.knows running.new.watch) result running.new.steps.done
        (StandsFrom D.Desk T.Terminal running.old.depth (desk.old, term.old, running.old.steps) (at_beginning text.entry.profile (arguments args.old) text.entry.bytes.now)) }
    ensures visits { KeepsWatch text.entry.profile D.Desk T.Terminal W.follows running.old.depth (desk.old, term.old, running.old.steps)
        (at_beginning text.entry.profile (arguments args.old) text.entry.bytes.now) running.old.watch running.new.watch running.new.steps.done }
{
    let Some((room, rooms)) = rooms.split_first_mut() else {
        unreachable!();
    };
    let mut cursor = Cursor::begin(text, *args, room, memory_of(desk));
    'running: loop {
        let at = cursor.at;
        match step_watched(desk, &mut cursor, running, stop, term) {
            Flow::On => continue 'running,
            Flow::Call(register) => {
                let site = CallSite { register, at };
                match run_called(desk, site, &mut cursor, rooms, running, stop, term) {
                    Exit::Return => continue 'running,
                    exit => return exit,
                }
            }
            Flow::Return => {
                args.copy_from(&cursor.args);
                return Exit::Return;
            }
            Flow::Over => return Exit::Over,
            Flow::Fail(code) => {
                running.watch.stood(running.steps.done - 1, at, &cursor);
                return Exit::Fail(code);
            }
            Flow::Stop(code) => {
                running.watch.stood(running.steps.done, at, &cursor);
                return Exit::Stop(code);
            }
        }
    }
}

/// Passes what comes at the cursor, or does its steps, and tells the watch of these.
#[inline(always)]
fn step_watched<D: Desk, S: Stop, T: Terminal, W: Watch>(
    desk: &mut D,
    cursor: &mut Cursor,
    running: &mut Running<W>,
    stop: &mut S,
    term: &mut T,
) -> Flow
    ensures step { StepsText D.Desk T.Terminal (S.answered stop.old) (S.answered stop.new)
        (desk.old, term.old, running.old.steps) (desk.new, term.new, running.new.steps) cursor.old cursor.new result }
    ensures depth { running.new.depth ≡ running.old.depth }
    ensures knows { (p : Option Told) → W.knows running.old.watch p → W.knows running.new.watch p }
    ensures visits { KeepsWatch cursor.old.text.profile D.Desk T.Terminal W.follows running.old.depth (desk.old, term.old, running.old.steps)
        (at_cursor cursor.old) running.old.watch running.new.watch running.new.steps.done }
{
    let at = cursor.at;
    let done = running.steps.done;
    let flow = step::<D, S, T, W>(desk, cursor, &mut running.steps, stop, term);
    running
        .watch
        .stepped(done, running.steps.done, running.depth, at, cursor);
    flow
}

/// Does the step that calls the text of a register, at the cursor of the text that calls it. Where it returns, the cursor goes on.
///
/// A copy of the text is run. A short one lies in the frame of this call. A longer one lies in the room that is spare, or memory is
/// found for it before the step counts.
#[cycle(run_text)]
fn run_called<D: Desk, S: Stop, T: Terminal, W: Watch>(
    desk: &mut D,
    site: CallSite,
    cursor: &mut Cursor,
    rooms: &mut [Room],
    running: &mut Running<W>,
    stop: &mut S,
    term: &mut T,
) -> Exit
    requires deep { running.old.depth ≤ CALL_LIMIT }
    requires token { IsReadAt cursor.old.text.profile cursor.old.text.bytes.now site.at (Some (call_token site.register))
        (cursor_of cursor.old).left }
    requires within { site.at ≤ length cursor.old.text.bytes.now }
    ensures text { cursor.new.text ≡ cursor.old.text }
    ensures left { (cursor_of cursor.new).left ≡ (cursor_of cursor.old).left }
    ensures more { result ≡ exit.Return → running.old.steps.done < running.new.steps.done }
    ensures counts { CountsSteps (S.answered stop.old) (S.answered stop.new) (result ≡ exit.Stop Lim)
        running.old.steps running.new.steps }
    ensures depth { running.new.depth ≡ running.old.depth }
    ensures leads { RunLeadsAt D.Desk T.Terminal running.old.depth (desk.old, term.old, running.old.steps)
        (desk.new, term.new, running.new.steps) (at_register_call cursor.old site.register)
        (λ callers. reached_after_call cursor.new callers result) }
    ensures told { W.knows running.old.watch None → Tells (W.knows running.new.watch) result running.new.steps.done
        (StandsFrom D.Desk T.Terminal running.old.depth (desk.old, term.old, running.old.steps)
        (at_register_call cursor.old site.register)) }
    ensures visits { KeepsWatch cursor.old.text.profile D.Desk T.Terminal W.follows running.old.depth (desk.old, term.old, running.old.steps)
        (at_register_call cursor.old site.register) running.old.watch running.new.watch running.new.steps.done }
{
    if running.steps.are_over(stop) {
        running.steps.limit = running.steps.done;
        running.watch.stood(running.steps.done, site.at, cursor);
        return Exit::Stop(Code::Lim);
    }
    let (done, next) = (running.steps.done, running.steps.next());
    running
        .watch
        .stepped(done, next, running.depth, site.at, cursor);
    if running.depth == CALL_LIMIT {
        running.steps.count();
        desk.step_done(running.steps.done);
        running.watch.stood(running.steps.done - 1, site.at, cursor);
        return Exit::Fail(Code::Pdo);
    }
    let text = desk.registers().text(site.register);
    let len = text.len();
    if len <= SHORT_LIMIT {
        let mut copy = [0; SHORT_LIMIT];
        copy_short(text, &mut copy);
        let exit = run_copy(desk, &copy[..len], cursor, rooms, running, stop, term);
        tell_call(exit, site, cursor, &mut running.watch);
        return exit;
    }
    let alloc = *desk.registers().value(site.register).text.allocator();
    match running.spare.copy(alloc, text) {
        Ok(copy) => {
            let exit = run_copy(desk, &copy, cursor, rooms, running, stop, term);
            running.spare.keep(copy);
            tell_call(exit, site, cursor, &mut running.watch);
            exit
        }
        Err(_) => {
            running.watch.stood(running.steps.done, site.at, cursor);
            Exit::Stop(Code::Mem)
        }
    }
}

/// Tells the watch of a call, where the text that was called has ended the run by a code.
#[inline(always)]
fn tell_call<W: Watch>(exit: Exit, site: CallSite, cursor: &Cursor, watch: &mut W)
    requires { site.at ≤ length cursor.now.text.bytes.now }
    ensures none { code_left exit ≡ None → watch.new ≡ watch.old }
    ensures some { is_some (code_left exit) ≡ true → (p : Told) → W.knows watch.old (Some p)
        → (to : ℕ) × IsTokenPlace cursor.now.text.bytes.now site.at to
        × W.knows watch.new (Some (with_call p site.register to (cursor_of cursor.now).blocks)) }
    ensures follows { (sought : Wanted) (done : ℕ) → W.follows watch.old sought done → W.follows watch.new sought done }
{
    if exit.code().is_some() {
        watch.called(site.register, site.at, cursor);
    }
}

/// Counts the step that calls a text, of which this is a copy, and runs it.
#[cycle(run_text)]
fn run_copy<D: Desk, S: Stop, T: Terminal, W: Watch>(
    desk: &mut D,
    called: &[u8],
    cursor: &mut Cursor,
    rooms: &mut [Room],
    running: &mut Running<W>,
    stop: &mut S,
    term: &mut T,
) -> Exit
    requires deep { running.old.depth < CALL_LIMIT }
    requires fuel { running.old.steps.done < running.old.steps.limit }
    requires lets { (S.answered stop.old).said running.old.steps.done false }
    ensures text { cursor.new.text ≡ cursor.old.text }
    ensures left { (cursor_of cursor.new).left ≡ (cursor_of cursor.old).left }
    ensures blocks { (cursor_of cursor.new).blocks ≡ (cursor_of cursor.old).blocks }
    ensures more { running.old.steps.done < running.new.steps.done }
    ensures counts { CountsSteps (S.answered stop.old) (S.answered stop.new) (result ≡ exit.Stop Lim)
        running.old.steps running.new.steps }
    ensures depth { running.new.depth ≡ running.old.depth }
    ensures leads { (q : ℕ) → called.now ≡ (content (D.state desk.old).registers q).text
        → RunLeadsAt D.Desk T.Terminal running.old.depth (desk.old, term.old, running.old.steps)
        (desk.new, term.new, running.new.steps) (at_register_call cursor.old q) (λ callers. reached_after_call cursor.new callers result) }
    ensures told { (q : ℕ) → called.now ≡ (content (D.state desk.old).registers q).text
        → W.knows running.old.watch None → Tells (W.knows running.new.watch) result running.new.steps.done
        (StandsInside D.Desk T.Terminal running.old.depth (desk.old, term.old, running.old.steps) cursor.old q) }
    ensures visits { (q : ℕ) → called.now ≡ (content (D.state desk.old).registers q).text
        → KeepsWatchInside D.Desk T.Terminal W.follows running.old.depth (desk.old, term.old, running.old.steps)
        cursor.old q running.old.watch running.new.watch running.new.steps.done }
{
    running.steps.count();
    desk.step_done(running.steps.done);
    running.depth += 1;
    let text = Text {
        profile: cursor.text.profile,
        bytes: called,
    };
    let exit = run_text(desk, text, &mut cursor.args, rooms, running, stop, term);
    running.depth -= 1;
    exit
}

/// The memory that the texts of the registers are in.
#[inline(always)]
fn memory_of<D: Desk>(desk: &D) -> Option<Global> {
    let register = Reg::of(b'A')?;
    Some(*desk.registers().value(register).text.allocator())
}
