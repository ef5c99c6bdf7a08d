//! How each crate is called: the examples of the crates' pages. A call that was refused memory is made a second time.
use crate::tests::bytes::{are, are_both, are_there, is, joined, wide_screen};
use crate::tests::driver::words_of;
use std::alloc::Global;
use std::test::*;
use teco_check::{REGISTERS, fault_of};
use teco_cli::{is_standard_input, line_of};
use teco_core::{Args, CaseMode, Code, Op, Profile, Taken};
use teco_exec::run;
use teco_fs::{Disk, MemoryDisk, RefusedCall, has_bytes};
use teco_gap::GapBuffer;
use teco_io::{MemorySource, MemoryTerminal, Terminal, read_input};
use teco_journal::{Record, push_record};
use teco_lint::check;
use teco_messages::show_code;
use teco_replay::resume;
use teco_scan::{Found, Item, TokenKind, first_fault, token_at};
use teco_search::{Endless, Pattern, find};
use teco_serve::{Asked, Splitter};
use teco_session::Session;
use teco_source::{commands, listing};
use teco_step::{Context, Next, line_place, step_token};
use teco_store::{Desk, Editor, Slices};
use teco_undo::Recorder;

/// teco_core: a sum is given, and a command takes it.
fn a_sum_is_taken() -> bool {
    let mut args = Args::new();
    args.give(2).is_ok()
        && args.operator(Op::Plus).is_ok()
        && args.give(3).is_ok()
        && matches!(args.take(), Ok(Taken::One(5)))
}

/// teco_gap: two bytes take the place of one.
fn a_text_is_edited(alloc: Global) -> bool {
    let mut text = GapBuffer::new();
    if text.reserve(alloc, 8).is_err() {
        return false;
    }
    text.splice(0, 0, b"hello");
    text.splice(2, 1, b"XY");
    are_both(text.halves(), b"heXYlo")
}

/// teco_search: the second occurrence backward, across the place where the halves meet.
fn an_occurrence_is_found(alloc: Global) -> bool {
    match Pattern::read(alloc, b"aXb", CaseMode::Exact) {
        Ok(pattern) => matches!(
            find(&pattern, (b"aX", b"baXb"), 6, -2, &Endless),
            Ok(Some((0, 3)))
        ),
        Err(_) => false,
    }
}

/// teco_scan: a token ends where its text ends.
fn a_token_is_read() -> bool {
    match token_at(Profile::Named, b"Iab\x1bT", 0) {
        Found::Token(token) => token.span.to == 4,
        _ => false,
    }
}

/// teco_scan: a block without its end is a fault.
fn a_fault_is_found() -> bool {
    first_fault(Profile::Named, b"3<D").is_some()
}

/// teco_store: a text is put in, and the pointer goes after it.
fn an_edit_is_made(alloc: Global) -> bool {
    let mut editor = Editor::new(Vec::new(alloc));
    editor.splice(0, 0, b"ab", None).is_ok()
        && editor.pointer() == 2
        && are_both(editor.halves(), b"ab")
}

/// teco_io: a terminal in memory shows what is put on it.
fn a_put_is_shown(alloc: Global) -> bool {
    let mut terminal = MemoryTerminal::new(alloc);
    terminal.put(b"2\r\n").is_ok() && are(terminal.bytes(), b"2\r\n")
}

/// teco_step: the next line begins after the line end that comes, across the place where the halves meet.
fn a_line_is_placed() -> bool {
    line_place(b"one\ntw", b"o\nthree", 5, 1) == 8
}

/// teco_step: the step of `%A` adds one to the number of its register, and gives it.
fn a_token_is_done(alloc: Global) -> bool {
    let mut editor = Editor::new(Vec::new(alloc));
    let mut terminal = MemoryTerminal::new(alloc);
    let mut args = Args::new();
    let Found::Token(token) = token_at(Profile::Named, b"%A", 0) else {
        return false;
    };
    let TokenKind::Item(Item::Register(_, _)) = token.kind else {
        return false;
    };
    let (desk, term) = (&mut editor, &mut terminal);
    let context = Context {
        work: None,
        inside: false,
        before: false,
    };
    let next = step_token(desk, b"%A", &token, context, &mut args, term, &Endless);
    matches!(next, Next::On) && matches!(args.take(), Ok(Taken::One(1)))
}

/// teco_exec: a loop is run under a limit of steps.
fn a_string_is_run(alloc: Global) -> bool {
    let mut editor = Editor::new(Vec::new(alloc));
    let mut terminal = MemoryTerminal::new(alloc);
    let outcome = run(&mut editor, b"3<%A>QA=\x1b", 100, &mut terminal);
    outcome.code.is_none() && outcome.steps == 10 && are(terminal.bytes(), b"3\r\n")
}

/// teco_undo: a change is noted as it is made.
fn a_change_is_noted(alloc: Global) -> bool {
    let mut recorder = Recorder::new(Editor::new(Vec::new(alloc)));
    recorder.splice(0, 0, b"ab", None).is_ok() && recorder.take().len() == 1
}

/// teco_session: the changes of a string, each with the steps that were done before it.
fn a_string_has_changes(alloc: Global) -> bool {
    let mut session = Session::new(Vec::new(alloc));
    let _answer = session.run(b"%A%B", 100, &mut wide_screen(alloc));
    session.strings() == 1 && session.entry(0).len() == 2 && session.entry(0).step(1) == 1
}

/// teco_session: an undo gives back the state before the last string.
fn a_string_is_undone(alloc: Global) -> bool {
    let mut session = Session::new(Vec::new(alloc));
    let _answer = session.run(b"Ihello\x1b", 100, &mut wide_screen(alloc));
    session.undo().is_ok() && session.editor().pointer() == 0 && session.redo().is_ok()
}

/// teco_messages: a code in a few words.
fn a_code_is_told(alloc: Global) -> bool {
    let mut out = String::new(alloc);
    show_code(&mut out, Code::Srh).is_ok() && is(&out, ": SRH, the search found nothing")
}

/// teco_source: a margin, a comment and the end of a line are layout, and `$` is ESC.
fn a_source_is_understood(alloc: Global) -> bool {
    match commands(alloc, b"  Iab$ !! a text\n  T\n") {
        Ok(bytes) => are(&bytes, b"Iab\x1bT"),
        Err(_) => false,
    }
}

/// teco_source: a text as a source.
fn a_text_is_listed(alloc: Global) -> bool {
    match listing(alloc, Profile::Named, b"Iab\x1bT", false) {
        Ok(source) => are(&source, b"Iab$T\n"),
        Err(_) => false,
    }
}

/// teco_journal: the line of a record.
fn a_record_is_put(alloc: Global) -> bool {
    let (mut out, mut check) = (Vec::new(alloc), *b"0123456789abcdef");
    push_record(&mut out, &mut check, &Record::Undo).is_ok()
        && are(&out, b"d4a5323164113ca6 undo\n")
}

/// teco_replay: a string and its undo, done again.
fn a_session_is_resumed(alloc: Global) -> bool {
    let text = joined(alloc, &[b"Ihello\x1b"]);
    let records = [Record::Run { steps: 1, text }, Record::Undo];
    let (input, mut term) = (Vec::new(alloc), wide_screen(alloc));
    match resume(Profile::Named, input, 0, None, &records, &mut term) {
        Ok(session) => session.strings() == 1 && session.cursor() == 0,
        Err(_) => false,
    }
}

/// teco_check: no command begins with `?`.
fn an_unknown_command_is_found() -> bool {
    match teco_check::first_fault(Profile::Named, b"5=?", &[false; REGISTERS]) {
        Some(fault) => fault.at == 2,
        None => false,
    }
}

/// teco_check: a text without a fault.
fn a_clean_text_is_told(alloc: Global) -> bool {
    fault_of(alloc, Profile::Named, b"3<%A>", &[false; REGISTERS]).is_none()
}

/// teco_lint: the second of two command strings has a fault.
fn a_fault_is_told(alloc: Global) -> bool {
    match check(alloc, Profile::Named, b"5=\x1b\x1b5>\x1b\x1b") {
        Ok(advice) => advice.is_faulty,
        Err(_) => false,
    }
}

/// teco_cli: the names of the standard input.
fn a_stream_is_named() -> bool {
    is_standard_input("-") && is_standard_input("/dev/stdin") && !is_standard_input("in")
}

/// teco_cli: the words of a line.
fn a_line_is_read(alloc: Global) -> bool {
    match line_of(alloc, words_of(alloc, "teco -i in")) {
        Ok(line) => line.in_place && is(&line.input, "in"),
        Err(_) => false,
    }
}

/// teco_io: a source is read whole.
fn a_source_is_read(alloc: Global) -> bool {
    let mut source = MemorySource::new(joined(alloc, &[b"one"]), Vec::new(alloc), false);
    match read_input(alloc, &mut source, 3) {
        Ok(input) => are(&input, b"one"),
        Err(_) => false,
    }
}

/// teco_fs: a disk in memory tells what a file has.
fn a_file_is_put(alloc: Global) -> bool {
    let mut disk = MemoryDisk::new(alloc, RefusedCall::Nothing);
    disk.put("in", b"one").is_ok() && disk.open("in").is_ok() && are_there(disk.bytes("in"), b"one")
}

/// teco_fs: a file has these bytes, and no others.
fn a_file_is_compared(alloc: Global) -> bool {
    let mut disk = MemoryDisk::new(alloc, RefusedCall::Nothing);
    disk.put("in", b"one").is_ok()
        && has_bytes("in", Slices::of(b"one"), &mut disk)
        && !has_bytes("in", Slices::of(b"on"), &mut disk)
}

/// teco_serve: a stream is cut at its pairs of ESC.
fn a_stream_is_cut(alloc: Global) -> bool {
    let mut splitter = Splitter::new(alloc);
    splitter.feed(b"1=\x1b\x1b2{\x1b\x1b").is_ok()
        && matches!(splitter.next(), Ok(Some(Asked::Run(_))))
        && matches!(splitter.next(), Ok(Some(Asked::Undo(2))))
}

/// Whether each example of what edits and runs holds.
fn edits_are_called_so(alloc: Global) -> bool {
    a_sum_is_taken()
        && a_text_is_edited(alloc)
        && an_occurrence_is_found(alloc)
        && a_token_is_read()
        && a_fault_is_found()
        && an_edit_is_made(alloc)
        && a_put_is_shown(alloc)
        && a_line_is_placed()
        && a_token_is_done(alloc)
        && a_string_is_run(alloc)
        && a_change_is_noted(alloc)
        && a_string_has_changes(alloc)
        && a_string_is_undone(alloc)
}

/// Whether each example of what programs are made of holds.
fn programs_are_called_so(alloc: Global) -> bool {
    a_code_is_told(alloc)
        && a_source_is_understood(alloc)
        && a_text_is_listed(alloc)
        && a_record_is_put(alloc)
        && a_session_is_resumed(alloc)
        && an_unknown_command_is_found()
        && a_clean_text_is_told(alloc)
        && a_fault_is_told(alloc)
        && a_stream_is_named()
        && a_line_is_read(alloc)
        && a_source_is_read(alloc)
        && a_file_is_put(alloc)
        && a_file_is_compared(alloc)
        && a_stream_is_cut(alloc)
}

/// Whether each example holds.
fn all_hold(alloc: Global) -> bool {
    edits_are_called_so(alloc) && programs_are_called_so(alloc)
}

#[test]
fn crates_are_called_so(rt: HostRuntime) {
    assert!(rt; all_hold(rt.alloc()) || all_hold(rt.alloc()));
}
