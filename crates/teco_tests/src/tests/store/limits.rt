//! Strings at the limits of the texts, and a byte past them.
use crate::tests::exec::strings::{Strings, bytes_of};
use crate::tests::rows::all_hold;
use std::alloc::Global;
use std::test::*;
use teco_store::{Desk, Editor, Refused};

const ROWS: &str = "
    // A text that is put in fits or is BIG.
    I[FULL]xx\x1bZ= => 16777216\r\n
    I[FULL]xxx\x1b => => BIG
    // A register's text fits or is BIG.
    ^UA[FULL]xx\x1b:QA= => 16777216\r\n
    ^UA[FULL]xxx\x1b => => BIG
    // A replacement fits or is BIG.
    Ia\x1bJFSa\x1b[FULL]xx\x1bZ= => 16777216\r\n
    Ia\x1bJFSa\x1b[FULL]xxx\x1b => => BIG
    // A search text fits or is BIG, and is found at the end of a full text, or is all of it.
    I[FULL]ab\x1bJ:Sab\x1b=.= => -1\r\n16777216\r\n
    AJ:S[FULL]xx\x1b=.= => -1\r\n16777216\r\n => => => => => [FULL]xx
    Ia\x1bJ:S[FULL]xxx\x1b => => BIG
    // A page past the limit is BIG.
    YZ=P => 1\r\n => BIG => => => => x\x0c[FULL]xxx
    YZ=A => 1\r\n => BIG => => => => x\x0c[FULL]xxx
    Y => => BIG => => => => [FULL]xxx
    // A page fills the text. The first input is a full page, an empty one and one of a byte.
    AAZ=A => 16777216\r\n => BIG => => => => [FULL]xx\x0c\x0cx
    AAZ= => 16777216\r\n => => => => => xx\x0c[FULL]
    AA => => BIG => => => => xx\x0c[FULL]x
    ";

/// Whether a search text is too long to be noted.
fn is_big(alloc: Global, cell: &str) -> bool {
    let text = bytes_of(alloc, cell);
    let mut editor = Editor::new(Vec::new(alloc));
    editor.note_search(Some(&text), true, 0) == Err(Refused::Big)
}

#[test]
fn texts_and_pages_fit_or_are_big(rt: HostRuntime) {
    let alloc = rt.alloc();
    all_hold(&rt, alloc, &Strings, ROWS);
    let held = is_big(alloc, "[FULL]xxx") || is_big(alloc, "[FULL]xxx");
    assert!(rt; held && !is_big(alloc, "[FULL]xx"));
}
