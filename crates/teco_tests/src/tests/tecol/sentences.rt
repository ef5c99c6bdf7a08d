//! Sentences that a check tells of large commands alone.
use crate::tests::assert_of;
use crate::tests::bytes::{has, is, named_text};
use std::alloc::Global;
use std::test::*;
use teco_check::Wrong;
use teco_core::{NoMemory, Profile};
use teco_lint::{FaultIn, Remark, What, check, report, show_remark};
use teco_scan::Span;

/// Commands that begin with a token, what is wrong with it, and the sentence.
static SENTENCES: [(&str, Wrong, &str); 2] = [
    (
        "MAJ",
        Wrong::Calls,
        "hint: not checked: MA runs a text that is not looked into",
    ),
    (
        "@^UA/<J/J",
        Wrong::InText,
        "hint: not checked: @^UA/<J/ has a text inside 8 others",
    ),
];

/// Whether a row is told so.
fn is_told(alloc: Global, row: &(&str, Wrong, &str)) -> bool {
    let (text, wrong, sentence) = *row;
    let inside = Span {
        from: 0,
        to: text.len(),
    };
    let fault = FaultIn {
        at: 0,
        wrong,
        inside,
    };
    let remark = Remark {
        at: 0,
        what: What::Fault(fault),
    };
    let mut out = String::new(alloc);
    show_remark(&mut out, named_text(text.as_bytes()), &remark, None).is_ok() && is(&out, sentence)
}

/// What is told at the end of 1,001 semicolons outside of an iteration: a thousand remarks, and that there are more.
const END: &str = "
-:1:1000: hint: ; is in no iteration of this text, which is SNI
-:1:1001: hint: more remarks are not told
";

/// Whether these lines end what is told of such commands.
fn ends_there(alloc: Global) -> Result<bool, NoMemory> {
    let mut commands = Vec::new(alloc);
    commands.resize(1001, b';')?;
    let advice = check(alloc, Profile::Named, &commands)?;
    let lines = report(
        alloc,
        "-",
        &commands,
        None,
        named_text(&commands),
        &advice.remarks,
    )?;
    Ok(has(&lines, END))
}

#[test]
fn a_sentence_is_told(rt: HostRuntime) {
    let alloc = rt.alloc();
    for row in &SENTENCES {
        assert_of(&rt, row.0, is_told(alloc, row) || is_told(alloc, row));
    }
    let held = ends_there(alloc).unwrap_or(false) || ends_there(alloc).unwrap_or(false);
    assert_of(&rt, END, held);
}
