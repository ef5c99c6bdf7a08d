//! States as bytes, to be compared.
use crate::tests::bytes::{are, put};
use std::alloc::Global;
use teco_core::{CaseMode, Reg};
use teco_store::{Desk, Editor, Slices};

/// How long a text in two halves is, and the text.
fn put_text(bytes: &mut Vec<u8>, halves: (&[u8], &[u8])) {
    let length = halves.0.len().saturating_add(halves.1.len());
    put(bytes, &length.to_le_bytes());
    put(bytes, halves.0);
    put(bytes, halves.1);
}

/// How long an output is, and its bytes.
fn put_output(bytes: &mut Vec<u8>, output: Slices<'_>) {
    put(bytes, &output.len().to_le_bytes());
    let mut left = output;
    while let Some((slice, others)) = left.split_first() {
        put(bytes, slice);
        left = others;
    }
}

fn put_registers(bytes: &mut Vec<u8>, editor: &Editor) {
    let registers = editor.registers();
    for name in b"ABCDEFGHIJKLMNOPQRSTUVWXYZ0123456789" {
        if let Some(q) = Reg::of(*name) {
            put(bytes, &registers.number(q).to_le_bytes());
            put_text(bytes, (registers.text(q), &[]));
        }
    }
}

/// Puts the pointer, the place in the input, the values that are pushed, what the last search was, and whether it has found, the page ended
/// at a form feed, the session is done, and letters match in either case.
fn put_shown(alloc: Global, bytes: &mut Vec<u8>, editor: &Editor) {
    let search = editor.last_search();
    let is_either = editor.case_mode() == CaseMode::Either;
    for _ in 0..2 {
        if let Ok(shown) = format!(in alloc;
            "{} {} {:?} {search:?} {:?}",
            editor.pointer(),
            editor.place(),
            editor.pushed(),
            [
                editor.last_result(),
                editor.flag(),
                editor.done(),
                is_either
            ]
        ) {
            put(bytes, shown.as_bytes());
            return;
        }
    }
}

/// All that is seen of an editor.
pub(crate) fn seen(alloc: Global, editor: &Editor) -> Vec<u8> {
    let mut bytes = Vec::new(alloc);
    put_text(&mut bytes, editor.halves());
    put_registers(&mut bytes, editor);
    put_output(&mut bytes, editor.output());
    put_shown(alloc, &mut bytes, editor);
    bytes
}

/// Whether that is seen of an editor.
pub(crate) fn is_seen(alloc: Global, editor: &Editor, wanted: &[u8]) -> bool {
    are(&seen(alloc, editor), wanted)
}
