//! Command strings, run on the editor of a session: what a row asks, how it ends, and how it is tried.
use super::{block_forms, conditionals, iterations, jumps, page_lines, page_turns};
use crate::tests::bytes::{Screen, are, is, is_typed, put};
use crate::tests::commands::FORMS;
use crate::tests::rows::{Cells, Rule, all_hold, cells_of, halves_at, number_or, text_of};
use crate::tests::scan::{faults, modifiers};
use crate::tests::search::elements;
use crate::tests::session::requests::{Over, Trial, holds_once, ran};
use crate::tests::step::{edits, failed_searches, operands, search_forms, searches, texts, values};
use std::alloc::Global;
use std::test::*;
use teco_core::Code;
use teco_session::{Answer, Session};
use teco_store::{Desk, Editor};

/// The limit of a text, in bytes.
const FULL: usize = 16_777_216;

/// The bytes of a cell, in which [FULL] stands for two bytes less than the limit of a text. Where memory was refused, it is asked for a
/// second time.
pub(crate) fn bytes_of(alloc: Global, cell: &str) -> Vec<u8> {
    let (before, after) = halves_at(cell, "[FULL]");
    let mut bytes = Vec::new(alloc);
    put(&mut bytes, before.as_bytes());
    if before.len() < cell.len() {
        let length = bytes.len().saturating_add(FULL - 2);
        let _ = bytes.resize(length, b'x').is_ok() || bytes.resize(length, b'x').is_ok();
    }
    put(&mut bytes, after.as_bytes());
    bytes
}

/// Whether a code has these letters, or there is neither. `EX` is no code: the string is done then.
pub(crate) fn is_code(code: Option<Code>, letters: &str) -> bool {
    match code {
        Some(code) => are(code.letters().as_slice(), letters.as_bytes()),
        None => letters.is_empty() || is(letters, "EX"),
    }
}

/// Whether an editor has the output that a cell says, where a hyphen is an empty one, and is done after an exit alone; an empty cell says
/// nothing of it.
fn is_written(editor: &Editor, output: &str, code: &str) -> bool {
    output.is_empty()
        || editor.output().are(text_of(output).as_bytes()) && editor.done() == is(code, "EX")
}

/// A row, whose text is run.
#[derive(Clone, Copy)]
struct Run<'a>(Cells<'a>);

impl Trial for Run<'_> {
    fn holds(&self, alloc: Global, session: &mut Session, term: &mut Screen) -> bool {
        let [text, typed, code, steps, limit, output, ..] = self.0;
        let text = bytes_of(alloc, text);
        match ran(session, &text, number_or(limit, 1000), term) {
            Answer::Ended(outcome) => {
                is_code(outcome.code, code)
                    && number_or(steps, outcome.steps) == outcome.steps
                    && is_typed(term, typed)
                    && is_written(session.editor(), output, code)
            }
            _ => false,
        }
    }
}

/// A row is a text, what it types, the letters of the code by which it ends, if it ends by one, its steps, their limit, the output, the
/// input, and the lines of a page. What is empty of the steps, the limit, the output and the lines is not said.
#[derive(Clone, Copy)]
pub(crate) struct Strings;

impl Rule for Strings {
    /// In a session that keeps no string, so the text is run on its editor.
    fn holds(&self, alloc: Global, row: &str) -> bool {
        let cells = cells_of(row);
        let input = bytes_of(alloc, cells[6]);
        let over = Over {
            input: &input,
            page_lines: number_or(cells[7], 0) as usize,
            depth: Some(0),
        };
        holds_once(alloc, &over, &Run(cells))
    }
}

const ROWS: &str = "
    Ihello\x1b0J3C.=\x1b => 3\r\n => => 7
    2+3*4=\x1b => 20\r\n => => 6
    2\r\n+\0 3= => 5\r\n => => 4
    2147483647+1=\x1b => => OVF => 3
    -2147483647-1= => -2147483648\r\n => => 5
    -2147483648= => => OVF => 2
    (-2147483647-1)/(0-1)= => => OVF => 12
    5J\x1b => => POP => 2
    256I\x1b => => ARG => 2
    \x1b => => => 0
    1===\x1b => => ILL => 1
    7=Iab => 7\r\n => UTC => 2
    1\x1b= => => NAE => 2
    Ia\nb\x1b0T-T\x1b => ba\nb => => 5
    Iab\x1b.=HT => 2\r\nab => => 5
    3<%A>QA=\x1b => 3\r\n => => 10
    ";

/// The tables of all strings but those at the limits of the texts. Past the last there are no rows. An array of them would cost the proof more.
fn table(at: usize) -> &'static str {
    match at {
        0 => ROWS,
        1 => conditionals::ROWS,
        2 => iterations::ROWS,
        3 => jumps::ROWS,
        4 => block_forms::ROWS,
        5 => page_turns::ROWS,
        6 => page_lines::ROWS,
        7 => values::ROWS,
        8 => edits::ROWS,
        9 => texts::ROWS,
        10 => searches::ROWS,
        11 => failed_searches::PARDONED,
        12 => FORMS,
        13 => operands::ROWS,
        14 => search_forms::ROWS,
        15 => faults::ROWS,
        16 => modifiers::ROWS,
        17 => elements::ROWS,
        _ => "",
    }
}

#[test]
fn strings_end_as_they_mean(rt: HostRuntime) {
    for at in 0..32 {
        all_hold(&rt, rt.alloc(), &Strings, table(at));
    }
}
