//! The examples of the pages in docs. `tools/rows --write` makes their tables.
use super::Streams;
use crate::tests::rows::all_hold;
use std::test::*;

/// The pages, and then tables of pages. Past the last there are no rows. An array of them would cost the proof more.
fn page(at: usize) -> &'static str {
    match at {
        0 => tour::EXAMPLES,
        1 => man_page::EXAMPLES,
        2 => cookbook_six_to_begin_with::EXAMPLES,
        3 => cookbook_replace::EXAMPLES,
        4 => cookbook_lines::EXAMPLES,
        5 => cookbook_columns_and_fields::EXAMPLES,
        6 => cookbook_numbers::EXAMPLES,
        7 => cookbook_macros::EXAMPLES,
        8 => cookbook_pages::EXAMPLES,
        9 => cookbook_undo::EXAMPLES,
        10 => reference::EXAMPLES,
        11 => macros::EXAMPLES,
        12 => from::EXAMPLES,
        13 => tour_answers::EXAMPLES,
        _ => "",
    }
}

/// A page does not tell the byte 13 of a line end, and a table not what is between the words that are typed.
#[test]
fn pages_tell_what_is_typed_and_written(rt: HostRuntime) {
    for at in 0..32 {
        let untold: &[u8] = if at < 10 { b"\r" } else { b"\r\n " };
        all_hold(&rt, rt.alloc(), &Streams(untold), page(at));
    }
}

mod cookbook_columns_and_fields;
mod cookbook_lines;
mod cookbook_macros;
mod cookbook_numbers;
mod cookbook_pages;
mod cookbook_replace;
mod cookbook_six_to_begin_with;
mod cookbook_undo;
mod from;
mod macros;
mod man_page;
mod reference;
mod tour;
mod tour_answers;
