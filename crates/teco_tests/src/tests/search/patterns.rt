//! What no command shows of search texts: how they are shown.
use crate::tests::bytes::is;
use crate::tests::rows::{Rule, all_hold, cells_of};
use std::alloc::Global;
use std::test::*;
use teco_core::CaseMode;
use teco_search::Pattern;

/// A search text, and how it is shown.
#[derive(Clone, Copy)]
struct Shown;

impl Rule for Shown {
    fn holds(&self, alloc: Global, row: &str) -> bool {
        let [text, wanted, ..] = cells_of(row);
        if text.is_empty() {
            return false;
        }
        let Ok(pattern) = Pattern::read(alloc, text.as_bytes(), CaseMode::Exact) else {
            return false;
        };
        match format!(in alloc; "{pattern}") {
            Ok(shown) => is(&shown, wanted),
            Err(_) => false,
        }
    }
}

const ROWS: &str = "
    ab\x11\x0e => ab<14>
    \x0e\x05[a,\x05d,\x18]\x05S => ^N^E[a,^ED,^EX]^ES
    \x13\x05L\x05V => ^EB^EL^EV
    x\x05R\x05A\x05W => x^ER^EA^EW
    ";

#[test]
fn patterns_are_shown(rt: HostRuntime) {
    all_hold(&rt, rt.alloc(), &Shown, ROWS);
}
