//! Runs in each profile.
use super::strings::is_code;
use super::wide_forms::{SEARCHES, UNDONE, VALUES};
use crate::tests::bytes::{are, wide_screen};
use crate::tests::rows::{Rule, all_hold, cells_of};
use crate::tests::session::history::comes_back;
use crate::tests::store::states::seen;
use std::alloc::Global;
use std::test::*;
use teco_core::Profile;
use teco_exec::run;
use teco_io::MemoryTerminal;
use teco_session::Session;
use teco_store::{Desk, Editor};

/// Whether a text that is run in a profile types these bytes and ends by a code.
fn runs(alloc: Global, profile: Profile, text: &str, typed: &str, code: &str) -> bool {
    let mut editor = Editor::new(Vec::new(alloc)).with_profile(profile);
    let mut terminal = MemoryTerminal::new(alloc);
    let outcome = run(&mut editor, text.as_bytes(), 1000, &mut terminal);
    is_code(outcome.code, code)
        && are(terminal.bytes(), typed.as_bytes())
        && editor.profile() == profile
}

#[derive(Clone, Copy)]
struct Ended;

impl Rule for Ended {
    /// A text, what it types in Wide with its code, and the same in Named.
    fn holds(&self, alloc: Global, row: &str) -> bool {
        let [text, typed, code, named_typed, named_code, ..] = cells_of(row);
        runs(alloc, Profile::Wide, text, typed, code)
            && runs(alloc, Profile::Named, text, named_typed, named_code)
    }
}

static ROWS: &str = "
    // Its tests.
    0\"=1='2= => 1\r\n2\r\n => => => IQC
    -1\"<3='1\"<4='5= => 3\r\n5\r\n => => => IQC
    1=1\">3='0\">4=' => 1\r\n3\r\n => => 1\r\n => IQC
    // A block that is passed, a jump, and a macro are read by the same profile.
    0<0\"=1='>2= => 2\r\n => => => IQC
    OT\x1b0\"=1='!T!3= => 3\r\n => => => TAG
    \x15A0\"=5='\x1bMA => 5\r\n => => => IQC
    // Its colons.
    Iabc\x1b0,1XA1,3:XAHKGAHT => abc => => => ILL
    \x15Aab\x1b:\x15Ac\x1bHKGAHT => abc => => => ILL
    2<1:;3=> => 3\r\n3\r\n => => => ILL
    2<-1:;3=>4= => 4\r\n => => => ILL
    // What is in both.
    3<%A>QA= => 3\r\n => => 3\r\n
    \"?1=' => => IQC => => IQC
    ";

#[derive(Clone, Copy)]
struct Returns;

impl Rule for Returns {
    /// A text that is run in a session in Wide is undone and redone, and the session stays in Wide.
    fn holds(&self, alloc: Global, row: &str) -> bool {
        let editor = Editor::new(Vec::new(alloc)).with_profile(Profile::Wide);
        let (first, mut term) = (seen(alloc, &editor), wide_screen(alloc));
        match Session::over(editor, None) {
            Ok(mut session) => {
                comes_back(alloc, &mut session, &first, row.as_bytes(), &mut term)
                    && session.editor().profile() == Profile::Wide
            }
            Err(_) => false,
        }
    }
}

#[test]
fn profiles_run_so(rt: HostRuntime) {
    all_hold(&rt, rt.alloc(), &Ended, ROWS);
    all_hold(&rt, rt.alloc(), &Ended, VALUES);
    all_hold(&rt, rt.alloc(), &Ended, SEARCHES);
    all_hold(&rt, rt.alloc(), &Returns, UNDONE);
}
