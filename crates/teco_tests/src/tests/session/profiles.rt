//! What Named takes, Wide does too: the same state, the same bytes typed, and the same code.
use super::random::made;
use super::requests::{ran_at_last, turned};
use crate::tests::bytes::{are, joined, screen_of, shown_on};
use crate::tests::store::states::{is_seen, seen};
use std::alloc::Global;
use std::test::*;
use teco_core::{Code, FILE_LIMIT, Profile};
use teco_session::Session;
use teco_store::{Desk, Editor};

/// A session in each profile, over the same input.
#[derive(Drop)]
struct Both {
    named: Session,
    wide: Session,
}

fn session_in(alloc: Global, profile: Profile) -> Option<Session> {
    let page: &[u8] = b"one a\ntwo b c\n\nthree\nfour a b\n\x0c";
    let mut input = joined(alloc, &[page; 80]);
    input.truncate(FILE_LIMIT);
    let editor = Editor::new(input).with_profile(profile);
    match Session::over(editor, None) {
        Ok(mut session) => {
            let _answer = ran_at_last(&mut session, b"Y7C5UAXB", 100, &mut screen_of(alloc, 0));
            Some(session)
        }
        Err(_) => None,
    }
}

impl Both {
    fn new(alloc: Global) -> Option<Both> {
        let named = session_in(alloc, Profile::Named)?;
        let wide = session_in(alloc, Profile::Wide)?;
        Some(Both { named, wide })
    }

    /// Undoes the last string of each.
    fn undo(&mut self) -> bool {
        turned(&mut self.named, false).is_none() && turned(&mut self.wide, false).is_none()
    }

    fn are_alike(&self, alloc: Global) -> bool {
        is_seen(alloc, self.wide.editor(), &seen(alloc, self.named.editor()))
    }

    /// Runs a string in each, which both do alike, unless it has what Named alone refuses: then it is undone.
    fn agree(&mut self, alloc: Global, text: &[u8]) -> bool {
        let (mut screen, mut other) = (screen_of(alloc, 1000), screen_of(alloc, 1000));
        let named = ran_at_last(&mut self.named, text, 200, &mut screen).code();
        let wide = ran_at_last(&mut self.wide, text, 200, &mut other).code();
        match named {
            Some(Code::Ill) | Some(Code::Iqc) | Some(Code::Arg) => self.undo(),
            _ => {
                named == wide
                    && are(shown_on(&screen), shown_on(&other))
                    && (!self.named.editor().done() || self.undo())
            }
        }
    }
}

/// The bytes of which strings of two are made.
const BYTES: &[u8] = b"=\"<>'|;:@^!1-(),.*%[]ABDEFKLOPQRSUXY_\x05\x11\x14\x15\x1b";

/// Whether each byte alone agrees, and each string of two of these, one after the other.
fn short_ones_agree(alloc: Global) -> bool {
    let Some(mut both) = Both::new(alloc) else {
        return false;
    };
    let mut held = both.are_alike(alloc);
    for byte in 0..=u8::MAX {
        held = both.agree(alloc, &[byte]) && held;
    }
    for first in BYTES {
        for second in BYTES {
            held = both.agree(alloc, &[*first, *second]) && held;
        }
        held = both.are_alike(alloc) && held;
    }
    held
}

/// Whether a thousand strings that are made agree, one after the other.
fn made_ones_agree(alloc: Global) -> bool {
    let Some(mut both) = Both::new(alloc) else {
        return false;
    };
    let (mut held, mut seed) = (true, 7);
    for _ in 0..1000 {
        let text = made(alloc, &mut seed);
        held = both.agree(alloc, &text) && both.are_alike(alloc) && held;
    }
    held
}

#[test]
fn what_named_takes_wide_does(rt: HostRuntime) {
    let alloc = rt.alloc();
    assert!(rt; short_ones_agree(alloc) || short_ones_agree(alloc));
    assert!(rt; made_ones_agree(alloc) || made_ones_agree(alloc));
}
