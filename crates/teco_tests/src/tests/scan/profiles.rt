//! What the profiles read.
use crate::tests::bytes::are;
use crate::tests::rows::{Rule, all_hold, cells_of, number_or};
use std::alloc::Global;
use std::test::*;
use teco_core::Profile;
use teco_scan::{Found, token_at};

/// Whether a text begins with a token that ends at a place, or is a fault.
fn finds(profile: Profile, text: &str, wanted: &str) -> bool {
    match token_at(profile, text.as_bytes(), 0) {
        Found::Token(token) => token.span.to as u64 == number_or(wanted, 0),
        Found::Fault(code) => are(&code.letters(), wanted.as_bytes()),
        Found::End => false,
    }
}

#[derive(Clone, Copy)]
struct Reads;

impl Rule for Reads {
    /// A text, and what it is in Named and in Wide.
    fn holds(&self, _: Global, row: &str) -> bool {
        let [text, named, wide, ..] = cells_of(row);
        finds(Profile::Named, text, named) && finds(Profile::Wide, text, wide)
    }
}

static ROWS: &str = "
    // Wide admits a colon before these.
    :Xa => ILL => 3
    :^Uab\x1b => ILL => 6
    :@^Ua/b/ => ILL => 8
    @:\x15a/b/ => ILL => 7
    :P => ILL => 2
    :PW => ILL => 2
    :A => ILL => 2
    :y => ILL => 2
    :; => ILL => 2
    // It has these tests.
    \"= => IQC => 2
    \"< => IQC => 2
    \"> => IQC => 2
    \"c => IQC => 2
    // It has these commands.
    FDab\x1b => ILL => 5
    :@fk/ab/ => ILL => 8
    ::FSa\x1bb\x1b => ILL => 8
    === => ILL => 3
    :=== => ILL => 4
    ^Q => ILL => 2
    \x11 => ILL => 1
    // It has what Named has.
    Xa => 2 => 2
    ^Uab\x1b => 5 => 5
    PW => 2 => 2
    :Qa => 3 => 3
    \"e => 2 => 2
    907= => 3 => 3
    // What it doesn't have are the same faults, or later ones.
    ::P => ILL => ILL
    @Xa => ILL => ILL
    :J => ILL => ILL
    ::FDa\x1b => ILL => ILL
    ::=== => ILL => ILL
    :^Q => ILL => ILL
    FKa => ILL => UTC
    \"? => IQC => IQC
    \" => UTC => UTC
    :X => ILL => UTC
    :X? => ILL => IQN
    ";

#[test]
fn profiles_read_so(rt: HostRuntime) {
    all_hold(&rt, rt.alloc(), &Reads, ROWS);
}
