//! Tokens that get a colon, each done as a step of its own: how it ends, what it leaves as arguments, and what a string types after it.
ghost use Rattle.std.specs.Prelude.{◌≤◌, length};
ghost use Rattle.teco_core.specs.declared.limits.TheConstants.{FILE_LIMIT};

use crate::tests::bytes::{Screen, are, is, is_typed, joined, wide_screen};
use crate::tests::exec::strings::bytes_of;
use crate::tests::rows::{Rule, all_hold, cells_of};
use std::alloc::Global;
use std::test::*;
use teco_core::{Args, FILE_LIMIT, Profile, Taken};
use teco_exec::run;
use teco_scan::{Found, Modifiers, Token, TokenKind, token_at};
use teco_search::Endless;
use teco_step::{Context, Next, step_token};
use teco_store::Editor;

/// A step of the token at a place of a text, and the place after it. The last token of the text has a colon.
fn step_at(
    editor: &mut Editor,
    text: &[u8],
    at: usize,
    context: Context,
    args: &mut Args,
    term: &mut Screen,
) -> (Next, usize) {
    if at > text.len() {
        return (Next::Out, at);
    }
    let Found::Token(read) = token_at(Profile::Named, text, at) else {
        return (Next::Out, at);
    };
    let span = read.span;
    let TokenKind::Item(item) = read.kind else {
        return (Next::Out, at);
    };
    let colons = if span.to == text.len() { 1 } else { 0 };
    let token = Token {
        span,
        modifiers: Modifiers { at: false, colons },
        kind: TokenKind::Item(item),
    };
    let next = step_token(editor, text, &token, context, args, term, &Endless);
    (next, span.to)
}

/// Does the tokens of a text, up to one after which the text doesn't go on. What is left of pages is done.
fn done(
    editor: &mut Editor,
    text: &[u8],
    inside: bool,
    args: &mut Args,
    term: &mut Screen,
) -> Next {
    let (mut at, mut work, mut next) = (0, None, Next::On);
    for _ in 0..16 {
        let context = Context {
            work,
            inside,
            before: false,
        };
        let (led, end) = step_at(editor, text, at, context, args, term);
        next = led;
        match next {
            Next::Again(left) => work = Some(left),
            Next::On if end < text.len() => {
                work = None;
                at = end;
            }
            _ => break,
        }
    }
    next
}

/// Whether a step led on so.
fn leads(next: Next, cell: &str) -> bool {
    match next {
        Next::On => is(cell, "on"),
        Next::Leave => is(cell, "leave"),
        Next::Error(code) => are(code.letters().as_slice(), cell.as_bytes()),
        _ => false,
    }
}

/// Whether the arguments are these: none, or a number.
fn is_left(args: &mut Args, cell: &str) -> bool {
    match args.take() {
        Ok(Taken::None) => cell.is_empty(),
        Ok(Taken::One(n)) => i32::from_str_radix(cell, 10).unwrap_or(i32::MIN) == n,
        _ => false,
    }
}

/// The pages `a` and `b`.
fn pages(alloc: Global) -> Vec<u8>
    ensures { length result.items ≤ FILE_LIMIT }
{
    let bytes = joined(alloc, &[b"a\x0cb"]);
    if bytes.len() > FILE_LIMIT {
        return Vec::new(alloc);
    }
    bytes
}

/// Over an input of the pages `a` and `b`: a string that is run; tokens, the last of which gets a colon; how that ends, and the number that
/// is left; a string that is run after it, and what it types. The tokens are done in an iteration, but where a cell more says `outside`.
#[derive(Clone, Copy)]
struct Colons;

impl Rule for Colons {
    fn holds(&self, alloc: Global, row: &str) -> bool {
        let [before, tokens, end, left, after, typed, place, ..] = cells_of(row);
        let mut editor = Editor::new(pages(alloc));
        let (mut args, mut term) = (Args::new(), wide_screen(alloc));
        let _ = run(&mut editor, &bytes_of(alloc, before), 1000, &mut term);
        let inside = !is(place, "outside");
        let next = done(&mut editor, tokens.as_bytes(), inside, &mut args, &mut term);
        let held = leads(next, end) && is_left(&mut args, left);
        let _ = run(&mut editor, after.as_bytes(), 1000, &mut term);
        held && is_typed(&term, typed)
    }
}

const ROWS: &str = "
    // What comes to a register comes behind its text.
    ^UAab\x1bIcde\x1b => 0,2XA => on => => :GA => abcd
    ^UAab\x1bIc\nd\n\x1bJ => XA => on => => :GA => abc\n
    ^UAab\x1bIc\nd\n\x1bJ => 2XA => on => => :GA => abc\nd\n
    Icde\x1b => 1,3XA => on => => :GA => de
    7UA^UAab\x1bIc\x1b => 0,1XA => on => => :GAQA= => abc7\r\n
    ^UAab\x1b => ^UAcd\x1b => on => => :GA => abcd
    ^UAab\x1b => ^UA\x1b => on => => :GA => ab
    \x1b => ^UAcd\x1b => on => => :GA => cd
    ^UAab\x1b => 1^UAcd\x1b => ARG => 1 => :GA => ab
    ^UA[FULL]\x1b => ^UAab\x1b => on => => :QA= => 16777216\r\n
    ^UA[FULL]\x1b => ^UAabc\x1b => BIG => => :QA= => 16777214\r\n
    ^UA[FULL]\x1bIabc\x1b0J => XA => BIG => => :QA= => 16777214\r\n
    // The iteration is left where it would go on without the colon.
    \x1b => 1; => on
    \x1b => 0; => on
    \x1b => -1; => leave
    Iab\x1bJSa\x1b => ; => leave
    Iab\x1bJ:Sx\x1b => ; => on
    \x1b => ; => on
    \x1b => -1; => SNI => -1 => => => outside
    // Y tells whether there was a page.
    \x1b => Y => on => -1 => HT => a
    YHKYHK => Y => on => 0 => Z= => 0\r\n
    Y => Y => YCA => => HT => a
    \x1b => 1Y => ARG => 1
    // So does A where it has no number.
    \x1b => A => on => -1 => HT => a
    AA => A => on => 0 => HT => ab
    Iab\x1bJ => 1A => on => 98 => HT => ab
    // Of the pages that P turns the last one is told.
    \x1b => P => on => -1 => HT => a
    \x1b => 2P => on => -1 => HT => b
    \x1b => 3P => on => 0 => Z= => 0\r\n
    2P => P => on => 0 => Z= => 0\r\n
    \x1b => 0P => IPA => 0
    ";

#[test]
fn colons_end_as_they_mean(rt: HostRuntime) {
    all_hold(&rt, rt.alloc(), &Colons, ROWS);
}
