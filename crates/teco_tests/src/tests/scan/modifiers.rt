//! Modifiers before each command.
use crate::tests::bytes::{has, joined};
use crate::tests::commands::COMMANDS;
use crate::tests::rows::{Rule, all_hold, cells_of};
use std::alloc::Global;
use std::test::*;
use teco_core::{Code, Profile};
use teco_scan::{Found, token_at};

/// The modifiers that are tried before each command, and how a row has them.
static MODIFIERS: [(&str, &str); 4] = [(":", "[:]"), ("::", "[::]"), ("@", "[@]"), (":@", "[:@]")];

/// Whether a text begins with a token where that is wanted, and else is ILL.
fn is_read(alloc: Global, profile: Profile, modifiers: &str, command: &str, wanted: bool) -> bool {
    let text = joined(alloc, &[modifiers.as_bytes(), command.as_bytes()]);
    match token_at(profile, &text, 0) {
        Found::Token(_) => wanted,
        Found::Fault(Code::Ill) => !wanted,
        _ => false,
    }
}

#[derive(Clone, Copy)]
struct Admits(Profile);

impl Rule for Admits {
    /// A command admits these modifiers, and no others of the four.
    fn holds(&self, alloc: Global, row: &str) -> bool {
        let [command, admitted, ..] = cells_of(row);
        let mut held = true;
        for (modifiers, cell) in &MODIFIERS {
            held = is_read(alloc, self.0, modifiers, command, has(admitted, cell)) && held;
        }
        held
    }
}

/// The commands that Wide has, or that admit others there.
const WIDE: &str = "
    A => [:]
    Y => [:]
    P => [:]
    ; => [:]
    Xa => [:]
    ^Ua/b\x1b/ => [:][@][:@]
    === => [:]
    ^Q =>
    \"C =>
    FS/a\x1b/b\x1b/ => [:][::][@][:@]
    FD/a\x1b/ => [:][@][:@]
    FK/a\x1b/ => [:][@][:@]
    ";

/// They come in any order.
pub(crate) const ROWS: &str = "
    Iaa\x1bJ:@S/a/=@:S/a/= => -1\r\n-1\r\n => => 6
    Iaa\x1bJ@::S/a/=:@:S/a/=::@S/a/= => -1\r\n-1\r\n0\r\n => => 8
    Iaa\x1bJ:@FS/a/b/=HT => -1\r\nba => => 6
    @^Ua/x/@I/y/:Ga@^A/z/ => xz => => 4
    @^Ua/b\x1b/:Qa=@O/x/1=!x!2= => 2\r\n2\r\n => => 6
    @@I/a/ => => ILL => 0
    :::S\x1b => => ILL => 0
    @:@S/a/ => => ILL => 0
    : S\x1b => => ILL => 0
    @ I/a/ => => ILL => 0
    : => => UTC => 0
    @ => => UTC => 0
    @: => => UTC => 0
    :: => => UTC => 0
    ::: => => ILL => 0
    @@ => => ILL => 0
    :\x1b => => ILL => 0
    @::FS/a/b/ => => ILL => 0
    @::== => => ILL => 0
    ";

#[test]
fn commands_admit_their_modifiers_alone(rt: HostRuntime) {
    all_hold(&rt, rt.alloc(), &Admits(Profile::Named), COMMANDS);
    all_hold(&rt, rt.alloc(), &Admits(Profile::Wide), WIDE);
}
