//! What is said in a line.
ghost use Rattle.std.specs.Prelude.{◌≡◌, ◌++◌, OnOk};
ghost use Rattle.std.specs.String.{string_bytes};
ghost use Rattle.teco_debugger.specs.Commands.{answer_line, far_line, words_without};
ghost use Rattle.teco_messages.specs.Spelling.{spelled};

use crate::Way;
use std::fmt::Write;
use teco_core::NoMemory;
use teco_messages::spell;

/// Shows a line of words.
pub fn show_words(out: &mut String, words: &str) -> Result<(), NoMemory>
    ensures { OnOk result (string_bytes out.new ≡ string_bytes out.old ++ answer_line words.now) }
{
    out.push_str(words)?;
    out.push_str("\n")
}

/// Says that no step before this one is at a place, and that it takes too long to look further.
pub fn show_far(out: &mut String, n: u64) -> Result<(), NoMemory>
    ensures { OnOk result (string_bytes out.new ≡ string_bytes out.old ++ far_line n) }
{
    writeln!(
        out,
        "no step before step {n} is there, and it takes too long to look further"
    )
}

/// Shows what was typed, in a line.
pub fn show_typed(out: &mut String, typed: &[u8]) -> Result<(), NoMemory>
    ensures { OnOk result (string_bytes out.new ≡ string_bytes out.old ++ answer_line (spelled typed.now)) }
{
    spell(out, typed)?;
    out.push_str("\n")
}

/// What is said if what is watched is as here at all those steps.
pub fn words_without(way: Way) -> &'static str
    ensures { result.now ≡ words_without way }
{
    match way {
        Way::On => "no step after this one changes it",
        Way::Back => "no step before this one changed it",
    }
}
