//! The words as the parser reads them.
ghost use Rattle.std.specs.List.{list_any};
ghost use Rattle.std.specs.Prelude.{[], ◌∷◌, ◌++◌, ◌≡◌, ◌||◌, IfOk, Some, codes, map};
ghost use Rattle.std.specs.Str.{bytes_eq};
ghost use Rattle.std.specs.String.{string_bytes};
ghost use Rattle.teco_cli.specs.Joining.{begins_with_hyphen as begins, joined as joined_words, is_long as has_name, is_short as has_letter, is_joined as makes_one, wants_value, with_value as one_word};
ghost use Rattle.teco_cli.specs.Options.{option_rules};
ghost use Rattle.teco_cli.specs.OptionTable.{rule_by};

use super::table::options;
use crate::{OptionRow, Takes};
use std::alloc::Global;
use teco_core::NoMemory;

/// Whether the word is this name after two hyphens, and nothing else.
fn is_long(word: &str, name: &str) -> bool
    ensures { result ≡ bytes_eq word.now (codes "--" ++ name.now) }
{
    match word.as_bytes().strip_prefix(b"--") {
        Some(rest) => rest == name.as_bytes(),
        None => false,
    }
}

/// Whether the word is this letter after a hyphen, and nothing else.
fn is_short(word: &str, letter: char) -> bool
    ensures { result ≡ bytes_eq word.now (codes "-" ++ (letter ∷ [])) }
{
    let bytes = word.as_bytes();
    bytes.len() == 2 && bytes[0] == b'-' && bytes[1] as char == letter
}

/// Whether the word is this letter after a hyphen, where there is one.
fn is_letter(word: &str, short: Option<char>) -> bool
    ensures { result ≡ has_letter word.now short }
{
    match short {
        Some(letter) => is_short(word, letter),
        None => false,
    }
}

/// Whether the word is the name of this option or its letter.
fn is_name_of(word: &str, row: &OptionRow) -> bool
    ensures { result ≡ (has_name word.now (Some row.now.name.now) || has_letter word.now row.now.short) }
{
    is_long(word, row.name) || is_letter(word, row.short)
}

/// Whether the word is the name of this option or its letter, and the option takes a value.
fn is_option(word: &str, row: &OptionRow) -> bool
    ensures { result ≡ wants_value word.now (rule_by row.now) }
{
    match row.takes {
        Takes::Nothing | Takes::Operand | Takes::MaybeOperand | Takes::Operands => false,
        Takes::Text | Takes::Texts | Takes::Number(..) => is_name_of(word, row),
    }
}

/// Whether the word is the name of one of these options or its letter, and that takes a value.
fn one_is_option(word: &str, rows: &[OptionRow]) -> bool
    ensures { result ≡ list_any (λ row. wants_value word.now (rule_by row)) rows.now }
{
    rows.iter().any(|row| is_option(word, row))
}

/// Whether the word is an option that takes a value.
fn is_awaiting(word: &str) -> bool
    ensures { result ≡ list_any (wants_value word.now) option_rules }
{
    one_is_option(word, options())
}

fn begins_with_hyphen(word: &str) -> bool
    ensures { result ≡ begins word.now }
{
    match word.as_bytes() {
        [first, ..] => *first == b'-',
        [] => false,
    }
}

/// Whether the word is an option that takes a value, and the next word a value that the parser would take for an option.
fn is_joined(word: &str, next: &str) -> bool
    ensures { result ≡ makes_one word.now next.now }
{
    is_awaiting(word) && begins_with_hyphen(next)
}

/// The word of an option and its value as one word.
fn with_value(alloc: Global, word: &str, value: &str) -> Result<String, NoMemory>
    ensures { IfOk result (λ made. string_bytes made ≡ one_word word.now value.now) }
{
    let between = if word.len() == 2 { "" } else { "=" };
    format!(in alloc; "{word}{between}{value}")
}

/// The words as the parser reads them, the program's name first: each value in the word of its option if it begins with a hyphen. Any
/// other word stays as it is, and is not copied.
pub(crate) fn joined(alloc: Global, words: Vec<String>) -> Result<Vec<String>, NoMemory>
    ensures { IfOk result (λ made. map string_bytes made.items ≡ joined_words (map string_bytes words.items)) }
{
    let mut made = words;
    let mut at = 1;
    'words: while at + 1 < made.len() {
        if made[at].as_str() == "--" {
            break;
        }
        if is_joined(made[at].as_str(), made[at + 1].as_str()) {
            let one = with_value(alloc, made[at].as_str(), made[at + 1].as_str())?;
            let _ = made.remove(at + 1);
            made[at] = one;
        }
        at += 1;
    }
    Ok(made)
}
