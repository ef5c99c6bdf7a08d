//! The suffix of `--in-place`, as the parser reads it.
ghost use Rattle.std.specs.Prelude.{◌≡◌, IfOk, map, option_map};
ghost use Rattle.std.specs.String.{string_bytes};
ghost use Rattle.teco_cli.specs.Backups.{backup_in as asked_in, with_backups as words_with_backups};

use std::alloc::Global;
use teco_core::NoMemory;

/// The option of the parser for a word that asks to keep the old file: `--in-place=SUFFIX`, or `-i.SUFFIX` with the dot.
fn backup_in(alloc: Global, word: &str) -> Result<Option<String>, NoMemory>
    ensures { IfOk result (λ option. option_map string_bytes option ≡ asked_in word.now) }
{
    if let Some(suffix) = word.strip_prefix("--in-place=") {
        return Ok(Some(format!(in alloc; "--backup={suffix}")?));
    }
    if let Some(suffix) = word.strip_prefix("-i.") {
        return Ok(Some(format!(in alloc; "--backup=.{suffix}")?));
    }
    Ok(None)
}

/// The words as the parser reads them, the program's name first. It has no option whose value may be left out, so `--in-place` with a suffix
/// is `--backup`. Any other word stays as it is.
pub(crate) fn with_backups(alloc: Global, words: Vec<String>) -> Result<Vec<String>, NoMemory>
    ensures { IfOk result (λ made. map string_bytes made.items ≡ words_with_backups (map string_bytes words.items)) }
{
    let mut made = words;
    let mut at = 1;
    'words: while at < made.len() {
        if made[at].as_str() == "--" {
            break;
        }
        if let Some(option) = backup_in(alloc, made[at].as_str())? {
            made[at] = option;
        }
        at += 1;
    }
    Ok(made)
}
