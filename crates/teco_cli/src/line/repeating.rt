//! Commands that a line gives again.
ghost use Rattle.clap.specs.Words.{found_of, rows_of};
ghost use Rattle.std.specs.Prelude.{◌≡◌, is_some, length, nat_lt};
ghost use Rattle.teco_cli.specs.Options.{repeats_commands, option_texts};

use crate::are_many;
use clap::ArgMatches;

/// Whether a parse gives more than one text for an option.
fn is_repeated<'a>(matches: &ArgMatches<'a>, id: &str) -> bool
    ensures { result ≡ nat_lt 1 (length (option_texts id.now (rows_of (found_of matches.now)))) }
{
    are_many(matches.get_strs(id))
}

/// What is told of a line that gives commands by one option more than once, if it does.
pub(crate) fn repeated_in<'a>(matches: &ArgMatches<'a>) -> Option<&'static str>
    ensures { is_some result ≡ repeats_commands (rows_of (found_of matches.now)) }
{
    if is_repeated(matches, "execute") {
        Some("the argument '--execute <STRINGS>' cannot be used multiple times")
    } else if is_repeated(matches, "pages") {
        Some("the argument '--pages <STRINGS>' cannot be used multiple times")
    } else if is_repeated(matches, "bytes") {
        Some("the argument '--bytes <FILE>' cannot be used multiple times")
    } else {
        None
    }
}
