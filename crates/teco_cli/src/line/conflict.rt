//! What a line can't say together, though the parser takes it.
ghost use Rattle.std.specs.Prelude.{◌≡◌, is_some};
ghost use Rattle.std.specs.List.{list_any};
ghost use Rattle.std.specs.String.{string_bytes};
ghost use Rattle.teco_cli.specs.Conflict.{are_awaited as awaited, are_on_pages as on_pages, are_on_standard_input as on_standard_input, has_conflict, has_more as many, has_slash as has_a_slash, has_wrong_session as wrong_session, is_edited as edited, is_unfit_for_session as unfit_for_session, has_standard_input as on_a_stream, is_suffix as may_follow, keeps_under_no_name as under_no_name};
ghost use Rattle.teco_cli.specs.StreamNames.{is_standard_input as names_standard_input};

use super::{Commands, Line};
use crate::is_standard_input;

/// Whether no option gives the commands.
fn are_awaited(commands: &Commands) -> bool
    ensures { result ≡ awaited commands.now }
{
    matches!(commands, Commands::StandardInput)
}

/// Whether the commands are on standard input.
fn are_on_standard_input(commands: &Commands) -> bool
    ensures { result ≡ on_standard_input commands.now }
{
    match commands {
        Commands::StandardInput => true,
        Commands::Sources(names, _) => one_is_standard_input(names),
        Commands::Pages(_) => false,
        Commands::Bytes(name) => is_standard_input(name.as_str()),
    }
}

/// Whether one of the names is standard input's.
fn one_is_standard_input(names: &[String]) -> bool
    ensures { result ≡ list_any (λ name. names_standard_input (string_bytes name)) names.now }
{
    names.iter().any(|name| is_standard_input(name.as_str()))
}

/// Whether one INPUT or more is standard input.
fn has_standard_input(line: &Line) -> bool
    ensures { result ≡ on_a_stream line.now }
{
    is_standard_input(line.input.as_str()) || one_is_standard_input(&line.more)
}

fn has_slash(text: &[u8]) -> bool
    ensures { result ≡ has_a_slash text.now }
{
    text.iter().any(|byte| *byte == b'/')
}

/// Whether this may follow a file's name in the name of another of the same folder.
fn is_suffix(text: &str) -> bool
    ensures { result ≡ may_follow text.now }
{
    !text.is_empty() && !has_slash(text.as_bytes())
}

/// Whether the old file is to be kept, and what is to follow its name can't.
fn keeps_under_no_name(line: &Line) -> bool
    ensures { result ≡ under_no_name line.now }
{
    match &line.backup {
        Some(suffix) => !is_suffix(suffix.as_str()),
        None => false,
    }
}

/// Whether its strings are run on every page.
fn are_on_pages(commands: &Commands) -> bool
    ensures { result ≡ on_pages commands.now }
{
    matches!(commands, Commands::Pages(_))
}

/// Whether the line has no single INPUT as it is read, or runs no commands as they are.
fn is_unfit_for_session(line: &Line) -> bool
    ensures { result ≡ unfit_for_session line.now }
{
    line.check || !line.more.is_empty() || are_on_pages(&line.commands) || !line.values.is_empty()
}

/// Whether this is the input, or where the output goes.
fn is_edited(line: &Line, file: &str) -> bool
    ensures { result ≡ edited line.now file.now }
{
    let is_output = match &line.output {
        Some(output) => output.as_str() == file,
        None => false,
    };
    line.input.as_str() == file || is_output
}

/// What is told of a line whose session can't be kept where it says, if it can't.
fn session_conflict_in(line: &Line) -> Option<&'static str>
    ensures { is_some result ≡ wrong_session line.now }
{
    match &line.session {
        Some(_) if is_unfit_for_session(line) => Some(
            "the argument '--session <FILE>' cannot be used with '--check', '--pages <STRINGS>', '--assign <A=TEXT>' or more than one INPUT",
        ),
        Some(file) if is_edited(line, file.as_str()) => {
            Some("the FILE of '--session <FILE>' cannot be the INPUT or the output")
        }
        _ => None,
    }
}

/// What is told of a line with a conflict, if it has one.
pub(crate) fn conflict_in(line: &Line) -> Option<&'static str>
    ensures { is_some result ≡ has_conflict line.now }
{
    let has_more = !line.more.is_empty();
    let has_standard_input = has_standard_input(line);
    if line.output.is_some() && line.in_place {
        Some("the argument '--output <FILE>' cannot be used with '--in-place'")
    } else if line.output.is_some() && has_more {
        Some("the argument '--output <FILE>' cannot be used with more than one INPUT")
    } else if are_awaited(&line.commands) && has_more {
        Some(
            "more than one INPUT needs commands from '--execute <STRINGS>', '--pages <STRINGS>', '--file <FILE>' or '--bytes <FILE>'",
        )
    } else if are_on_standard_input(&line.commands) && has_standard_input {
        Some("standard input cannot be both the commands and an INPUT")
    } else if line.in_place && has_standard_input {
        Some("the argument '--in-place' cannot be used with an INPUT that is standard input")
    } else if line.check && are_awaited(&line.commands) {
        Some(
            "the argument '--check' needs commands from '--execute <STRINGS>', '--pages <STRINGS>', '--file <FILE>' or '--bytes <FILE>'",
        )
    } else if keeps_under_no_name(line) {
        Some("the suffix of '--in-place=<SUFFIX>' cannot be empty or have a '/'")
    } else {
        session_conflict_in(line)
    }
}
