//! The program's command line.
ghost use Rattle.clap.specs.Words.{app_of, found_of, rows_of};
ghost use Rattle.std.specs.Prelude.{◌≡◌, ◌≤◌, ◌↔◌, IfErr, IfOk, IfSome, IsTrue, codes, false, map};
ghost use Rattle.std.specs.String.{string_bytes};
ghost use Rattle.teco_cli.specs.CommandLine.{IsCommandsFault, IsDepth, IsFaultOnceMade, IsFaultSaid, IsStepLimit, IsLine, IsLineBy, IsLineFault, IsMisfit, IsPageLength, IsTime, IsReadFault, teco_app};
ghost use Rattle.teco_cli.specs.Options.{HasLine, IsCommands, IsGiven, IsInPlace, SaysCommands, repeats_commands, suffix_of};
ghost use Rattle.teco_cli.specs.Values.{text_behind, texts_behind};
ghost use Rattle.teco_cli.specs.Conflict.{has_conflict};

use crate::{
    Assignment, CommandLine, LineFault, Program, are_given, command_of, faulty, flag_at, number_at,
    profile_at, refusal_of, text_at, text_given, texts_at, texts_given,
};
use assigning::assignments_in;
use backups::with_backups;
use clap::{ArgMatches, Command};
use conflict::conflict_in;
use joining::joined;
use repeating::repeated_in;
use std::alloc::Global;
use table::options;
use teco_core::{NoMemory, Profile};

/// The most seconds that a command string may be given.
pub const MOST_SECONDS: u64 = 1_000_000_000_000;

/// The most line ends that a page may be asked to end after.
pub const MOST_PAGE_LINES: u64 = 1_000_000_000;

/// What the help says of the commands, after the options.
const AFTER_HELP: &str =
    "Commands are read from standard input where no option gives them, and what they print goes to standard
output. In STRINGS, and in the files of --file, $ is ESC and ^J ends a line; line ends, margins and what
follows !! are for readers alone. Two ESC end a command string, which is then run; EX writes the output
and ends the run. Each INPUT is a run of its own; several need an option that gives the commands.";

/// The usage, which the help and each faulty line show.
const USAGE: &str = "teco [OPTIONS] <INPUT>...";

/// What is told of a line that gives commands more than once.
const MANY: &str =
    "only one of '--pages <STRINGS>', '--bytes <FILE>', and '--file <FILE>' or '--execute <STRINGS>' can be used";

/// Where the commands come from.
#[derive(Drop)]
pub enum Commands {
    /// Standard input, as they are.
    StandardInput,
    /// The sources that are in the files of these names, in their order, and then the source that is a word of the line.
    Sources(Vec<String>, Option<String>),
    /// A word that is a source too; its strings are run on every page.
    Pages(String),
    /// The file of this name, as they are.
    Bytes(String),
}

/// What the command line says.
#[derive(Drop)]
pub struct Line {
    /// The name of the input file.
    pub input: String,
    /// The names of the input files after it.
    pub more: Vec<String>,
    /// The name of the output file, if one is given.
    pub output: Option<String>,
    /// Where the commands come from.
    pub commands: Commands,
    /// The most steps that each command string may take, at most [`crate::MOST_STEPS`]; without it the driver decides.
    pub limit: Option<u64>,
    /// The most seconds that each command string may run, from 1 to [`MOST_SECONDS`]; without it none is broken off.
    pub seconds: Option<u64>,
    /// Whether the output is written over the input.
    pub in_place: bool,
    /// What follows the input's name in the name under which the old file is kept then; without it none is kept.
    pub backup: Option<String>,
    /// Whether an output takes its name before it outlasts a crash of the system.
    pub no_sync: bool,
    /// The name of the file that keeps the session, if one is given.
    pub session: Option<String>,
    /// Whether the commands are checked, and nothing is run.
    pub check: bool,
    /// Whether a star is shown where commands are wanted.
    pub prompt: bool,
    /// Whether each code that is shown is explained on standard error.
    pub explain: bool,
    /// Whether nothing is told on standard error of how a run ends.
    pub quiet: bool,
    /// The language of the commands.
    pub profile: Profile,
    /// What is put into registers before the first command string, in this order.
    pub values: Vec<Assignment>,
    /// The most command strings that are kept to be undone, from 1 to [`DEPTH_LIMIT`]; without it all are kept.
    pub undo: Option<u64>,
    /// The line ends after which a page ends, from 1 to [`MOST_PAGE_LINES`]; without it form feeds end pages.
    pub page_lines: Option<u64>,
}

/// What the help tells.
static PROGRAM: Program = Program {
    name: "teco",
    about: "TECO, a text editor whose command strings are programs, each of which can be undone",
    after_help: AFTER_HELP,
    usage: USAGE,
};

/// What the program is called, and what its help tells.
fn program() -> &'static Program
    ensures { result.now.name.now ≡ codes "teco" }
{
    &PROGRAM
}

/// The fault of a line of the program that is faulty, and why; or that memory was refused to tell it.
fn faulty_line(alloc: Global, why: &str) -> LineFault
    ensures { IsFaultSaid why.now result }
{
    match faulty(alloc, why, USAGE) {
        Ok(refusal) => LineFault::Refused(refusal),
        Err(NoMemory) => LineFault::NoMemory,
    }
}

/// Where the commands come from, by the texts that are given. A line with more than one place of them is faulty.
fn commands_of(
    alloc: Global,
    word: Option<&str>,
    files: Option<&[&str]>,
    pages: Option<&str>,
    bytes: Option<&str>,
) -> Result<Commands, LineFault>
    ensures commands { IfOk result (IsCommands (text_behind word.entry) (texts_behind files.entry)
        (text_behind pages.entry) (text_behind bytes.entry)) }
    ensures fault { IfErr result (IsCommandsFault (text_behind word.entry) (texts_behind files.entry)
        (text_behind pages.entry) (text_behind bytes.entry)) }
{
    let has_sources = word.is_some() || are_given(files);
    match (has_sources, pages, bytes) {
        (false, None, None) => Ok(Commands::StandardInput),
        (true, None, None) => Ok(Commands::Sources(
            texts_given(alloc, files)?,
            text_given(alloc, word)?,
        )),
        (false, Some(word), None) => Ok(Commands::Pages(String::from_str(alloc, word)?)),
        (false, None, Some(name)) => Ok(Commands::Bytes(String::from_str(alloc, name)?)),
        _ => Err(faulty_line(alloc, MANY)),
    }
}

/// Where the commands come from, by a parse.
fn commands_in<'a>(alloc: Global, matches: &ArgMatches<'a>) -> Result<Commands, LineFault>
    ensures commands { IfOk result (SaysCommands (rows_of (found_of matches.now))) }
    ensures once { IfOk result (λ _. repeats_commands (rows_of (found_of matches.now)) ≡ false) }
    ensures fault { IfErr result (IsReadFault (rows_of (found_of matches.now))) }
{
    if let Some(why) = repeated_in(matches) {
        return Err(faulty_line(alloc, why));
    }
    let word = matches.get_str("execute");
    let files = matches.get_strs("file");
    let pages = matches.get_str("pages");
    let bytes = matches.get_str("bytes");
    commands_of(alloc, word, files, pages, bytes)
}

/// Whether the output is written over the input, by a parse: it is if the old file is to be kept, too.
fn is_in_place<'a>(matches: &ArgMatches<'a>) -> bool
    ensures { IsTrue result ↔ IsInPlace (rows_of (found_of matches.now)) }
{
    flag_at(matches, "in-place") || matches.get_str("backup").is_some()
}

/// The line that a parse gives.
fn line_in<'a>(alloc: Global, matches: &ArgMatches<'a>) -> Result<Line, LineFault>
    requires given { IsGiven (rows_of (found_of matches.now)) }
    ensures line { IfOk result (HasLine (rows_of (found_of matches.now))) }
    ensures range { IfOk result (λ line. IfSome line.limit IsStepLimit × IfSome line.undo IsDepth) }
    ensures seconds { IfOk result (λ line. IfSome line.seconds IsTime) }
    ensures page_lines { IfOk result (λ line. IfSome line.page_lines IsPageLength) }
    ensures refused { IfErr result (IsReadFault (rows_of (found_of matches.now))) }
{
    let commands = commands_in(alloc, matches)?;
    let values = assignments_in(alloc, matches)?;
    let input = String::from_str(alloc, matches.get_str("input").unwrap())?;
    let more = texts_at(alloc, matches, "more")?;
    let output = text_at(alloc, matches, "output")?;
    let limit = number_at(matches, "limit");
    let seconds = number_at(matches, "seconds");
    let undo = number_at(matches, "undo");
    let page_lines = number_at(matches, "page-lines");
    let prompt = flag_at(matches, "prompt");
    let in_place = is_in_place(matches);
    let backup = text_at(alloc, matches, "backup")?;
    let no_sync = flag_at(matches, "no-sync");
    let session = text_at(alloc, matches, "session")?;
    let check = flag_at(matches, "check");
    let explain = flag_at(matches, "explain");
    let quiet = flag_at(matches, "quiet");
    let profile = profile_at(matches);
    Ok(Line {
        input,
        more,
        output,
        commands,
        values,
        limit,
        seconds,
        prompt,
        in_place,
        backup,
        no_sync,
        session,
        check,
        explain,
        quiet,
        profile,
        undo,
        page_lines,
    })
}

/// The line, if what it says goes together.
fn fitting(alloc: Global, line: Line) -> Result<Line, LineFault>
    ensures same { IfOk result (λ fit. fit ≡ line) }
    ensures fits { IfOk result (λ fit. has_conflict fit ≡ false) }
    ensures refused { IfErr result (IsMisfit line) }
{
    match conflict_in(&line) {
        None => Ok(line),
        Some(why) => Err(faulty_line(alloc, why)),
    }
}

/// The line that a parse gives, if what it says goes together.
fn fitting_line_in<'a>(alloc: Global, matches: &ArgMatches<'a>) -> Result<Line, LineFault>
    requires given { IsGiven (rows_of (found_of matches.now)) }
    ensures line { IfOk result (HasLine (rows_of (found_of matches.now))) }
    ensures range { IfOk result (λ line. IfSome line.limit IsStepLimit × IfSome line.undo IsDepth) }
    ensures seconds { IfOk result (λ line. IfSome line.seconds IsTime) }
    ensures page_lines { IfOk result (λ line. IfSome line.page_lines IsPageLength) }
    ensures fits { IfOk result (λ line. has_conflict line ≡ false) }
    ensures refused { IfErr result (IsReadFault (rows_of (found_of matches.now))) }
{
    let line = line_in(alloc, matches)?;
    fitting(alloc, line)
}

/// What the words say to the program's command.
fn line_by<'a>(alloc: Global, command: Command<'a>, words: &'a [String]) -> Result<Line, LineFault>
    requires command { app_of command ≡ teco_app }
    ensures line { IfOk result (IsLineBy (map string_bytes words.now)) }
    ensures range { IfOk result (λ line. IfSome line.limit IsStepLimit × IfSome line.undo IsDepth) }
    ensures seconds { IfOk result (λ line. IfSome line.seconds IsTime) }
    ensures page_lines { IfOk result (λ line. IfSome line.page_lines IsPageLength) }
    ensures refused { IfErr result (IsFaultOnceMade (map string_bytes words.now)) }
{
    match command.try_get_matches_from(words) {
        Ok(matches) => fitting_line_in(alloc, &matches),
        Err(error) => Err(LineFault::Refused(refusal_of(alloc, &error))),
    }
}

/// What the words say, the program's name first: `teco [OPTIONS] INPUT...`.
pub fn line_of(alloc: Global, words: Vec<String>) -> Result<Line, LineFault>
    ensures line { IfOk result (IsLine (map string_bytes words.items)) }
    ensures range { IfOk result (λ line. IfSome line.limit IsStepLimit × IfSome line.undo IsDepth) }
    ensures seconds { IfOk result (λ line. IfSome line.seconds IsTime) }
    ensures page_lines { IfOk result (λ line. IfSome line.page_lines IsPageLength) }
    ensures refused { IfErr result (IsLineFault (map string_bytes words.items)) }
{
    let made = with_backups(alloc, joined(alloc, words)?)?;
    let command = command_of(alloc, program(), options())?;
    line_by(alloc, command, made.as_slice())
}

/// What follows a file's name in the name under which its old bytes are kept, if the line keeps them.
pub fn suffix_of(line: &Line) -> Option<&str>
    ensures { text_behind result ≡ suffix_of line.now }
{
    match &line.backup {
        Some(suffix) if line.in_place => Some(suffix.as_str()),
        _ => None,
    }
}

impl CommandLine for Line {
    ghost use Rattle.teco_cli.specs.CommandLine.{IsFit};

    ghost usage = { codes "teco [OPTIONS] <INPUT>..." };

    ghost says = { IsLine };

    ghost lacks = { IsLineFault };

    ghost fits = { IsFit };

    fn usage() -> &'static str {
        USAGE
    }

    fn of_words(alloc: Global, words: Vec<String>) -> Result<Line, LineFault> {
        line_of(alloc, words)
    }
}

mod assigning;
mod backups;
mod conflict;
mod joining;
mod pages;
mod repeating;
mod table;

pub use pages::commands_on_pages;
