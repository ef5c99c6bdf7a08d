//! The program's command line.
ghost use Rattle.clap.specs.Words.{found_of, one_of, rows_of};
ghost use Rattle.std.specs.Prelude.{◌≡◌, ◌≤◌, IfErr, IfOk, None, OnOk, codes, map};
ghost use Rattle.std.specs.String.{string_bytes};
ghost use Rattle.teco_cli.specs.OptionTable.{rule_by};
ghost use Rattle.teco_cli.specs.Values.{text_behind};
ghost use Rattle.teco_debugger.specs.CommandLine.{IsLimit, IsMisgiven, IsNumberIn, IsToldFaulty, LacksLine, LineHas, WordsSay, WordsSayNone, debug_rules, fault_in, says_wide, origin_of};

use crate::arguments::{Texts, texts_in};
use clap::ArgMatches;
use std::alloc::Global;
use teco_cli::{
    CommandLine, LineFault, MOST_STEPS, OptionRow, Program, Takes, faulty, parsed, profile_at,
};
use teco_core::{NoMemory, Profile};

/// The steps that the string is given if the line says nothing.
const STEPS: u64 = 1_000_000;

/// The usage, which the help and each faulty line show.
const USAGE: &str = "teco-debug [OPTIONS] [INPUT]";

/// What is told of a line that gives no command string.
const NONE: &str =
    "one of '--execute <STRINGS>', '--file <FILE>', '--bytes <FILE>' and '--session <FILE>' is needed";

/// What is told of one that gives it as sources and as bytes.
const MANY: &str =
    "the argument '--bytes <FILE>' cannot be used with '--file <FILE>' or '--execute <STRINGS>'";

/// What is told of one that gives it as a string of a session, and more.
const BESIDE: &str =
    "the argument '--session <FILE>' cannot be used with '--execute <STRINGS>', '--file <FILE>', '--bytes <FILE>', '--wide' or INPUT";

/// What is told of one that gives the number of a string, and no session.
const ALONE: &str = "the argument '--string <N>' needs '--session <FILE>'";

/// Where the command string comes from.
#[derive(Drop)]
pub enum Origin {
    /// The sources that are in the files of these names, in their order, and then the source that is a word of the line.
    Sources(Vec<String>, Option<String>),
    /// The file of this name, as it is.
    Bytes(String),
    /// The session that the file of this name keeps, and the number of the string, from 1 on, if that is given.
    Session(String, Option<u64>),
}

/// What the command line says.
#[derive(Drop)]
pub struct DebuggerLine {
    /// The most steps of the string, at most [`MOST_STEPS`].
    pub limit: u64,
    /// The language of the string, if it is of no session.
    pub profile: Profile,
    /// Where the string comes from.
    pub origin: Origin,
    /// The file of the input, if one is given.
    pub input: Option<String>,
}

/// What the help tells.
static PROGRAM: Program = Program {
    name: "teco-debug",
    about: "Walks over the steps of a TECO command string, forward and back",
    after_help: "Commands are read from standard input, a line each; help lists them.",
    usage: USAGE,
};

/// Every option, in the order of the help, and then the input.
static ARGUMENTS: [OptionRow; 8] = [
    OptionRow {
        name: "execute",
        short: Some('e'),
        takes: Takes::Text,
        value: "STRINGS",
        help: "The command string: $ is ESC, ^J a line end, and !! begins a comment",
    },
    OptionRow {
        name: "file",
        short: Some('f'),
        takes: Takes::Texts,
        value: "FILE",
        help: "A file of the same kind; several are joined, with STRINGS as the last",
    },
    OptionRow {
        name: "bytes",
        short: Some('b'),
        takes: Takes::Text,
        value: "FILE",
        help: "The file that the command string is read from, as it is",
    },
    OptionRow {
        name: "session",
        short: None,
        takes: Takes::Text,
        value: "FILE",
        help: "The file of a session, as teco --session keeps it, for one of its strings",
    },
    OptionRow {
        name: "string",
        short: None,
        takes: Takes::Number(1, MOST_STEPS),
        value: "N",
        help: "The number of that string, from 1; without it the last that is not undone",
    },
    OptionRow {
        name: "limit",
        short: None,
        takes: Takes::Number(0, MOST_STEPS),
        value: "N",
        help: "The most steps of the string, at most 1000000000000; 1000000 without it",
    },
    OptionRow {
        name: "wide",
        short: None,
        takes: Takes::Nothing,
        value: "",
        help: "Reads the string in the wider language of old macros",
    },
    OptionRow {
        name: "input",
        short: None,
        takes: Takes::MaybeOperand,
        value: "INPUT",
        help: "The file that the string edits; it is only read",
    },
];

/// What the program is called, and what its help tells.
fn program() -> &'static Program
    ensures { result.now.name.now ≡ codes "teco-debug" }
{
    &PROGRAM
}

/// The table.
fn arguments() -> &'static [OptionRow]
    ensures { map rule_by result.now ≡ debug_rules }
{
    &ARGUMENTS
}

/// The fault of a line that is faulty, and why; or that memory was refused to tell it.
fn faulty_line(alloc: Global, why: &str) -> LineFault
    ensures { IsToldFaulty why.now result }
{
    match faulty(alloc, why, USAGE) {
        Ok(refusal) => LineFault::Refused(refusal),
        Err(NoMemory) => LineFault::NoMemory,
    }
}

/// Whether `--wide` is given.
fn says_wide(profile: Profile) -> bool
    ensures { result ≡ says_wide profile }
{
    matches!(profile, Profile::Wide)
}

/// Why a line is faulty that asks for a language and gives such texts and the number of a string, if it is.
fn fault_in(profile: Profile, texts: &Texts, number: Option<u64>) -> Option<&'static str>
    ensures { text_behind result ≡ fault_in profile texts.now number }
{
    let has_sources = texts.word.is_some() || !texts.files.is_empty();
    let has_bytes = texts.bytes.is_some();
    if texts.session.is_some() {
        let has_string = has_sources || has_bytes;
        let has_more = has_string || texts.input.is_some() || says_wide(profile);
        return if has_more { Some(BESIDE) } else { None };
    }
    if has_sources && has_bytes {
        Some(MANY)
    } else if !has_sources && !has_bytes {
        Some(NONE)
    } else if number.is_some() {
        Some(ALONE)
    } else {
        None
    }
}

/// Where the string comes from, by the texts that are given: a session, the bytes of a file, or sources.
fn origin_of(
    session: Option<String>,
    bytes: Option<String>,
    sources: (Vec<String>, Option<String>),
    number: Option<u64>,
) -> Origin
    ensures { result ≡ origin_of session bytes sources.0 sources.1 number }
{
    match (session, bytes) {
        (Some(name), _) => Origin::Session(name, number),
        (None, Some(name)) => Origin::Bytes(name),
        (None, None) => Origin::Sources(sources.0, sources.1),
    }
}

/// The most steps of the string.
fn limit_at(matches: &ArgMatches) -> u64
    ensures limit { IsLimit (one_of (codes "limit") (rows_of (found_of matches.now))) result }
    ensures range { result ≤ 1000000000000 }
{
    matches
        .get_one::<u64>("limit")
        .unwrap_or(STEPS)
        .min(MOST_STEPS)
}

/// The number of the string, if it is given.
fn number_in(matches: &ArgMatches) -> Option<u64>
    ensures { IsNumberIn (one_of (codes "string") (rows_of (found_of matches.now))) result }
{
    matches.get_one::<u64>("string")
}

/// The line with this language, these texts, this number of a string and this limit.
fn line_with(
    alloc: Global,
    profile: Profile,
    texts: Texts,
    number: Option<u64>,
    limit: u64,
) -> Result<DebuggerLine, LineFault>
    ensures limit { IfOk result (λ line. line.limit ≡ limit) }
    ensures profile { IfOk result (λ line. line.profile ≡ profile) }
    ensures fits { OnOk result (fault_in profile texts number ≡ None) }
    ensures origin { IfOk result (λ line. line.origin ≡ origin_of texts.session texts.bytes texts.files texts.word number) }
    ensures input { IfOk result (λ line. line.input ≡ texts.input) }
    ensures refused { IfErr result (IsMisgiven profile texts number) }
{
    if let Some(why) = fault_in(profile, &texts, number) {
        return Err(faulty_line(alloc, why));
    }
    Ok(DebuggerLine {
        limit,
        profile,
        origin: origin_of(
            texts.session,
            texts.bytes,
            (texts.files, texts.word),
            number,
        ),
        input: texts.input,
    })
}

/// The line that a parse gives.
fn line_in<'a>(alloc: Global, matches: &ArgMatches<'a>) -> Result<DebuggerLine, LineFault>
    ensures line { IfOk result (LineHas (rows_of (found_of matches.now))) }
    ensures range { IfOk result (λ line. line.limit ≤ 1000000000000) }
    ensures refused { IfErr result (LacksLine (rows_of (found_of matches.now))) }
{
    let profile = profile_at(matches);
    match texts_in(alloc, matches) {
        Ok(texts) => line_with(alloc, profile, texts, number_in(matches), limit_at(matches)),
        Err(NoMemory) => Err(LineFault::NoMemory),
    }
}

/// What the words say, the program's name first: `teco-debug [OPTIONS] [INPUT]`.
fn line_of(alloc: Global, words: &[String]) -> Result<DebuggerLine, LineFault>
    ensures line { IfOk result (WordsSay (map string_bytes words.now)) }
    ensures range { IfOk result (λ line. line.limit ≤ 1000000000000) }
    ensures refused { IfErr result (WordsSayNone (map string_bytes words.now)) }
{
    match parsed(alloc, program(), arguments(), words) {
        Ok(matches) => line_in(alloc, &matches),
        Err(fault) => Err(fault),
    }
}

impl CommandLine for DebuggerLine {
    ghost usage = { codes "teco-debug [OPTIONS] [INPUT]" };

    ghost says = { WordsSay };

    ghost lacks = { WordsSayNone };

    ghost fits = { λ line. line.limit ≤ 1000000000000 };

    fn usage() -> &'static str {
        USAGE
    }

    fn of_words(alloc: Global, words: Vec<String>) -> Result<DebuggerLine, LineFault> {
        line_of(alloc, words.as_slice())
    }
}
