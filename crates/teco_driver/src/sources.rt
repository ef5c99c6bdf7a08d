//! The commands of a line that are had at once: those of its sources, or the bytes of a file.
ghost use Rattle.std.specs.Prelude.{◌≡◌, ◌++◌, ℕ, List, IfErr, IfOk, OnOk, Ok, codes, false};
ghost use Rattle.std.specs.String.{string_bytes};
ghost use Rattle.teco_cli.specs.CommandLine.{on_pages};
ghost use Rattle.teco_cli.specs.Conflict.{are_awaited};
ghost use Rattle.teco_cli.specs.StreamNames.{is_standard_input};
ghost use Rattle.teco_fs.specs.Seen.{KeepsDisk, disk_seen};
ghost use Rattle.teco_driver.specs.Sources.{AreCommandsIn, Declines, FailsToGive, IsFaultOf, IsGivenBy, IsUnread, IsWholeOf, LacksCommands, LacksFiles, fault_by, source_name, status_without, text_without};
ghost use Rattle.teco_source.specs.Source.{commands_of};

use crate::advice::{bytes_advice, has_escape};
use crate::concluding::no_memory;
use crate::reading::{input_of_file, input_of_stream};
use std::alloc::Global;
use teco_cli::{Commands, commands_on_pages, is_standard_input};
use teco_core::NoMemory;
use teco_fs::{Disk, Reason};
use teco_io::{Source, Terminal};
use teco_messages::{Spot, spot_of};
use teco_serve::{Fate, said_of, said_why};
use teco_source::{ReaderFault, commands};

/// Why the commands of a line are not had.
#[derive(Clone, Copy)]
pub enum CommandsFault {
    /// Memory was refused for them.
    Memory,
    /// The file of this number can't be read, of those that the line names, for this reason.
    Unread(usize, Reason),
    /// The file of this number has more bytes than it may have.
    TooLarge(usize),
    /// The source of this number can't be read, for this caret.
    Caret(usize, WrongCaret),
}

/// A caret of a source that stands before what it cannot stand before.
#[derive(Clone, Copy)]
pub struct WrongCaret {
    pub spot: Spot,
    /// Whether the source has an ESC.
    pub has_escape: bool,
}

impl From<NoMemory> for CommandsFault {
    ghost use Rattle.teco_driver.specs.declared.sources.CommandsFault.TheVariants.{Memory};

    ghost from_gives = { λ _ fault. fault ≡ Memory };

    fn from(_: NoMemory) -> CommandsFault {
        CommandsFault::Memory
    }
}

/// A source as it was read: its number among those of the line, and where its commands end among all.
#[derive(Drop)]
pub struct ReadSource {
    pub at: usize,
    pub source: Vec<u8>,
    pub to: usize,
}

/// The sources of a line, if they are kept once their commands are had.
#[derive(Drop)]
pub struct ReadSources {
    keeps: bool,
    list: Vec<ReadSource>,
}

impl ReadSources {
    /// Sources of which none is kept.
    pub fn unkept(alloc: Global) -> Self {
        Self {
            keeps: false,
            list: Vec::new(alloc),
        }
    }

    /// Sources that are kept.
    pub fn kept(alloc: Global) -> Self {
        Self {
            keeps: true,
            list: Vec::new(alloc),
        }
    }

    /// Those that are kept, in order.
    pub fn list(&self) -> &[ReadSource]
        ensures { result.now ≡ self.now.list.items }
    {
        self.list.as_slice()
    }

    /// Puts a source after the others, if they are kept.
    fn keep(&mut self, at: usize, source: Vec<u8>, to: usize) -> Result<(), NoMemory> {
        if self.keeps {
            self.list.push(ReadSource { at, source, to })?;
        }
        Ok(())
    }

    /// The same of a word.
    fn keep_word(
        &mut self,
        alloc: Global,
        at: usize,
        word: &str,
        to: usize,
    ) -> Result<(), NoMemory> {
        if !self.keeps {
            return Ok(());
        }
        let source = Vec::from_slice(alloc, word.as_bytes())?;
        self.keep(at, source, to)
    }
}

/// The commands of a source, which has this number among those of the line.
fn commands_in(alloc: Global, source: &[u8], at: usize) -> Result<Vec<u8>, CommandsFault>
    ensures read { IfOk result (λ strings. commands_of source.now ≡ Ok strings.items) }
    ensures fault { IfErr result (IsFaultOf source.now at) }
{
    match commands(alloc, source) {
        Ok(strings) => Ok(strings),
        Err(ReaderFault::Memory) => Err(CommandsFault::Memory),
        Err(ReaderFault::Caret(place)) => {
            let spot = spot_of(source, place);
            let has_escape = has_escape(source);
            Err(CommandsFault::Caret(at, WrongCaret { spot, has_escape }))
        }
    }
}

/// Why a file of commands is not had, which has this number, if a run over it would have this fate.
fn fault_by(at: usize, fate: Fate) -> CommandsFault
    ensures { result ≡ fault_by at fate }
{
    match fate {
        Fate::NoInput(reason) => CommandsFault::Unread(at, reason),
        Fate::LargeInput => CommandsFault::TooLarge(at),
        _ => CommandsFault::Memory,
    }
}

/// All the bytes of a file of commands, or the fate of a run over it. A name of standard input is that.
fn whole_of<S: Source, D: Disk>(
    alloc: Global,
    name: &str,
    stream: &mut S,
    disk: &mut D,
) -> Result<Vec<u8>, Fate>
    ensures whole { IfOk result (λ bytes. IsWholeOf (is_standard_input name.now)
        S.Source (D.seen disk.old).files name.now
        stream.old stream.new bytes.items) }
    ensures fails { let seen = disk_seen D.Disk D.Input.Source in
        IfErr result (FailsToGive (is_standard_input name.now)
        S.Source (seen disk.old) (seen disk.new)
        name.now stream.old stream.new) }
    ensures keeps { let seen = disk_seen D.Disk D.Input.Source in KeepsDisk (seen disk.old) (seen disk.new) }
{
    if is_standard_input(name) {
        return input_of_stream(alloc, stream);
    }
    input_of_file(alloc, name, disk)
}

/// All the bytes of a file of commands, which has this number. A name of standard input is that.
fn bytes_of<S: Source, D: Disk>(
    alloc: Global,
    name: &str,
    at: usize,
    stream: &mut S,
    disk: &mut D,
) -> Result<Vec<u8>, CommandsFault>
    ensures whole { IfOk result (λ bytes. IsWholeOf (is_standard_input name.now)
        S.Source (D.seen disk.old).files name.now
        stream.old stream.new bytes.items) }
    ensures unread { let seen = disk_seen D.Disk D.Input.Source in
        IfErr result (IsUnread S.Source (seen disk.old) (seen disk.new)
        name.now stream.old stream.new at) }
    ensures keeps { let seen = disk_seen D.Disk D.Input.Source in KeepsDisk (seen disk.old) (seen disk.new) }
{
    match whole_of(alloc, name, stream, disk) {
        Ok(bytes) => Ok(bytes),
        Err(fate) => Err(fault_by(at, fate)),
    }
}

/// Puts commands after others. If there are none before them, they are taken as they are.
fn append(made: &mut Vec<u8>, strings: Vec<u8>) -> Result<(), NoMemory>
    ensures { OnOk result (made.new.items ≡ made.old.items ++ strings.items) }
{
    if made.is_empty() {
        *made = strings;
        return Ok(());
    }
    made.extend_from_slice(strings.as_slice())?;
    Ok(())
}

/// The commands of the sources in these files, one after another.
fn commands_in_files<S: Source, D: Disk>(
    alloc: Global,
    names: &[String],
    stream: &mut S,
    disk: &mut D,
    parts: &mut ReadSources,
) -> Result<Vec<u8>, CommandsFault>
    ensures read { IfOk result (λ made. AreCommandsIn S.Source
        (D.seen disk.old).files names.now stream.old stream.new made.items) }
    ensures fault { let seen = disk_seen D.Disk D.Input.Source in
        IfErr result (LacksFiles S.Source
        names.now (seen disk.old) (seen disk.new) stream.old stream.new) }
    ensures keeps { let seen = disk_seen D.Disk D.Input.Source in KeepsDisk (seen disk.old) (seen disk.new) }
{
    let mut made = Vec::new(alloc);
    for (at, name) in names.iter().enumerate() {
        let source = bytes_of(alloc, name.as_str(), at, stream, disk)?;
        let strings = commands_in(alloc, source.as_slice(), at)?;
        append(&mut made, strings)?;
        parts.keep(at, source, made.len())?;
    }
    Ok(made)
}

/// Puts the commands of the source in a word, which has this number, after others, and the source into `parts`.
fn append_word(
    alloc: Global,
    made: &mut Vec<u8>,
    word: &str,
    at: usize,
    parts: &mut ReadSources,
) -> Result<(), CommandsFault>
    ensures read { IfOk result (λ _. (strings : List ℕ) × (commands_of word.now ≡ Ok strings)
        × (made.new.items ≡ made.old.items ++ strings)) }
    ensures fault { IfErr result (IsFaultOf word.now at) }
{
    let strings = commands_in(alloc, word.as_bytes(), at)?;
    append(made, strings)?;
    parts.keep_word(alloc, at, word, made.len())?;
    Ok(())
}

/// The commands that run the source in a word on every page. The source is put into `parts`.
fn commands_for_pages(
    alloc: Global,
    word: &str,
    parts: &mut ReadSources,
) -> Result<Vec<u8>, CommandsFault>
    ensures read { IfOk result (λ made. (strings : List ℕ) × (commands_of word.now ≡ Ok strings)
        × (made.items ≡ on_pages strings)) }
    ensures fault { IfErr result (IsFaultOf word.now 0) }
{
    let strings = commands_in(alloc, word.as_bytes(), 0)?;
    let made = commands_on_pages(alloc, strings.as_slice())?;
    parts.keep_word(alloc, 0, word, made.len())?;
    Ok(made)
}

/// The commands of the line, whole: those of its sources, or all the bytes of its file. The sources are put into `parts`.
pub fn commands_given<S: Source, D: Disk>(
    alloc: Global,
    commands: &Commands,
    stream: &mut S,
    disk: &mut D,
    parts: &mut ReadSources,
) -> Result<Vec<u8>, CommandsFault>
    requires { are_awaited commands.now ≡ false }
    ensures given { IfOk result (λ bytes. IsGivenBy S.Source
        commands.now (D.seen disk.old).files stream.old stream.new bytes.items) }
    ensures lacks { let seen = disk_seen D.Disk D.Input.Source in
        IfErr result (LacksCommands S.Source
        commands.now (seen disk.old) (seen disk.new) stream.old stream.new) }
    ensures keeps { let seen = disk_seen D.Disk D.Input.Source in KeepsDisk (seen disk.old) (seen disk.new) }
{
    match commands {
        Commands::StandardInput => unreachable!(),
        Commands::Sources(names, word) => {
            let mut made = commands_in_files(alloc, names, stream, disk, parts)?;
            if let Some(word) = word {
                append_word(alloc, &mut made, word.as_str(), names.len(), parts)?;
            }
            Ok(made)
        }
        Commands::Pages(word) => commands_for_pages(alloc, word.as_str(), parts),
        Commands::Bytes(name) => bytes_of(alloc, name.as_str(), 0, stream, disk),
    }
}

/// What the source of this number is called: by its file's name, or by the option that gives it.
pub fn source_name(commands: &Commands, at: usize) -> &str
    ensures { result.now ≡ source_name commands.now at }
{
    match commands {
        Commands::StandardInput => "",
        Commands::Sources(names, _) => match names.get(at) {
            Some(name) => name.as_str(),
            None => "--execute",
        },
        Commands::Pages(_) => "--pages",
        Commands::Bytes(name) => name.as_str(),
    }
}

/// What is told where the commands of a line are not had.
fn text_without(
    alloc: Global,
    commands: &Commands,
    fault: CommandsFault,
) -> Result<String, NoMemory>
    ensures { IfOk result (λ text. string_bytes text ≡ text_without commands.now fault) }
{
    match fault {
        CommandsFault::Memory => said_of(alloc, "no memory", "", ""),
        CommandsFault::Unread(at, reason) => {
            said_why(alloc, "cannot read ", source_name(commands, at), reason)
        }
        CommandsFault::TooLarge(at) => {
            said_of(alloc, "", source_name(commands, at), " is too large")
        }
        CommandsFault::Caret(at, caret) => {
            let name = source_name(commands, at);
            let spot = caret.spot;
            let advice = bytes_advice(caret.has_escape);
            format!(in alloc;
                "teco: {name}:{spot}: a caret before what it cannot stand before{advice}\n"
            )
        }
    }
}

fn status_without(fault: CommandsFault) -> u8
    ensures { result ≡ status_without fault }
{
    match fault {
        CommandsFault::Memory | CommandsFault::Unread(..) | CommandsFault::TooLarge(_) => 1,
        CommandsFault::Caret(..) => 3,
    }
}

/// Tells why the commands of a line are not had, and gives the status.
pub fn decline<E: Terminal>(
    alloc: Global,
    commands: &Commands,
    fault: CommandsFault,
    errors: &mut E,
) -> u8
    ensures { Declines commands.now fault (E.screen errors.old) (E.screen errors.new) result }
{
    match text_without(alloc, commands, fault) {
        Ok(text) => {
            let _ = errors.put(text.as_bytes());
            status_without(fault)
        }
        Err(NoMemory) => no_memory(errors),
    }
}
