//! Reading files.
ghost use Rattle.std.specs.Prelude.{◌≡◌, ◌≤◌, ◌++◌, ◌∷◌, [], IfErr, IfOk, OnOk, Ok, vec_len, map};
ghost use Rattle.teco_core.specs.declared.limits.TheConstants.{FILE_LIMIT};
ghost use Rattle.teco_fs.specs.Reading.{IsInput};
ghost use Rattle.teco_fs.specs.Reasons.{ComesTo};
ghost use Rattle.teco_debugger.specs.declared.reading.FileFault.TheVariants as file;
ghost use Rattle.teco_fs.specs.Seen.{KeepsDisk, disk_seen};
ghost use Rattle.teco_debugger.specs.Reading.{AddsSource, IsNotRead, IsShownFrom, IsUnreadable};
ghost use Rattle.teco_source.specs.Source.{commands_of};
ghost use Rattle.teco_debugger.specs.Spelling.{escaped};

use crate::SourceText;
use crate::ending::Ending;
use std::alloc::Global;
use std::io;
use teco_core::{ESC, FILE_LIMIT, NoMemory};
use teco_fs::{Disk, Reason, reason_of, unless_memory};
use teco_io::{InputFault, read_input};
use teco_messages::spot_of;
use teco_source::{ReaderFault, beginnings, commands};

/// Why a file is not had.
#[derive(Clone, Copy)]
pub enum FileFault {
    /// It can't be read, for this reason.
    Unread(Reason),
    /// It has more bytes than it may have.
    TooLarge,
    /// Memory was refused for its bytes.
    Memory,
}

impl From<InputFault> for FileFault {
    ghost use Rattle.teco_debugger.specs.Reading.{fault_after};

    ghost from_gives = { λ read fault. fault ≡ fault_after read };

    fn from(fault: InputFault) -> FileFault {
        match fault {
            InputFault::Read => FileFault::Unread(Reason::ReadFailed),
            InputFault::TooLarge => FileFault::TooLarge,
            InputFault::Memory => FileFault::Memory,
        }
    }
}

/// Why a file is not had that could not be opened.
fn fault_of(error: io::Error) -> FileFault
    ensures { ComesTo error file.Memory file.Unread result }
{
    unless_memory(
        error,
        FileFault::Memory,
        FileFault::Unread(reason_of(error)),
    )
}

/// The bytes of a file, at most 2^30.
pub fn read_file<D: Disk>(alloc: Global, name: &str, disk: &mut D) -> Result<Vec<u8>, FileFault>
    ensures bytes { IfOk result (λ bytes. IsInput (D.seen disk.old).files name.now bytes.items) }
    ensures most { IfOk result (λ bytes. vec_len bytes ≤ FILE_LIMIT) }
    ensures fault { let seen = disk_seen D.Disk D.Input.Source in
        IfErr result (IsNotRead (D.seen disk.old).files (seen disk.new) name.now) }
    ensures keeps { let seen = disk_seen D.Disk D.Input.Source in
        KeepsDisk (seen disk.old) (seen disk.new) }
{
    let mut source = match disk.open(name) {
        Ok(source) => source,
        Err(error) => return Err(fault_of(error)),
    };
    match read_input(alloc, &mut source, FILE_LIMIT) {
        Ok(bytes) => Ok(bytes),
        Err(fault) => Err(FileFault::from(fault)),
    }
}

/// The byte that a byte of a source is shown as.
fn escaped(byte: u8) -> u8
    ensures { result ≡ escaped byte }
{
    if byte == b'$' { ESC } else { byte }
}

/// The source with each dollar sign made ESC.
fn with_escapes(alloc: Global, text: &[u8]) -> Result<Vec<u8>, NoMemory>
    ensures { IfOk result (λ string. string.items ≡ map escaped text.now) }
{
    text.iter().copied().map(escaped).collect(alloc)
}

/// The bytes that the source of this number stands for.
fn commands_in(alloc: Global, number: usize, source: &[u8]) -> Result<Vec<u8>, Ending>
    ensures read { IfOk result (λ text. commands_of source.now ≡ Ok text.items) }
    ensures fault { IfErr result (IsUnreadable number source.now) }
{
    match commands(alloc, source) {
        Ok(text) => Ok(text),
        Err(ReaderFault::Memory) => Err(Ending::NoMemory),
        Err(ReaderFault::Caret(place)) => Err(Ending::Caret(number, spot_of(source, place))),
    }
}

/// A source of this name as it is shown, whose bytes of the string come after so many.
fn source_text(
    alloc: Global,
    name: &str,
    from: usize,
    source: &[u8],
) -> Result<SourceText, NoMemory>
    ensures { IfOk result (IsShownFrom name.now from source.now) }
{
    let text = with_escapes(alloc, source)?;
    let places = beginnings(alloc, source)?;
    Ok(SourceText {
        name: String::from_str(alloc, name)?,
        from,
        text,
        places,
    })
}

/// A command string, and the sources that it was read from.
#[derive(Drop)]
pub struct Given {
    pub text: Vec<u8>,
    pub sources: Vec<SourceText>,
}

impl Given {
    /// No command string yet.
    pub fn new(alloc: Global) -> Given
        ensures text { result.text.items ≡ [] }
        ensures sources { result.sources.items ≡ [] }
    {
        Given {
            text: Vec::new(alloc),
            sources: Vec::new(alloc),
        }
    }

    /// Puts commands and their source behind the others.
    fn push(&mut self, commands: &[u8], shown: SourceText) -> Result<(), NoMemory>
        ensures text { OnOk result (self.new.text.items ≡ self.old.text.items ++ commands.now) }
        ensures sources { OnOk result (self.new.sources.items ≡ self.old.sources.items ++ shown ∷ []) }
    {
        self.text.extend_from_slice(commands)?;
        self.sources.push(shown)?;
        Ok(())
    }

    /// Puts the commands of a source behind the others. It has this number and name.
    pub fn add(
        &mut self,
        alloc: Global,
        number: usize,
        name: &str,
        source: &[u8],
    ) -> Result<(), Ending>
        ensures adds { OnOk result (AddsSource name.now source.now self.old self.new) }
        ensures fault { IfErr result (IsUnreadable number source.now) }
    {
        let commands = commands_in(alloc, number, source)?;
        let shown = source_text(alloc, name, self.text.len(), source)?;
        self.push(commands.as_slice(), shown)?;
        Ok(())
    }
}
