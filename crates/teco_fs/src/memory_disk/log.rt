//! The log of a disk in memory, which tells its files.
ghost use Rattle.std.specs.Option.{option_copied, option_map};
ghost use Rattle.std.specs.Prelude.{◌≡◌, ◌≢◌, ◌∷◌, [], IfOk, OnErr, OnOk, Some};
ghost use Rattle.teco_fs.specs.Disk.{Appends, AppendsFront, Creates, CutsTo, IsThere, KeepsAs, Opens, Removes, Renames, Same, SameBut};
ghost use Rattle.teco_fs.specs.FileLog.{GrowsByOne, files_of};
ghost use Rattle.teco_store.specs.Slices.{bytes_in};

use super::RefusedCall;
use std::alloc::Global;
use std::io;
use std::io::ErrorKind;
use std::marker::Model;
use teco_core::NoMemory;
use teco_io::{MemorySource, Source};
use teco_store::Slices;

/// What a call made of the files.
#[derive(Drop)]
struct Note {
    gone: String,
    name: String,
    bytes: Option<Vec<u8>>,
}

impl Model for Note {
    ghost use Rattle.std.specs.Option.{option_map};
    ghost use Rattle.std.specs.String.{string_bytes};
    ghost use Rattle.teco_fs.specs.FileLog.{FileNote};

    ghost Value = { FileNote };

    ghost view = { λ note. record {
      gone = string_bytes note.gone;
      name = string_bytes note.name;
      bytes = option_map (λ bytes. bytes.items) note.bytes;
    } };
}

/// What each call made of the files, the last first.
#[derive(Drop)]
pub(super) struct Log {
    alloc: Global,
    notes: Vec<Note>,
}

impl Model for Log {
    ghost use Rattle.std.specs.Prelude.{List};
    ghost use Rattle.teco_fs.specs.FileLog.{FileNote};

    ghost Value = { List FileNote };

    ghost view = { λ log. log.notes.items };
}

/// Whether one of these files has the name.
fn is_among(files: &[(&str, &str)], name: &str) -> bool {
    for file in files.iter() {
        if file.0 == name {
            return true;
        }
    }
    false
}

impl Log {
    pub(super) fn new(alloc: Global) -> Log
        ensures { result ≡ [] }
    {
        Log {
            alloc,
            notes: Vec::new(alloc),
        }
    }

    /// The bytes of a file, if it is there.
    pub(super) fn bytes(&self, name: &str) -> Option<&[u8]>
        ensures { option_copied result ≡ files_of self.now name.now }
    {
        for note in self.notes.iter() {
            if name == note.name.as_str() {
                return match &note.bytes {
                    Some(bytes) => Some(bytes.as_slice()),
                    None => None,
                };
            }
            if name == note.gone.as_str() {
                return None;
            }
        }
        None
    }

    /// A copy of the bytes of a file, if it is there.
    fn copied(&self, name: &str) -> io::Result<Vec<u8>>
        ensures { IfOk result (λ bytes. files_of self.now name.now ≡ Some bytes.items) }
    {
        let Some(bytes) = self.bytes(name) else {
            return Err(io::Error::from(ErrorKind::NotFound));
        };
        Ok(Vec::from_slice(self.alloc, bytes)?)
    }

    /// Whether each file has one of these names.
    pub(super) fn has_only(&self, names: &[(&str, &str)]) -> bool {
        for note in self.notes.iter() {
            let name = note.name.as_str();
            if self.bytes(name).is_some() && !is_among(names, name) {
                return false;
            }
        }
        true
    }

    /// Notes what a call made of the files, unless it is refused.
    fn note(
        &mut self,
        is_refused: bool,
        gone: &str,
        name: &str,
        bytes: Option<Vec<u8>>,
    ) -> io::Result<()>
        ensures ok { OnOk result (self.new
            ≡ record {
              gone = gone.now;
              name = name.now;
              bytes = option_map (λ bytes. bytes.items) bytes;
            } ∷ self.old) }
        ensures err { OnErr result (self.new ≡ self.old) }
    {
        if is_refused {
            return Err(io::Error::from(ErrorKind::PermissionDenied));
        }
        let gone = String::from_str(self.alloc, gone)?;
        let name = String::from_str(self.alloc, name)?;
        Ok(self.notes.insert(0, Note { gone, name, bytes })?)
    }
}

// What each call does to the files. Where it is refused they stay as they were, but for a write, of which half comes.
impl Log {
    /// Puts a file there.
    pub(super) fn put(&mut self, name: &str, bytes: &[u8]) -> Result<(), NoMemory> {
        let bytes = Vec::from_slice(self.alloc, bytes)?;
        if self.note(false, name, name, Some(bytes)).is_err() {
            return Err(NoMemory);
        }
        Ok(())
    }

    pub(super) fn opened(&self, refused: RefusedCall, name: &str) -> io::Result<MemorySource>
        ensures { IfOk result
            (λ input. Opens (Some (files_of self.now)) name.now (⟦<MemorySource as Source>⟧.coming input)) }
    {
        let bytes = self.copied(name)?;
        let fails = refused == RefusedCall::Read;
        Ok(MemorySource::new(bytes, Vec::new(self.alloc), fails))
    }

    pub(super) fn made(&mut self, refused: RefusedCall, name: &str) -> io::Result<()>
        ensures ok { OnOk result (Creates name.now [] (files_of self.old) (files_of self.new)) }
        ensures err { OnErr result (Same (files_of self.old) (files_of self.new)) }
        ensures others { SameBut name.now (files_of self.old) (files_of self.new) }
        ensures grows { GrowsByOne self.old self.new }
    {
        let None = self.bytes(name) else {
            return Err(io::Error::from(ErrorKind::AlreadyExists));
        };
        let empty = Vec::new(self.alloc);
        self.note(refused == RefusedCall::Make, name, name, Some(empty))
    }

    /// A file that is to be extended is there then.
    pub(super) fn extended(&mut self, refused: RefusedCall, name: &str) -> io::Result<()>
        ensures ok { OnOk result (IsThere name.now (files_of self.old) (files_of self.new)) }
        ensures err { OnErr result (Same (files_of self.old) (files_of self.new)) }
        ensures grows { GrowsByOne self.old self.new }
    {
        if refused == RefusedCall::Hold {
            return Err(io::Error::from(ErrorKind::ResourceBusy));
        }
        if self.bytes(name).is_some() {
            return Ok(());
        }
        self.made(refused, name)
    }

    pub(super) fn written(
        &mut self,
        refused: RefusedCall,
        name: &str,
        bytes: &[u8],
    ) -> io::Result<()>
        ensures ok { OnOk result (Appends name.now bytes.now (files_of self.old) (files_of self.new)) }
        ensures front { AppendsFront name.now bytes.now (files_of self.old) (files_of self.new) }
        ensures grows { GrowsByOne self.old self.new }
    {
        let mut all = self.copied(name)?;
        let is_refused = refused == RefusedCall::Write;
        let n = if is_refused {
            bytes.len() / 2
        } else {
            bytes.len()
        };
        all.extend_from_slice(&bytes[..n])?;
        let noted = self.note(false, name, name, Some(all));
        if is_refused {
            return noted.and(Err(io::Error::from(ErrorKind::StorageFull)));
        }
        noted
    }

    pub(super) fn written_slices(
        &mut self,
        refused: RefusedCall,
        name: &str,
        bytes: Slices<'_>,
    ) -> io::Result<()>
        ensures ok { OnOk result
            (Appends name.now (bytes_in bytes.entry) (files_of self.old) (files_of self.new)) }
        ensures others { SameBut name.now (files_of self.old) (files_of self.new) }
    {
        let mut left = bytes;
        while let Some((slice, others)) = left.split_first() {
            self.written(refused, name, slice)?;
            left = others;
        }
        Ok(())
    }

    pub(super) fn cut(&mut self, refused: RefusedCall, name: &str, length: u64) -> io::Result<()>
        ensures ok { OnOk result (CutsTo name.now length (files_of self.old) (files_of self.new)) }
        ensures err { OnErr result (Same (files_of self.old) (files_of self.new)) }
        ensures grows { GrowsByOne self.old self.new }
    {
        let mut all = self.copied(name)?;
        all.truncate(length as usize);
        self.note(refused == RefusedCall::Cut, name, name, Some(all))
    }

    pub(super) fn kept(&mut self, refused: RefusedCall, file: &str, backup: &str) -> io::Result<()>
        ensures ok { OnOk result (KeepsAs file.now backup.now (files_of self.old) (files_of self.new)) }
        ensures err { OnErr result (Same (files_of self.old) (files_of self.new)) }
        ensures grows { GrowsByOne self.old self.new }
    {
        let bytes = self.copied(file)?;
        self.note(refused == RefusedCall::Keep, backup, backup, Some(bytes))
    }

    pub(super) fn renamed(&mut self, refused: RefusedCall, from: &str, to: &str) -> io::Result<()>
        requires { from.now ≢ to.now }
        ensures ok { OnOk result (Renames from.now to.now (files_of self.old) (files_of self.new)) }
        ensures err { OnErr result (Same (files_of self.old) (files_of self.new)) }
        ensures grows { GrowsByOne self.old self.new }
    {
        let bytes = self.copied(from)?;
        let is_refused = refused == RefusedCall::Rename || refused == RefusedCall::RenameAndRemove;
        self.note(is_refused, from, to, Some(bytes))
    }

    pub(super) fn removed(&mut self, refused: RefusedCall, name: &str) -> io::Result<()>
        ensures ok { OnOk result (Removes name.now (files_of self.old) (files_of self.new)) }
        ensures others { SameBut name.now (files_of self.old) (files_of self.new) }
        ensures grows { GrowsByOne self.old self.new }
    {
        self.note(refused == RefusedCall::RenameAndRemove, name, name, None)
    }
}
