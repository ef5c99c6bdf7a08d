//! Files in memory.
ghost use Rattle.std.specs.Prelude.{◌≡◌, ⊤, true, IfOk, IfSome, IsNone, Some};
ghost use Rattle.teco_fs.specs.declared.memory_disk.RefusedCall.TheVariants.{Changed};
ghost use Rattle.teco_fs.specs.Disk.{IsStream, IsTargetOf, Opens};
ghost use Rattle.teco_fs.specs.FileLog.{WereOnce, files_of};

use crate::disk::Disk;
use crate::failures::Failures;
use crate::target::Target;
use crate::unkept::Unkept;
use std::alloc::Global;
use std::io;
use std::io::ErrorKind;
use teco_core::NoMemory;
use teco_io::{MemorySource, Source};
use teco_store::Slices;

mod log;

use log::Log;

/// Which call is refused.
#[derive(Clone, Copy, PartialEq)]
pub enum RefusedCall {
    Nothing,
    /// A read of a file that was opened.
    Read,
    Make,
    /// A write, of which half the bytes come.
    Write,
    Sync,
    /// To hold a file that is to be extended: another run holds it.
    Hold,
    Cut,
    /// To give a file another name too.
    Keep,
    Rename,
    /// A rename, and then that the draft is removed.
    RenameAndRemove,
    /// To replace a file: it is told not to be what it was when it was opened.
    Changed,
    /// To keep the owner of a file that is replaced.
    Owner,
    /// To keep what is written to a file while it is replaced.
    Changes,
}

/// Files in memory, which tells them. So a disk can tell its files and do all that is said of a disk.
#[derive(Drop)]
pub struct MemoryDisk {
    alloc: Global,
    log: Log,
    // what each device was given
    devices: Log,
    refused: RefusedCall,
    failures: Failures,
    // whether a file could not be removed
    unremoved: bool,
    // what the output that was written last could not keep
    unkept: Option<Unkept>,
}

impl MemoryDisk {
    pub fn new(alloc: Global, refused: RefusedCall) -> MemoryDisk {
        MemoryDisk {
            alloc,
            log: Log::new(alloc),
            devices: Log::new(alloc),
            refused,
            failures: Failures {
                times: 0,
                last: None,
            },
            unremoved: false,
            unkept: None,
        }
    }

    /// Puts a file there.
    pub fn put(&mut self, name: &str, bytes: &[u8]) -> Result<(), NoMemory> {
        self.log.put(name, bytes)
    }

    /// Puts a device there, which keeps what it is given.
    pub fn put_device(&mut self, name: &str) -> Result<(), NoMemory> {
        self.devices.put(name, &[])
    }

    /// What a device was given, if it is there.
    pub fn given(&self, name: &str) -> Option<&[u8]> {
        self.devices.bytes(name)
    }

    /// The bytes of a file, if it is there.
    pub fn bytes(&self, name: &str) -> Option<&[u8]> {
        self.log.bytes(name)
    }

    /// Whether each file has one of these names.
    pub fn has_only(&self, names: &[(&str, &str)]) -> bool {
        self.log.has_only(names)
    }
}

/// The target of this name, where these are the devices.
fn target_among(devices: &Log, alloc: Global, name: &str) -> io::Result<Target>
    ensures target { IfOk result (IsTargetOf (files_of devices.now) name.now) }
{
    match devices.bytes(name) {
        Some(_) => Ok(Target::Stream),
        None => Ok(Target::File(String::from_str(alloc, name)?)),
    }
}

/// The file of this name, opened, unless a device has the name.
fn regular_in(
    log: &Log,
    devices: &Log,
    refused: RefusedCall,
    name: &str,
) -> io::Result<Option<MemorySource>>
    ensures input { IfOk result (λ found. IfSome found
        (λ input. Opens (Some (files_of log.now)) name.now (⟦<MemorySource as Source>⟧.coming input))) }
    ensures other { IfOk result (λ found. IsNone found → IsStream (Some (files_of log.now)) (files_of devices.now) name.now) }
{
    match devices.bytes(name) {
        Some(_) => Ok(None),
        None => Ok(Some(log.opened(refused, name)?)),
    }
}

impl Disk for MemoryDisk {
    type Input = MemorySource;

    type Draft = ();

    // Each call makes one note at most. So the files were at each moment as the log told them after some note. What is noted outlasts a
    // crash.
    ghost seen = { λ disk. record {
      files = Some (files_of disk.log);
      streams = files_of disk.devices;
      left = λ files. WereOnce disk.log files;
      failures = disk.failures.times;
      gave = λ error. disk.failures.last ≡ Some error;
      kept = λ _. ⊤;
      unremoved = λ _. disk.unremoved ≡ true;
      changed = λ _. disk.refused ≡ Changed;
      unkept = λ what. disk.unkept ≡ what;
    } };

    ghost is_of = { λ _ _. ⊤ };

    fn open(&mut self, name: &str) -> io::Result<MemorySource> {
        let opened = self.log.opened(self.refused, name);
        self.failures.counted(opened)
    }

    fn open_to_replace(&mut self, name: &str, _waits: bool) -> io::Result<Option<MemorySource>> {
        let opened = regular_in(&self.log, &self.devices, self.refused, name);
        self.failures.counted(opened)
    }

    fn reopen(&mut self, name: &str) -> io::Result<MemorySource> {
        self.open(name)
    }

    fn may_have(&self, name: &str, size: usize) -> bool {
        matches!(self.log.bytes(name), Some(bytes) if bytes.len() == size)
    }

    fn is_as_read(&mut self, _name: &str) -> io::Result<bool> {
        Ok(self.refused != RefusedCall::Changed)
    }

    fn target_of(&mut self, name: &str) -> io::Result<Target> {
        let target = target_among(&self.devices, self.alloc, name);
        self.failures.counted(target)
    }

    fn append(&mut self, name: &str, bytes: Slices<'_>) -> io::Result<()> {
        let appended = self.devices.written_slices(self.refused, name, bytes);
        self.unkept = None;
        self.failures.counted(appended)
    }

    fn make(&mut self, name: &str) -> io::Result<()> {
        let made = self.log.made(self.refused, name);
        self.failures.counted(made)
    }

    fn open_to_extend(&mut self, name: &str) -> io::Result<()> {
        let extended = self.log.extended(self.refused, name);
        self.failures.counted(extended)
    }

    fn write(&mut self, _draft: &mut (), name: &str, bytes: &[u8]) -> io::Result<()> {
        let written = self.log.written(self.refused, name, bytes);
        self.failures.counted(written)
    }

    fn cut(&mut self, _draft: &mut (), name: &str, length: u64) -> io::Result<()> {
        let cut = self.log.cut(self.refused, name, length);
        self.failures.counted(cut)
    }

    fn make_like(&mut self, _draft: &(), _name: &str) {
        self.unkept = match self.refused {
            RefusedCall::Owner => Some(Unkept::Owner),
            RefusedCall::Changes => Some(Unkept::Changes),
            _ => None,
        };
    }

    fn sync(&mut self, _draft: &(), _name: &str) -> io::Result<()> {
        let synced = match self.refused {
            RefusedCall::Sync => Err(io::Error::from(ErrorKind::StorageFull)),
            _ => Ok(()),
        };
        self.failures.counted(synced)
    }

    fn keep(&mut self, file: &str, _temporary: &str, backup: &str) -> io::Result<()> {
        let kept = self.log.kept(self.refused, file, backup);
        self.failures.counted(kept)
    }

    fn rename(&mut self, from: &str, to: &str) -> io::Result<Option<Unkept>> {
        let renamed = self.log.renamed(self.refused, from, to);
        match self.failures.counted(renamed) {
            Ok(()) => Ok(self.unkept),
            Err(error) => Err(error),
        }
    }

    fn remove(&mut self, name: &str) -> io::Result<()> {
        let removed = self.log.removed(self.refused, name);
        self.unremoved = self.unremoved || removed.is_err();
        removed
    }

    fn why(&self) -> Option<ErrorKind> {
        self.failures.why()
    }
}
