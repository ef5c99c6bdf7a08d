//! The file of a session, open to be written.
ghost use Rattle.std.specs.Prelude.{◌≡◌, ◌⊎◌, [], IfOk, OnErr, OnOk};
ghost use Rattle.teco_fs.specs.Disk.{Appends, AppendsFront, Creates, CutsTo, Files, IsThere, Same};
ghost use Rattle.teco_fs.specs.State.{FilesChange, FilesPass};
ghost use Rattle.teco_journal.specs.Entries.{event_in};
ghost use Rattle.teco_recorder.specs.Recording.{HasIfThere, IsBegun, after_line, line_in};

use std::alloc::Global;
use std::io;
use std::marker::Model;
use teco_fs::Disk;
use teco_journal::{CHECK_LENGTH, Entry, NewHead, push_record};

/// The file of a session, open: what is written comes after the lines that it has.
#[derive(Drop)]
pub struct OpenFile<D: Disk> {
    name: String,
    draft: D::Draft,
    // the check behind which the next line is written
    check: [u8; CHECK_LENGTH],
}

impl<D: Disk> Model for OpenFile<D> {
    ghost use Rattle.std.specs.String.{string_bytes};
    ghost use Rattle.teco_recorder.specs.Recording.{KeptFile};

    ghost Value = { KeptFile };

    ghost view = { λ file. record {
      name = string_bytes file.name;
      check = file.check;
    } };

    ghost invariant = { λ file. D.is_of file.draft (string_bytes file.name) };
}

impl<D: Disk> OpenFile<D> {
    /// Opens the file of this name, or makes one that is empty. No line can be written before it is begun or gone on with.
    pub fn open(alloc: Global, name: &str, disk: &mut D) -> io::Result<OpenFile<D>>
        ensures name { IfOk result (λ file. file.name ≡ name.now) }
        ensures ok { OnOk result (FilesChange (D.seen disk.old) (D.seen disk.new) (IsThere name.now)) }
        ensures err { OnErr result (FilesChange (D.seen disk.old) (D.seen disk.new) Same) }
        ensures moments { FilesPass (D.seen disk.old) (D.seen disk.new)
            (λ before now. Same before now ⊎ Creates name.now [] before now) }
        ensures streams { (D.seen disk.new).streams ≡ (D.seen disk.old).streams }
    {
        let kept = String::from_str(alloc, name)?;
        let draft = disk.open_to_extend(name)?;
        Ok(OpenFile {
            name: kept,
            draft,
            check: [0; CHECK_LENGTH],
        })
    }

    /// Writes a head in the place of what the file has. It outlasts a crash of the machine then.
    pub fn begin(&mut self, disk: &mut D, head: &NewHead) -> io::Result<()>
        ensures ok { OnOk result (FilesChange (D.seen disk.old) (D.seen disk.new) (HasIfThere self.old.name head.now.bytes.items)) }
        ensures check { OnOk result (self.new ≡ record { name = self.old.name; check = head.now.check }) }
        ensures err { OnErr result (FilesChange (D.seen disk.old) (D.seen disk.new) (IsBegun self.old.name head.now.bytes.items)) }
        ensures moments { FilesPass (D.seen disk.old) (D.seen disk.new) (IsBegun self.old.name head.now.bytes.items) }
        ensures streams { (D.seen disk.new).streams ≡ (D.seen disk.old).streams }
    {
        disk.cut(&mut self.draft, self.name.as_str(), 0)?;
        disk.write(&mut self.draft, self.name.as_str(), head.bytes.as_slice())?;
        disk.sync(&self.draft, self.name.as_str())?;
        self.check = head.check;
        Ok(())
    }

    /// Cuts off what the file has after so many bytes, which are whole lines, of which the last has this check.
    pub fn go_on(&mut self, disk: &mut D, good: usize, check: [u8; CHECK_LENGTH]) -> io::Result<()>
        ensures ok { OnOk result (FilesChange (D.seen disk.old) (D.seen disk.new) (CutsTo self.old.name good)) }
        ensures check { OnOk result (self.new ≡ record { name = self.old.name; check = check }) }
        ensures err { OnErr result (FilesChange (D.seen disk.old) (D.seen disk.new) Same) }
        ensures moments { FilesPass (D.seen disk.old) (D.seen disk.new)
            (λ before now. Same before now ⊎ CutsTo self.old.name good before now) }
        ensures streams { (D.seen disk.new).streams ≡ (D.seen disk.old).streams }
    {
        disk.cut(&mut self.draft, self.name.as_str(), good as u64)?;
        self.check = check;
        Ok(())
    }

    /// Writes the line of an entry. If it `syncs`, the line outlasts a crash of the machine then. Where it fails, a beginning of the line may
    /// be there, and no more can be written.
    pub fn add(
        &mut self,
        alloc: Global,
        disk: &mut D,
        entry: Entry<'_>,
        syncs: bool,
    ) -> io::Result<()>
        ensures ok { OnOk result (FilesChange (D.seen disk.old) (D.seen disk.new)
            (Appends self.old.name (line_in self.old (event_in entry.entry)))) }
        ensures check { OnOk result (self.new ≡ after_line self.old (event_in entry.entry)) }
        ensures err { OnErr result (FilesChange (D.seen disk.old) (D.seen disk.new)
            (AppendsFront self.old.name (line_in self.old (event_in entry.entry)))) }
        ensures name { self.new.name ≡ self.old.name }
        ensures moments { FilesPass (D.seen disk.old) (D.seen disk.new)
            (AppendsFront self.old.name (line_in self.old (event_in entry.entry))) }
        ensures streams { (D.seen disk.new).streams ≡ (D.seen disk.old).streams }
    {
        let told = entry.to_record(alloc)?;
        let mut line = Vec::new(alloc);
        let mut check = self.check;
        push_record(&mut line, &mut check, &told)?;
        disk.write(&mut self.draft, self.name.as_str(), line.as_slice())?;
        self.check = check;
        if syncs {
            disk.sync(&self.draft, self.name.as_str())?;
        }
        Ok(())
    }

    /// Waits until what the file has outlasts a crash of the machine.
    pub fn sync(&self, disk: &mut D) -> io::Result<()>
        ensures files { (D.seen disk.new).files ≡ (D.seen disk.old).files }
        ensures streams { (D.seen disk.new).streams ≡ (D.seen disk.old).streams }
        ensures moments { (files : Files) → (D.seen disk.new).left files → (D.seen disk.old).left files }
    {
        disk.sync(&self.draft, self.name.as_str())
    }
}
