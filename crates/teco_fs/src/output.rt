//! Writing the output.
ghost use Rattle.std.specs.Prelude.{◌≡◌, ◌≢◌, ◌⊎◌, List, ℕ, None, IfErr, IfOk, IfSome, OnErr, OnOk, Some, true};
ghost use Rattle.std.specs.String.{string_bytes};
ghost use Rattle.teco_fs.specs.Draft.{draft_beside};
ghost use Rattle.teco_fs.specs.Disk.{Appends, Creates, Files, IsWhole, LeavesFiles, Removes, Renames, Replaces, Same, SameBut};
ghost use Rattle.teco_fs.specs.Seen.{IsAsked};
ghost use Rattle.teco_fs.specs.State.{FilesChange, FilesPass, KeepsStreams, KeepsStreamsUntold, Looks};
ghost use Rattle.teco_fs.specs.Writing.{AddsDrafts, HasChanged, HasDraft, IfChanged, IfWhole, IfWholeWith, IsPut, IsTaking, IsWriteError, IsWriting, UnlessWhole, Writes};
ghost use Rattle.teco_store.specs.Slices.{bytes_in};

use crate::{Disk, Target, Unkept};
use std::alloc::Global;
use std::io;
use std::io::ErrorKind;
use std::path::Path;
use teco_core::NoMemory;
use teco_store::Slices;

/// How many names are tried for a draft.
pub(crate) const DRAFTS: u32 = 100;

/// Writes the bytes to a draft.
fn write_slices<D: Disk>(
    disk: &mut D,
    draft: &mut D::Draft,
    name: &str,
    bytes: Slices<'_>,
) -> io::Result<()>
    requires { D.is_of draft.old name.now }
    ensures ok { OnOk result (FilesChange (D.seen disk.old) (D.seen disk.new)
        (Appends name.now (bytes_in bytes.entry))) }
    ensures draft { D.is_of draft.new name.now }
    ensures err { OnErr result (FilesChange (D.seen disk.old) (D.seen disk.new) (SameBut name.now)) }
    ensures moments { FilesPass (D.seen disk.old) (D.seen disk.new) (SameBut name.now) }
    ensures still { KeepsStreams result (D.seen disk.old) (D.seen disk.new) }
{
    let mut left = bytes;
    while let Some((slice, others)) = left.split_first() {
        disk.write(draft, name, slice)?;
        left = others;
    }
    Ok(())
}

/// How drafts are made.
#[derive(Clone, Copy)]
pub struct Drafts {
    /// The number of the first name that is tried.
    pub number: u32,
    /// Whether each outlasts a crash before it takes the file's name.
    pub synced: bool,
}

/// Waits until what a draft has outlasts a crash, if it is to.
fn settle<D: Disk>(disk: &mut D, draft: &D::Draft, name: &str, synced: bool) -> io::Result<()>
    requires { D.is_of draft.now name.now }
    ensures kept { OnOk result (synced ≡ true → (D.seen disk.new).kept name.now) }
    ensures still { Looks result (D.seen disk.old) (D.seen disk.new) }
{
    match synced {
        true => disk.sync(draft, name),
        false => Ok(()),
    }
}

/// Writes the bytes to a draft, which then outlast a crash if they are to.
fn fill<D: Disk>(
    disk: &mut D,
    draft: &mut D::Draft,
    name: &str,
    synced: bool,
    bytes: Slices<'_>,
) -> io::Result<()>
    requires { D.is_of draft.old name.now }
    ensures ok { OnOk result (FilesChange (D.seen disk.old) (D.seen disk.new)
        (Appends name.now (bytes_in bytes.entry))) }
    ensures kept { OnOk result (synced ≡ true → (D.seen disk.new).kept name.now) }
    ensures err { OnErr result (FilesChange (D.seen disk.old) (D.seen disk.new) (SameBut name.now)) }
    ensures moments { FilesPass (D.seen disk.old) (D.seen disk.new) (SameBut name.now) }
    ensures still { KeepsStreams result (D.seen disk.old) (D.seen disk.new) }
{
    write_slices(disk, draft, name, bytes)?;
    disk.make_like(draft, name);
    settle(disk, draft, name, synced)
}

/// Makes a draft with these bytes, which outlast a crash if they are to. Where they can't be written, it is removed again.
fn create<D: Disk>(disk: &mut D, name: &str, synced: bool, bytes: Slices<'_>) -> io::Result<()>
    ensures ok { OnOk result (FilesChange (D.seen disk.old) (D.seen disk.new)
        (Creates name.now (bytes_in bytes.entry))) }
    ensures kept { OnOk result (synced ≡ true → (D.seen disk.new).kept name.now) }
    ensures err { OnErr result (FilesChange (D.seen disk.old) (D.seen disk.new) (LeavesFiles name.now)) }
    ensures removed { OnErr result (FilesChange (D.seen disk.old) (D.seen disk.new) Same
        ⊎ (D.seen disk.new).unremoved name.now) }
    ensures moments { FilesPass (D.seen disk.old) (D.seen disk.new) (SameBut name.now) }
    ensures still { KeepsStreams result (D.seen disk.old) (D.seen disk.new) }
{
    let mut draft = disk.make(name)?;
    if let Err(error) = fill(disk, &mut draft, name, synced, bytes) {
        let _ = disk.remove(name);
        return Err(error);
    }
    Ok(())
}

/// What became of an output that was written, where no call failed.
#[derive(Clone, Copy)]
pub enum Written {
    /// All of it is there, but this could not be kept of the file whose place it takes.
    Whole(Option<Unkept>),
    /// Nothing was written over the file that was read, since it has changed.
    Changed,
}

/// Removes a draft that is not needed, if the system lets us.
fn discard<D: Disk>(disk: &mut D, draft: &str)
    ensures removed { FilesChange (D.seen disk.old) (D.seen disk.new) (Removes draft.now) ⊎ (D.seen disk.new).unremoved draft.now }
    ensures others { FilesChange (D.seen disk.old) (D.seen disk.new) (SameBut draft.now) }
    ensures moments { FilesPass (D.seen disk.old) (D.seen disk.new) (SameBut draft.now) }
    ensures still { KeepsStreamsUntold (D.seen disk.old) (D.seen disk.new) }
{
    let _ = disk.remove(draft);
}

/// Gives a draft the name of the file whose place it takes. Where that fails the draft is removed.
fn take_name<D: Disk>(disk: &mut D, draft: &str, file: &str) -> io::Result<Written>
    requires { draft.now ≢ file.now }
    ensures ok { IfWhole result (FilesChange (D.seen disk.old) (D.seen disk.new) (Renames draft.now file.now)) }
    ensures unkept { IfWholeWith result (D.seen disk.new).unkept }
    ensures unchanged { IfChanged result ⊥ }
    ensures err { UnlessWhole result (FilesChange (D.seen disk.old) (D.seen disk.new) (SameBut draft.now)) }
    ensures removed { UnlessWhole result (FilesChange (D.seen disk.old) (D.seen disk.new) (Removes draft.now)
        ⊎ (D.seen disk.new).unremoved draft.now) }
    ensures moments { (D.seen disk.old).kept draft.now → FilesPass (D.seen disk.old) (D.seen disk.new)
        (IsTaking draft.now file.now) }
    ensures still { KeepsStreams result (D.seen disk.old) (D.seen disk.new) }
{
    match disk.rename(draft, file) {
        Ok(unkept) => Ok(Written::Whole(unkept)),
        Err(error) => {
            discard(disk, draft);
            Err(error)
        }
    }
}

/// Gives a draft the name of the file that was read under this other name, if that is still what it was then. Else the draft is removed.
fn take_name_as_read<D: Disk>(
    disk: &mut D,
    read: &str,
    draft: &str,
    file: &str,
) -> io::Result<Written>
    requires { draft.now ≢ file.now }
    ensures ok { IfWhole result (FilesChange (D.seen disk.old) (D.seen disk.new) (Renames draft.now file.now)) }
    ensures unkept { IfWholeWith result (D.seen disk.new).unkept }
    ensures asked { IfWhole result (IsAsked D.seen read.now (D.seen disk.old).files Same) }
    ensures changed { IfChanged result ((D.seen disk.new).changed read.now) }
    ensures err { UnlessWhole result (FilesChange (D.seen disk.old) (D.seen disk.new) (SameBut draft.now)) }
    ensures removed { UnlessWhole result (FilesChange (D.seen disk.old) (D.seen disk.new) (Removes draft.now)
        ⊎ (D.seen disk.new).unremoved draft.now) }
    ensures moments { (D.seen disk.old).kept draft.now → FilesPass (D.seen disk.old) (D.seen disk.new)
        (IsTaking draft.now file.now) }
    ensures still { KeepsStreams result (D.seen disk.old) (D.seen disk.new) }
{
    match disk.is_as_read(read) {
        Ok(true) => take_name(disk, draft, file),
        Ok(false) => {
            discard(disk, draft);
            Ok(Written::Changed)
        }
        Err(error) => {
            discard(disk, draft);
            Err(error)
        }
    }
}

/// Gives a file these bytes in the place of what it has. They are written to a new file, the draft, which then takes the file's name. A file
/// that was `read` is looked at directly before that, and is replaced only if it is still what it was.
///
/// So at no moment has the file a part of them, also after a crash if the draft is `synced`. Where a call fails, or the file has changed,
/// each file stays as it was, and no draft is left, or it could not be removed.
pub fn replace<D: Disk>(
    disk: &mut D,
    file: &str,
    draft: &str,
    read: Option<&str>,
    synced: bool,
    bytes: Slices<'_>,
) -> io::Result<Written>
    requires { draft.now ≢ file.now }
    ensures ok { IfWhole result (FilesChange (D.seen disk.old) (D.seen disk.new)
        (Replaces file.now (bytes_in bytes.entry))) }
    ensures unkept { IfWholeWith result (D.seen disk.new).unkept }
    ensures asked { IfWhole result (IfSome read.entry (λ read. IsAsked D.seen read.now (D.seen disk.old).files
        (λ before now. now draft.now ≡ Some (bytes_in bytes.entry)))) }
    ensures changed { IfChanged result (HasChanged (D.seen disk.new) read.entry) }
    ensures err { UnlessWhole result (FilesChange (D.seen disk.old) (D.seen disk.new) (LeavesFiles draft.now)) }
    ensures removed { UnlessWhole result (FilesChange (D.seen disk.old) (D.seen disk.new) Same
        ⊎ (D.seen disk.new).unremoved draft.now) }
    ensures moments { synced ≡ true → FilesPass (D.seen disk.old) (D.seen disk.new)
        (IsWhole file.now draft.now (bytes_in bytes.entry)) }
    ensures still { KeepsStreams result (D.seen disk.old) (D.seen disk.new) }
{
    create(disk, draft, synced, bytes)?;
    match read {
        Some(read) => take_name_as_read(disk, read, draft, file),
        None => take_name(disk, draft, file),
    }
}

/// The name of a draft: in the folder of the file, of this number, and not the file's.
pub(crate) fn draft_name(alloc: Global, file: &str, number: u32) -> Result<String, NoMemory>
    ensures named { IfOk result (λ draft. string_bytes draft ≡ draft_beside file.now number) }
    ensures another { IfOk result (λ draft. string_bytes draft ≢ file.now) }
{
    let name = format!(in alloc; ".teco-{number}")?;
    let mut draft = Path::new(file)
        .with_file_name(alloc, name.as_str())?
        .into_string();
    if draft.as_str() == file {
        draft.push_str("-")?;
    }
    Ok(draft)
}

/// Gives a file these bytes, by the first draft whose name is free.
fn replace_file<D: Disk>(
    alloc: Global,
    disk: &mut D,
    file: &str,
    drafts: Drafts,
    read: Option<&str>,
    bytes: Slices<'_>,
) -> io::Result<Written>
    ensures ok { IfWhole result (FilesChange (D.seen disk.old) (D.seen disk.new)
        (Writes file.now (bytes_in bytes.entry))) }
    ensures unkept { IfWholeWith result (D.seen disk.new).unkept }
    ensures asked { IfWhole result (IfSome read.entry (λ read. IsAsked D.seen read.now (D.seen disk.old).files
        (HasDraft file.now (bytes_in bytes.entry)))) }
    ensures changed { IfChanged result (HasChanged (D.seen disk.new) read.entry) }
    ensures err { UnlessWhole result (FilesChange (D.seen disk.old) (D.seen disk.new) (AddsDrafts file.now)) }
    ensures streams { (D.seen disk.new).streams ≡ (D.seen disk.old).streams }
    ensures moments { drafts.synced ≡ true → FilesPass (D.seen disk.old) (D.seen disk.new)
        (IsWriting file.now (bytes_in bytes.entry)) }
    ensures error { IfErr result (IsWriteError (D.seen disk.new).gave) }
{
    'drafts: for number in drafts.number..drafts.number.saturating_add(DRAFTS) {
        let draft = draft_name(alloc, file, number)?;
        match replace(disk, file, draft.as_str(), read, drafts.synced, bytes) {
            Err(error) if error.kind() == ErrorKind::AlreadyExists => {}
            done => return done,
        }
    }
    Err(io::Error::from(ErrorKind::AlreadyExists))
}

/// Gives a stream these bytes after what it was given. One that was `read` as a file is looked at before, and is given nothing if it is not
/// what it was.
fn append<D: Disk>(
    disk: &mut D,
    name: &str,
    read: Option<&str>,
    bytes: Slices<'_>,
) -> io::Result<Written>
    ensures ok { IfWhole result
        (Appends name.now (bytes_in bytes.entry) (D.seen disk.old).streams (D.seen disk.new).streams) }
    ensures unkept { IfWholeWith result (D.seen disk.new).unkept }
    ensures asked { IfWhole result (IfSome read.entry (λ read. IsAsked D.seen read.now (D.seen disk.old).files Same)) }
    ensures changed { IfChanged result (HasChanged (D.seen disk.new) read.entry) }
    ensures others { SameBut name.now (D.seen disk.old).streams (D.seen disk.new).streams }
    ensures files { (D.seen disk.new).files ≡ (D.seen disk.old).files }
    ensures moments { (files : Files) → (D.seen disk.new).left files → (D.seen disk.old).left files }
    ensures error { IfErr result (D.seen disk.new).gave }
{
    if let Some(was) = read {
        match disk.is_as_read(was) {
            Ok(true) => {}
            Ok(false) => return Ok(Written::Changed),
            Err(error) => return Err(error),
        }
    }
    match disk.append(name, bytes) {
        // a stream keeps all that it is
        Ok(()) => Ok(Written::Whole(None)),
        Err(error) => Err(error),
    }
}

/// Writes the output, which is in two parts. A file that is new or is replaced has it whole or stays as it was; a device, a pipe
/// or a socket is given it after what it was given before. What was `read` is written over only if it is still what it was.
pub fn write_output_by<D: Disk>(
    alloc: Global,
    disk: &mut D,
    name: &str,
    drafts: Drafts,
    read: Option<&str>,
    output: Slices<'_>,
) -> io::Result<Written>
    ensures ok { IfWhole result (FilesChange (D.seen disk.old) (D.seen disk.new)
        (IsPut name.now (bytes_in output.entry) ((D.seen disk.old).streams name.now) ((D.seen disk.new).streams name.now))) }
    ensures unkept { IfWholeWith result (D.seen disk.new).unkept }
    ensures asked { IfWhole result (IfSome read.entry (λ read. IsAsked D.seen read.now (D.seen disk.old).files
        (λ before now. (D.seen disk.old).streams name.now ≡ None → HasDraft name.now (bytes_in output.entry) before now))) }
    ensures changed { IfChanged result (HasChanged (D.seen disk.new) read.entry) }
    ensures err { UnlessWhole result (FilesChange (D.seen disk.old) (D.seen disk.new) (AddsDrafts name.now)) }
    ensures streams { SameBut name.now (D.seen disk.old).streams (D.seen disk.new).streams }
    ensures moments { drafts.synced ≡ true → FilesPass (D.seen disk.old) (D.seen disk.new)
        (IsWriting name.now (bytes_in output.entry)) }
    ensures error { IfErr result (IsWriteError (D.seen disk.new).gave) }
{
    match disk.target_of(name)? {
        Target::Stream => append(disk, name, read, output),
        Target::File(file) => replace_file(alloc, disk, file.as_str(), drafts, read, output),
    }
}

/// The same by drafts that outlast a crash, of which the first has the name of this number.
pub fn write_output<D: Disk>(
    alloc: Global,
    disk: &mut D,
    name: &str,
    number: u32,
    read: Option<&str>,
    output: Slices<'_>,
) -> io::Result<Written>
    ensures ok { IfWhole result (FilesChange (D.seen disk.old) (D.seen disk.new)
        (IsPut name.now (bytes_in output.entry) ((D.seen disk.old).streams name.now) ((D.seen disk.new).streams name.now))) }
    ensures unkept { IfWholeWith result (D.seen disk.new).unkept }
    ensures asked { IfWhole result (IfSome read.entry (λ read. IsAsked D.seen read.now (D.seen disk.old).files
        (λ before now. (D.seen disk.old).streams name.now ≡ None → HasDraft name.now (bytes_in output.entry) before now))) }
    ensures changed { IfChanged result (HasChanged (D.seen disk.new) read.entry) }
    ensures err { UnlessWhole result (FilesChange (D.seen disk.old) (D.seen disk.new) (AddsDrafts name.now)) }
    ensures streams { SameBut name.now (D.seen disk.old).streams (D.seen disk.new).streams }
    ensures moments { FilesPass (D.seen disk.old) (D.seen disk.new)
        (IsWriting name.now (bytes_in output.entry)) }
    ensures error { IfErr result (IsWriteError (D.seen disk.new).gave) }
{
    let drafts = Drafts {
        number,
        synced: true,
    };
    write_output_by(alloc, disk, name, drafts, read, output)
}
