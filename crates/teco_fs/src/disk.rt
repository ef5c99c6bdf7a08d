//! Where files are.
ghost use Rattle.std.specs.IoError.{error_kind};
ghost use Rattle.std.specs.Prelude.{◌≡◌, ◌≢◌, ◌⊎◌, ℕ, List, OnErr, OnOk};
ghost use Rattle.std.specs.declared.io.Error.{Error};
ghost use Rattle.std.specs.declared.io.ErrorKind.{ErrorKind};
ghost use Rattle.std.specs.Prelude.{[], None, Some, IfOk, IfSome, IsNone, IsSome, true, false};
ghost use Rattle.teco_fs.specs.Disk.{Appends, AppendsFront, Creates, CutsTo, HasOtherSize, IsKeepingBy, IsStream, IsTargetOf, IsThere, KeepsAs, LeavesFiles, Opens, Removes, Renames, Same, SameBut};
ghost use Rattle.teco_fs.specs.State.{DiskState, FilesChange, FilesPass, KeepsFiles, KeepsStreams, KeepsStreamsUntold, Looks, LooksUntold};
ghost use Rattle.teco_store.specs.Slices.{bytes_in};

use crate::target::Target;
use crate::unkept::Unkept;
use std::io;
use std::io::ErrorKind;
use teco_io::Source;
use teco_store::Slices;

/// Where files are, by their names. Each call is one of the system's.
pub trait Disk {
    /// What a file is read from.
    type Input: Source + Drop;

    /// A file that is new or is to be extended, open to be written.
    type Draft: Drop;

    // the disk at a moment
    ghost seen: { Self → DiskState };

    // the draft was made or opened under this name
    ghost is_of: { Self.Draft → List ℕ → Type 0 };

    /// Opens a file, to be read from its beginning to its end.
    fn open(&mut self, name: &str) -> io::Result<Self::Input>
        ensures input { IfOk result (λ input. Opens (seen self.old).files name.now (Self.Input.coming input)) }
        ensures still { Looks result (seen self.old) (seen self.new) };

    /// Opens a regular file that is to be replaced once it was read. What is no regular file is not opened: there is nothing to replace,
    /// and a pipe would wait for its writer. If it `waits`, it first waits for each other run that opened the file so and waited.
    fn open_to_replace(&mut self, name: &str, waits: bool) -> io::Result<Option<Self::Input>>
        ensures input { IfOk result (λ found. IfSome found (λ input. Opens (seen self.old).files name.now (Self.Input.coming input))) }
        ensures other { IfOk result (λ found. IsNone found → IsStream (seen self.old).files (seen self.old).streams name.now) }
        ensures still { Looks result (seen self.old) (seen self.new) };

    /// Opens a file once more, to be compared. [`Disk::is_as_read`] still speaks of the one that was opened to be read.
    fn reopen(&mut self, name: &str) -> io::Result<Self::Input>
        ensures input { IfOk result (λ input. Opens (seen self.old).files name.now (Self.Input.coming input)) }
        ensures still { Looks result (seen self.old) (seen self.new) };

    /// Whether the file of this name may have so many bytes, by what was known of it when it was opened, if it is the one that was opened
    /// last.
    fn may_have(&self, name: &str, size: usize) -> bool
        ensures other { result ≡ false → HasOtherSize (seen self.now).files name.now size };

    /// Whether the file of this name is still what it was when it was opened, if it is the one that was opened last.
    fn is_as_read(&mut self, name: &str) -> io::Result<bool>
        ensures told { IfOk result (λ same. same ≡ false → (seen self.new).changed name.now) }
        ensures right { IfOk result (λ same. same ≡ true → (seen self.new).changed name.now → ⊥) }
        ensures kept { (file : List ℕ) → (seen self.old).kept file → (seen self.new).kept file }
        ensures still { Looks result (seen self.old) (seen self.new) };

    /// Where the output of this name goes. A disk that tells its files tells too which names are no files.
    fn target_of(&mut self, name: &str) -> io::Result<Target>
        ensures target { IfOk result (λ target. (seen self.old).files ≢ None → IsTargetOf (seen self.old).streams name.now target) }
        ensures still { Looks result (seen self.old) (seen self.new) };

    /// Writes the bytes after what a device, a pipe or a socket has been given, or some of them where it fails.
    fn append(&mut self, name: &str, bytes: Slices<'_>) -> io::Result<()>
        ensures ok { OnOk result
            (Appends name.now (bytes_in bytes.entry) (seen self.old).streams (seen self.new).streams) }
        ensures others { SameBut name.now (seen self.old).streams (seen self.new).streams }
        ensures unkept { OnOk result ((seen self.new).unkept None) }
        ensures still { KeepsFiles result (seen self.old) (seen self.new) };

    /// Makes a new file, which has no bytes yet. A file or a link that has the name already is not touched, and the call fails.
    fn make(&mut self, name: &str) -> io::Result<Self::Draft>
        ensures ok { OnOk result (FilesChange (seen self.old) (seen self.new) (Creates name.now [])) }
        ensures draft { IfOk result (λ draft. is_of draft name.now) }
        ensures err { OnErr result (FilesChange (seen self.old) (seen self.new) Same) }
        ensures moments { FilesPass (seen self.old) (seen self.new) (SameBut name.now) }
        ensures still { KeepsStreams result (seen self.old) (seen self.new) };

    /// Opens a regular file that is to be extended, or makes one, for its owner alone, where none has the name. It is held until the draft is
    /// closed: while another run holds it, the call fails. Where files of that kind can't be held, it isn't. [`Disk::is_as_read`] still
    /// speaks of the file that was opened to be read.
    fn open_to_extend(&mut self, name: &str) -> io::Result<Self::Draft>
        ensures ok { OnOk result (FilesChange (seen self.old) (seen self.new) (IsThere name.now)) }
        ensures draft { IfOk result (λ draft. is_of draft name.now) }
        ensures err { OnErr result (FilesChange (seen self.old) (seen self.new) Same) }
        ensures moments { FilesPass (seen self.old) (seen self.new)
            (λ before now. Same before now ⊎ Creates name.now [] before now) }
        ensures still { KeepsStreams result (seen self.old) (seen self.new) };

    /// Writes all the bytes after those that a draft has, or a beginning of them where it fails.
    fn write(&mut self, draft: &mut Self::Draft, name: &str, bytes: &[u8]) -> io::Result<()>
        requires { is_of draft.old name.now }
        ensures ok { OnOk result (FilesChange (seen self.old) (seen self.new) (Appends name.now bytes.now)) }
        ensures draft { is_of draft.new name.now }
        ensures err { OnErr result (FilesChange (seen self.old) (seen self.new) (AppendsFront name.now bytes.now)) }
        ensures moments { FilesPass (seen self.old) (seen self.new) (AppendsFront name.now bytes.now) }
        ensures still { KeepsStreams result (seen self.old) (seen self.new) };

    /// Cuts off what a draft has after its first bytes, of which this many stay. One that has no more stays as it is.
    fn cut(&mut self, draft: &mut Self::Draft, name: &str, length: u64) -> io::Result<()>
        requires { is_of draft.old name.now }
        ensures ok { OnOk result (FilesChange (seen self.old) (seen self.new) (CutsTo name.now length)) }
        ensures draft { is_of draft.new name.now }
        ensures err { OnErr result (FilesChange (seen self.old) (seen self.new) Same) }
        ensures moments { FilesPass (seen self.old) (seen self.new)
            (λ before now. Same before now ⊎ CutsTo name.now length before now) }
        ensures still { KeepsStreams result (seen self.old) (seen self.new) };

    /// Gives a draft the owner and the permissions of the file whose place it is to take, as far as the system lets us. If no file is
    /// there, the draft has the permissions of the file that was opened last.
    fn make_like(&mut self, draft: &Self::Draft, name: &str)
        requires { is_of draft.now name.now }
        ensures still { LooksUntold (seen self.old) (seen self.new) };

    /// Waits until what a draft has outlasts a crash.
    fn sync(&mut self, draft: &Self::Draft, name: &str) -> io::Result<()>
        requires { is_of draft.now name.now }
        ensures kept { OnOk result ((seen self.new).kept name.now) }
        ensures still { Looks result (seen self.old) (seen self.new) };

    /// Gives the file that was opened last this other name too, in one moment. What had that name before is gone, and the file may have the
    /// temporary name meanwhile. [`Disk::is_as_read`] says the same of it as before.
    fn keep(&mut self, file: &str, temporary: &str, backup: &str) -> io::Result<()>
        ensures ok { OnOk result (FilesChange (seen self.old) (seen self.new) (KeepsAs file.now backup.now)) }
        ensures err { OnErr result (FilesChange (seen self.old) (seen self.new) (LeavesFiles temporary.now)) }
        ensures moments { FilesPass (seen self.old) (seen self.new) (IsKeepingBy file.now temporary.now backup.now) }
        ensures still { KeepsStreams result (seen self.old) (seen self.new) };

    /// Gives a file another name, in one moment, if its bytes outlast a crash. What had that name before is gone. Says what the file could
    /// not keep of it.
    fn rename(&mut self, from: &str, to: &str) -> io::Result<Option<Unkept>>
        requires { from.now ≢ to.now }
        ensures ok { OnOk result (FilesChange (seen self.old) (seen self.new) (Renames from.now to.now)) }
        ensures err { OnErr result (FilesChange (seen self.old) (seen self.new) Same) }
        ensures unkept { IfOk result (seen self.new).unkept }
        ensures moments { (seen self.old).kept from.now → FilesPass (seen self.old) (seen self.new)
            (λ before now. Same before now ⊎ Renames from.now to.now before now) }
        ensures still { KeepsStreams result (seen self.old) (seen self.new) };

    /// Removes a file. A failure is not counted: it is told of no file that a user named.
    fn remove(&mut self, name: &str) -> io::Result<()>
        ensures ok { OnOk result (FilesChange (seen self.old) (seen self.new) (Removes name.now)) }
        ensures err { OnErr result ((seen self.new).unremoved name.now) }
        ensures others { FilesChange (seen self.old) (seen self.new) (SameBut name.now) }
        ensures moments { FilesPass (seen self.old) (seen self.new) (SameBut name.now) }
        ensures still { KeepsStreamsUntold (seen self.old) (seen self.new) };

    /// What the last call failed by, of those whose failures are counted. None has failed if there is nothing.
    fn why(&self) -> Option<ErrorKind>
        ensures given { (kind : ErrorKind) → result ≡ Some kind → (error : Error) × (seen self.now).gave error × (error_kind error ≡ kind) }
        ensures told { (error : Error) → (seen self.now).gave error → IsSome result };
}
