//! The files of the system.
ghost use Rattle.std.specs.Prelude.{◌≡◌, ⊤, true, IfOk, None, Some};

use crate::disk::Disk;
use crate::draft::{PRIVATE, cut, make_like, open_extended, open_new};
use crate::failures::Failures;
use crate::link::link_over;
use crate::lock::{Lock, hold_opened, open_held, open_known};
use crate::shared::{ReadShared, SharedFile};
use crate::target::{Target, append, end_of_links, is_same_file, known, target_of};
use crate::unkept::Unkept;
use std::alloc::Global;
use std::fs::{Files, Metadata, OpenFile};
use std::io::{ErrorKind, Write};
use std::os::fd::AsFd;
use std::os::unix::fs::MetadataExt;
use std::{fs, io};
use teco_io::ReaderSource;
use teco_store::Slices;

/// The permissions of a new file that takes the place of no other, if the file that was opened last has none for it.
const NEW_FILE: u32 = 0o666;

/// A file that was opened, and what it was then. It stays open, so that what becomes of it still shows when it has lost its name.
#[derive(Drop)]
struct Opened<F: Drop> {
    about: Metadata,
    // nothing if it is no regular file: whoever writes to a pipe has to see that nobody reads it
    file: Option<SharedFile<F>>,
}

/// The files of the system, of which no clause tells what they hold.
#[derive(Drop)]
pub struct FileDisk<'a, R: Files> {
    rt: &'a R,
    // the file that was opened last; if it is to be replaced, other runs may have to wait for this one until it is closed
    opened: Option<Opened<R::File>>,
    // the file whose place a new one is to take
    replaced: Option<Metadata>,
    // what standard output goes to, once it was looked at
    standard: Option<Metadata>,
    // what the output that was written last could not keep
    unkept: Option<Unkept>,
    // whether the file that was last asked about was not as it was when it was opened
    changed: bool,
    failures: Failures,
}

/// A source of all that a file has, of which this is known. Both are noted.
fn noted<F: ReadShared + Drop>(
    alloc: Global,
    (file, about): (F, Metadata),
    opened: &mut Option<Opened<F>>,
) -> io::Result<ReaderSource<SharedFile<F>>> {
    let shared = SharedFile::new(alloc, file)?;
    let file = match about.is_file() {
        true => Some(shared.another()?),
        false => None,
    };
    *opened = Some(Opened { about, file });
    Ok(ReaderSource::new(shared))
}

/// Opens a file to be read, and notes what it is.
fn open_noted<R: Files + AllocGlobal>(
    rt: &R,
    name: &str,
    opened: &mut Option<Opened<R::File>>,
) -> io::Result<ReaderSource<SharedFile<R::File>>>
where
    R::File: ReadShared,
{
    let found = open_known(rt, name)?;
    noted(rt.alloc(), found, opened)
}

/// Opens a regular file, and notes what it is. It is looked at before it is opened, since a pipe would wait for its writer. The file that
/// was opened before is let go first: whoever waits for it must not wait for this one too.
fn open_regular<R: Files + AllocGlobal>(
    rt: &R,
    name: &str,
    waits: bool,
    opened: &mut Option<Opened<R::File>>,
) -> io::Result<Option<ReaderSource<SharedFile<R::File>>>>
where
    R::File: Lock + ReadShared,
{
    *opened = None;
    if !fs::metadata(rt, name)?.is_file() {
        return Ok(None);
    }
    let found = if waits {
        open_held(rt, name)?
    } else {
        open_known(rt, name)?
    };
    Ok(Some(noted(rt.alloc(), found, opened)?))
}

/// Opens a regular file to be written after what it has, or makes one, and holds it.
fn open_to_extend<R: Files>(rt: &R, name: &str) -> io::Result<R::File>
where
    R::File: Lock,
{
    let file = open_extended(rt, name)?;
    hold_opened(rt, name, &file)?;
    Ok(file)
}

/// Whether a file has the size that it had, and nobody has written to it since.
fn has_same_text(was: &Metadata, now: &Metadata) -> bool {
    was.size() == now.size() && was.mtime() == now.mtime() && was.mtime_nsec() == now.mtime_nsec()
}

/// Whether both are the same file, of the same size, which nobody has written to since. A time that was put back shows by the time at which
/// what is known of the file changed, which nobody can put back.
fn is_unchanged(was: &Metadata, now: &Metadata) -> bool {
    is_same_file(was, now)
        && has_same_text(was, now)
        && was.ctime() == now.ctime()
        && was.ctime_nsec() == now.ctime_nsec()
}

/// Whether a file that was opened is there, and is what it was.
fn is_there_unchanged<F: Drop>(opened: &Option<Opened<F>>, now: &Option<Metadata>) -> bool {
    matches!((opened, now), (Some(opened), Some(now)) if is_unchanged(&opened.about, now))
}

/// Whether a file has changed since it was opened, also if it has lost its name.
fn has_changed<F: OpenFile + Drop>(opened: &Opened<F>) -> bool {
    match &opened.file {
        Some(file) => !matches!(file.metadata(), Ok(now) if has_same_text(&opened.about, &now)),
        None => true,
    }
}

/// Gives the file that was opened last another name too, if it is what it was then. What is known of it is noted anew if nobody has written to
/// it meanwhile, since a link to a file changes what is known of it.
fn keep_opened<R: Files + AllocGlobal>(
    rt: &R,
    file: &str,
    temporary: &str,
    backup: &str,
    opened: &mut Option<Opened<R::File>>,
) -> io::Result<()>
where
    R::File: AsFd,
{
    let end = end_of_links(rt, file)?;
    let was = fs::metadata(rt, end.as_str())?;
    let Some(opened) = opened else {
        return Err(io::Error::from(ErrorKind::ResourceBusy));
    };
    if !is_unchanged(&opened.about, &was) {
        return Err(io::Error::from(ErrorKind::ResourceBusy));
    }
    link_over(rt, end.as_str(), &was, temporary, backup)?;
    let now = fs::metadata(rt, end.as_str())?;
    if is_same_file(&was, &now) && has_same_text(&was, &now) {
        opened.about = now;
    }
    Ok(())
}

impl<'a, R: Files> FileDisk<'a, R> {
    /// The files of the system. A new one is made like the one that it is to replace, if there is one, and else has the permissions of the
    /// file that was opened last, as far as the process gives them to new files.
    pub fn new(rt: &'a R) -> FileDisk<'a, R> {
        FileDisk {
            rt,
            opened: None,
            replaced: None,
            standard: None,
            unkept: None,
            changed: false,
            failures: Failures {
                times: 0,
                last: None,
            },
        }
    }

    /// The permissions with which a draft is made. One that is to take the place of a file is for its owner alone, until it has that one's.
    fn mode_of_draft(&self) -> u32 {
        match (&self.replaced, &self.opened) {
            (Some(_), _) => PRIVATE,
            (None, Some(input)) if input.about.is_file() => input.about.mode() & 0o777,
            (None, _) => NEW_FILE,
        }
    }

    /// The file that was opened last, if a new file is to take its place under this name. It has to be what it was.
    fn opened_replaced(&self, name: &str) -> io::Result<Option<&Opened<R::File>>> {
        match (&self.opened, &self.replaced) {
            (Some(opened), Some(replaced)) if is_same_file(&opened.about, replaced) => {
                if !is_unchanged(&opened.about, &fs::metadata(self.rt, name)?) {
                    return Err(io::Error::from(ErrorKind::ResourceBusy));
                }
                Ok(Some(opened))
            }
            _ => Ok(None),
        }
    }

    /// Gives a file another name, and says what it could not keep of the file that had the name. That is looked at once more afterwards.
    fn take_name(&mut self, from: &str, to: &str) -> io::Result<Option<Unkept>>
        ensures unkept { IfOk result (λ unkept. self.new.unkept ≡ unkept) }
        ensures failures { self.new.failures ≡ self.old.failures }
    {
        let replaced = self.opened_replaced(to)?;
        fs::rename(self.rt, from, to)?;
        if matches!(replaced, Some(opened) if has_changed(opened)) {
            self.unkept = Some(Unkept::Changes);
        }
        Ok(self.unkept)
    }
}

impl<'a, R: Files + AllocGlobal> Disk for FileDisk<'a, R>
where
    R::File: AsFd + Lock + ReadShared,
{
    type Input = ReaderSource<SharedFile<R::File>>;

    type Draft = R::File;

    ghost seen = { λ disk. record {
      files = None;
      streams = λ _. None;
      left = λ _. ⊤;
      failures = disk.failures.times;
      gave = λ error. disk.failures.last ≡ Some error;
      kept = λ _. ⊤;
      unremoved = λ _. ⊤;
      changed = λ _. disk.changed ≡ true;
      unkept = λ what. disk.unkept ≡ what;
    } };

    ghost is_of = { λ _ _. ⊤ };

    fn open(&mut self, name: &str) -> io::Result<ReaderSource<SharedFile<R::File>>> {
        let opened = open_noted(self.rt, name, &mut self.opened);
        self.failures.counted(opened)
    }

    fn open_to_replace(
        &mut self,
        name: &str,
        waits: bool,
    ) -> io::Result<Option<ReaderSource<SharedFile<R::File>>>> {
        let opened = open_regular(self.rt, name, waits, &mut self.opened);
        self.failures.counted(opened)
    }

    fn reopen(&mut self, name: &str) -> io::Result<ReaderSource<SharedFile<R::File>>> {
        let opened = open_noted(self.rt, name, &mut None);
        self.failures.counted(opened)
    }

    fn may_have(&self, _name: &str, size: usize) -> bool {
        !matches!(&self.opened, Some(opened) if opened.about.size() != size as u64)
    }

    fn is_as_read(&mut self, name: &str) -> io::Result<bool> {
        let now = known(self.rt, name);
        match self.failures.counted(now) {
            Ok(now) => {
                let same = is_there_unchanged(&self.opened, &now);
                self.changed = !same;
                Ok(same)
            }
            Err(error) => Err(error),
        }
    }

    fn target_of(&mut self, name: &str) -> io::Result<Target> {
        let found = target_of(self.rt, name, &mut self.standard, &mut self.replaced);
        self.failures.counted(found)
    }

    fn append(&mut self, name: &str, bytes: Slices<'_>) -> io::Result<()> {
        let appended = append(self.rt, name, bytes);
        self.unkept = None;
        self.failures.counted(appended)
    }

    fn make(&mut self, name: &str) -> io::Result<R::File> {
        let made = open_new(self.rt, name, self.mode_of_draft());
        self.failures.counted(made)
    }

    fn open_to_extend(&mut self, name: &str) -> io::Result<R::File> {
        let opened = open_to_extend(self.rt, name);
        self.failures.counted(opened)
    }

    fn write(&mut self, draft: &mut R::File, _name: &str, bytes: &[u8]) -> io::Result<()> {
        let written = draft.write_all(bytes);
        self.failures.counted(written)
    }

    fn cut(&mut self, draft: &mut R::File, _name: &str, length: u64) -> io::Result<()> {
        let done = cut(draft, length);
        self.failures.counted(done)
    }

    fn make_like(&mut self, draft: &R::File, _name: &str) {
        self.unkept = match &self.replaced {
            Some(old) => make_like(draft, old),
            None => None,
        };
    }

    fn sync(&mut self, draft: &R::File, _name: &str) -> io::Result<()> {
        let synced = draft.sync_all();
        self.failures.counted(synced)
    }

    fn keep(&mut self, file: &str, temporary: &str, backup: &str) -> io::Result<()> {
        let kept = keep_opened(self.rt, file, temporary, backup, &mut self.opened);
        self.failures.counted(kept)
    }

    fn rename(&mut self, from: &str, to: &str) -> io::Result<Option<Unkept>> {
        let renamed = self.take_name(from, to);
        self.failures.counted(renamed)
    }

    fn remove(&mut self, name: &str) -> io::Result<()> {
        fs::remove_file(self.rt, name)
    }

    fn why(&self) -> Option<ErrorKind> {
        self.failures.why()
    }
}
