//! The failures of a disk.
ghost use Rattle.std.specs.IoError.{error_kind};
ghost use Rattle.std.specs.Prelude.{◌≡◌, IfErr, IsSome, Some};
ghost use Rattle.std.specs.declared.io.Error.{Error};
ghost use Rattle.std.specs.declared.io.ErrorKind.{ErrorKind};
ghost use Rattle.teco_fs.specs.Disk.{Counts};

use std::io;
use std::io::ErrorKind;

/// How often a call has failed, modulo 2^64, and what the last failure was.
#[derive(Drop)]
pub(crate) struct Failures {
    pub(crate) times: u64,
    pub(crate) last: Option<io::Error>,
}

impl Failures {
    /// Counts a call that failed, and notes its error.
    pub(crate) fn counted<A: Drop>(&mut self, done: io::Result<A>) -> io::Result<A>
        ensures same { result ≡ done }
        ensures count { Counts result self.old.times self.new.times }
        ensures error { IfErr result (λ error. self.new.last ≡ Some error) }
    {
        if let Err(error) = &done {
            self.times = self.times.wrapping_add(1);
            self.last = Some(*error);
        }
        done
    }

    /// What the last failure was, if a call has failed.
    pub(crate) fn why(&self) -> Option<ErrorKind>
        ensures given { (kind : ErrorKind) → result ≡ Some kind
            → (error : Error) × (self.now.last ≡ Some error) × (error_kind error ≡ kind) }
        ensures told { (error : Error) → self.now.last ≡ Some error → IsSome result }
    {
        match &self.last {
            Some(error) => Some(error.kind()),
            None => None,
        }
    }
}
