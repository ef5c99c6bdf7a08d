//! A reader and a writer over memory that fails.
ghost use Rattle.std.specs.Io.{ReadsAtMost, WritesAtMost};
ghost use Rattle.std.specs.Io.KnownBytes.{Keeps, ReadConsumes, WriteAppends};
ghost use Rattle.std.specs.IoError.{error_kind};
ghost use Rattle.std.specs.Prelude.{◌≡◌, ◌≤◌, ◌<◌, ◌↔◌, ◌++◌, [], Some, length, min, take, drop, vec_len, IsErr, IfErr, IfOk, IsOk, OnErr};

use std::io::{self, ErrorKind, Read, Write};
use std::marker::Model;

/// Bytes in memory that are read, or written over, from the first on. Where none is left, a read or a write fails.
///
/// It is for tests: over n bytes it is a reader, or a writer, that fails after n bytes. A call that asks for more bytes than are left
/// takes those, and the next call fails.
#[derive(Drop)]
pub struct FailAfter {
    bytes: Vec<u8>,
    at: usize,
    ghost within: { at ≤ vec_len bytes },
}

impl Model for FailAfter {
    ghost use Rattle.std.specs.Prelude.{take, drop};
    ghost use Rattle.teco_io.specs.Progress.{Progress};

    ghost Value = { Progress };

    ghost view = { λ memory. record { before = take memory.at memory.bytes.items; left = drop memory.at memory.bytes.items } };
}

impl FailAfter {
    /// Nothing is read or written yet.
    pub fn new(bytes: Vec<u8>) -> FailAfter
        ensures before { result.before ≡ [] }
        ensures left { result.left ≡ bytes.items }
    {
        FailAfter { bytes, at: 0 }
    }

    /// The bytes that were read or written.
    pub fn before(&self) -> &[u8]
        ensures { result.now ≡ self.now.before }
    {
        &self.bytes[..self.at]
    }

    /// How many of so many bytes can be read or written: as many as are left, but it fails where none is.
    fn count_of(&self, wanted: usize) -> io::Result<usize>
        ensures fails { IsErr result ↔ ((0 < wanted) × (self.now.left ≡ [])) }
        ensures count { IfOk result (λ n. n ≡ min wanted (length self.now.left)) }
        ensures kind { IfErr result (λ error. error_kind error ≡ ErrorKind.Other) }
    {
        let left = self.bytes.len() - self.at;
        if wanted > 0 && left == 0 {
            return Err(io::Error::from(ErrorKind::Other));
        }
        Ok(wanted.min(left))
    }
}

impl Read for FailAfter {
    ghost remaining = { λ memory. Some memory.left };

    fn read(&mut self, piece: &mut [u8]) -> io::Result<usize>
        ensures bound { ReadsAtMost result piece.new }
        ensures bytes { ReadConsumes (Some self.old.left) (Some self.new.left) result piece.new }
        ensures fails { IsErr result ↔ ((0 < length piece.old) × (self.old.left ≡ [])) }
        ensures count { IfOk result (λ n. n ≡ min (length piece.old) (length self.old.left)) }
        ensures given { IfOk result (λ n. piece.new ≡ take n self.old.left ++ drop n piece.old) }
        ensures before { IfOk result (λ n. self.new.before ≡ self.old.before ++ take n self.old.left) }
        ensures left { IfOk result (λ n. self.new.left ≡ drop n self.old.left) }
        ensures err { OnErr result ((self.new ≡ self.old) × (piece.new ≡ piece.old)) }
        ensures kind { IfErr result (λ error. error_kind error ≡ ErrorKind.Other) }
    {
        let n = self.count_of(piece.len())?;
        piece[..n].copy_from_slice(&self.bytes[self.at..self.at + n]);
        self.at += n;
        Ok(n)
    }
}

impl Write for FailAfter {
    ghost contents = { λ memory. Some memory.before };

    fn write(&mut self, piece: &[u8]) -> io::Result<usize>
        ensures bound { WritesAtMost result piece.now }
        ensures bytes { WriteAppends (Some self.old.before) (Some self.new.before) result piece.now }
        ensures fails { IsErr result ↔ ((0 < length piece.now) × (self.old.left ≡ [])) }
        ensures count { IfOk result (λ n. n ≡ min (length piece.now) (length self.old.left)) }
        ensures before { IfOk result (λ n. self.new.before ≡ self.old.before ++ take n piece.now) }
        ensures left { IfOk result (λ n. self.new.left ≡ drop n self.old.left) }
        ensures err { OnErr result (self.new ≡ self.old) }
        ensures kind { IfErr result (λ error. error_kind error ≡ ErrorKind.Other) }
    {
        let n = self.count_of(piece.len())?;
        self.bytes[self.at..self.at + n].copy_from_slice(&piece[..n]);
        self.at += n;
        Ok(n)
    }

    fn flush(&mut self) -> io::Result<()>
        ensures bytes { Keeps (Some self.old.before) (Some self.new.before) }
        ensures ok { IsOk result }
        ensures unchanged { self.new ≡ self.old }
    {
        Ok(())
    }
}
