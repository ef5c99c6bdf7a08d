//! An output as it is read.
ghost use Rattle.std.specs.Prelude.{◌≡◌, ◌<◌, ◌≤◌, ◌++◌, [], length, IfSome, MatchOption, true};
ghost use Rattle.teco_store.specs.Parts.{joined};

use crate::parts::Part;

/// An output in slices, one after another: the first `len` bytes of a slice that comes first, and of its parts.
#[derive(Clone, Copy)]
pub struct Slices<'a> {
    first: &'a [u8],
    own: &'a [u8],
    input: &'a [u8],
    shared: &'a [u8],
    parts: &'a [Part],
    len: usize,
    ghost within: { len ≤ length (first.now ++ joined own.now (input.now ++ shared.now) parts.now) },
}

impl<'a> Slices<'a> {
    ghost use Rattle.std.specs.Prelude.{take};
    ghost use Rattle.teco_store.specs.Slices.{bytes_in, most_slices};

    /// One slice. Takes no memory.
    pub fn of(bytes: &'a [u8]) -> Slices<'a>
        ensures { bytes_in result ≡ bytes.entry.now }
    {
        Slices {
            first: bytes,
            own: &[],
            input: &[],
            shared: &[],
            parts: &[],
            len: bytes.len(),
        }
    }

    // The first `len` bytes of some parts, which take these own bytes in turn or are parts of the source: of this input, and after it of
    // this shared text.
    pub(crate) fn new(
        own: &'a [u8],
        input: &'a [u8],
        shared: &'a [u8],
        parts: &'a [Part],
        len: usize,
    ) -> Slices<'a>
        requires { len ≤ length (joined own.now (input.now ++ shared.now) parts.now) }
        ensures { bytes_in result
            ≡ take len (joined own.entry.now (input.entry.now ++ shared.entry.now) parts.entry.now) }
    {
        Slices {
            first: &[],
            own,
            input,
            shared,
            parts,
            len,
        }
    }

    /// How many bytes there are. Takes no memory.
    pub fn len(self) -> usize
        ensures { result ≡ length (bytes_in self.entry) }
    {
        self.len
    }

    /// The first slice and the others, if any byte is left. Takes no memory.
    pub fn split_first(self) -> Option<(&'a [u8], Slices<'a>)>
        ensures bytes { MatchOption result (bytes_in self.entry ≡ [])
            (λ split. bytes_in self.entry ≡ split.0.now ++ bytes_in split.1) }
        ensures fewer { IfSome result (λ split. most_slices split.1 < most_slices self.entry) }
    {
        if self.len == 0 {
            return None;
        }
        if self.first.is_empty() {
            return self.split_parts();
        }
        let slice = &self.first[..self.first.len().min(self.len)];
        let others = Slices {
            first: &[],
            own: self.own,
            input: self.input,
            shared: self.shared,
            parts: self.parts,
            len: self.len - slice.len(),
        };
        Some((slice, others))
    }

    // The same, where the first slice is that of a part.
    fn split_parts(self) -> Option<(&'a [u8], Slices<'a>)>
        requires first { self.first.now ≡ [] }
        requires some { 0 < self.len }
        ensures bytes { MatchOption result (bytes_in self.entry ≡ [])
            (λ split. bytes_in self.entry ≡ split.0.now ++ bytes_in split.1) }
        ensures fewer { IfSome result (λ split. most_slices split.1 < most_slices self.entry) }
    {
        let (first, parts) = self.parts.split_first()?;
        let (slice, next, own) = first.split(self.own, self.input, self.shared);
        let slice = &slice[..slice.len().min(self.len)];
        let others = Slices {
            first: next,
            own,
            input: self.input,
            shared: self.shared,
            parts,
            len: self.len - slice.len(),
        };
        Some((slice, others))
    }

    /// Whether these are the bytes. Takes no memory.
    pub fn are(self, bytes: &[u8]) -> bool
        ensures { result ≡ true → bytes_in self.entry ≡ bytes.now }
    {
        let mut left = self;
        let mut wanted = bytes;
        while let Some((slice, others)) = left.split_first() {
            let Some(rest) = wanted.strip_prefix(slice) else {
                return false;
            };
            wanted = rest;
            left = others;
        }
        wanted.is_empty()
    }
}
