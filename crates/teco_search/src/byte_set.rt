//! Sets of bytes, and where a slice has the first or the last of one.
ghost use Rattle.std.specs.Prelude.{◌≡◌, ◌<◌, ◌||◌, ◌==◌, ℕ, Some, IfSome, slice_get};
ghost use Rattle.memchr.specs.Find.{IsFirstByte, IsLastByte};
ghost use Rattle.teco_search.specs.ByteSet.{contains, in_table};

use crate::element::Class;
use crate::passing::{first_passing, last_passing};
use memchr::{memchr, memchr2, memchr3, memrchr, memrchr2, memrchr3};

/// A set of bytes, kept as a scan for it is fastest.
#[derive(Clone, Copy)]
pub(crate) enum ByteSet {
    Empty,
    One(u8),
    Two(u8, u8),
    Three(u8, u8, u8),
    /// The bytes of a kind.
    Kind(Class),
    /// Whether each byte is in the set.
    Table([bool; 256]),
}

impl ByteSet {
    /// The set with one more byte; none where it is no set of at most two bytes.
    fn with(self, byte: u8) -> Option<ByteSet>
        ensures { IfSome result (λ set. (b : ℕ) → contains set b ≡ (contains self b || b == byte)) }
    {
        match self {
            ByteSet::Empty => Some(ByteSet::One(byte)),
            ByteSet::One(a) => Some(ByteSet::Two(a, byte)),
            ByteSet::Two(a, b) => Some(ByteSet::Three(a, b, byte)),
            ByteSet::Three(..) | ByteSet::Kind(_) | ByteSet::Table(_) => None,
        }
    }

    /// The bytes that a table has.
    pub(crate) fn of(table: [bool; 256]) -> ByteSet
        ensures { (b : ℕ) → b < 256 → contains result b ≡ in_table table b }
    {
        let mut set = ByteSet::Empty;
        'bytes: for byte in 0..256usize {
            if table[byte] {
                let Some(more) = set.with(byte as u8) else {
                    return ByteSet::Table(table);
                };
                set = more;
            }
        }
        set
    }

    /// Whether a byte is in the set.
    #[inline]
    fn has(&self, byte: u8) -> bool
        ensures { result ≡ contains self.now byte }
    {
        match self {
            ByteSet::Empty => false,
            ByteSet::One(a) => byte == *a,
            ByteSet::Two(a, b) => byte == *a || byte == *b,
            ByteSet::Three(a, b, c) => byte == *a || byte == *b || byte == *c,
            ByteSet::Kind(class) => class.contains(byte),
            ByteSet::Table(table) => table[usize::from(byte)],
        }
    }

    /// The first place of a slice whose byte is in the set, by a scan.
    fn scan(&self, bytes: &[u8]) -> Option<usize>
        ensures { IsFirstByte (contains self.now) bytes.now result }
    {
        match self {
            ByteSet::Empty => None,
            ByteSet::One(a) => memchr(*a, bytes),
            ByteSet::Two(a, b) => memchr2(*a, *b, bytes),
            ByteSet::Three(a, b, c) => memchr3(*a, *b, *c, bytes),
            ByteSet::Kind(class) => first_passing(class, bytes),
            ByteSet::Table(table) => first_passing(table, bytes),
        }
    }

    /// The last place of a slice whose byte is in the set, by a scan.
    fn scan_back(&self, bytes: &[u8]) -> Option<usize>
        ensures { IsLastByte (contains self.now) bytes.now result }
    {
        match self {
            ByteSet::Empty => None,
            ByteSet::One(a) => memrchr(*a, bytes),
            ByteSet::Two(a, b) => memrchr2(*a, *b, bytes),
            ByteSet::Three(a, b, c) => memrchr3(*a, *b, *c, bytes),
            ByteSet::Kind(class) => last_passing(class, bytes),
            ByteSet::Table(table) => last_passing(table, bytes),
        }
    }

    /// The first place of a slice whose byte is in the set. The first byte is looked at before a scan is set up.
    #[inline]
    pub(crate) fn first_in(&self, bytes: &[u8]) -> Option<usize>
        ensures { IsFirstByte (contains self.now) bytes.now result }
    {
        if !bytes.is_empty() && self.has(bytes[0]) {
            return Some(0);
        }
        self.scan(bytes)
    }

    /// The last place of a slice whose byte is in the set. The last byte is looked at before a scan is set up.
    #[inline]
    pub(crate) fn last_in(&self, bytes: &[u8]) -> Option<usize>
        ensures { IsLastByte (contains self.now) bytes.now result }
    {
        let len = bytes.len();
        if len > 0 && self.has(bytes[len - 1]) {
            return Some(len - 1);
        }
        self.scan_back(bytes)
    }
}
