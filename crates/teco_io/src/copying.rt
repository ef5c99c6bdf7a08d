//! What a read puts into its room.
ghost use Rattle.std.specs.Prelude.{◌≡◌, ◌≤◌, ◌+◌, drop, length, take};

/// Copies `n` of the bytes, from `at` on, to the front of the room.
pub fn copy_to_front(room: &mut [u8], bytes: &[u8], at: usize, n: usize)
    requires room { n ≤ length room.old }
    requires bytes { at + n ≤ length bytes.now }
    ensures front { take n room.new ≡ take n (drop at bytes.now) }
    ensures len { length room.new ≡ length room.old }
{
    room[..n].copy_from_slice(&bytes[at..at + n]);
}
