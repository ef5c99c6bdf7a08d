//! Histories with a depth, which keep the last strings alone.

/// Streams and what they type, where two strings are kept.
pub(super) const ROWS: &str = "
    Ia$$Ib$$2{$$HT.=$$ => 0\r\n => => => => => 2
    Ia$$Ib$$Ic$$3{$$HT.=$$ => ?NTU\r\na1\r\n => => => => => 2
    Ia$$Ib$$Ic$$3{$$2}$$HT.=$$ => ?NTU\r\nabc3\r\n => => => => => 2
    Ia$$Ib$$Ic$$3{$$2}$$2{$$Id$$2{$$HT.=$$ => ?NTU\r\n?NTU\r\na1\r\n => => => => => 2
    ";
