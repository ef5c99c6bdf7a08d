//! Iterations, with `;` and without.

pub(super) const ROWS: &str = "
    0<?>1=\x1b => => ILL => 2
    1=>2=\x1b => 1\r\n => BNI => 2
    3<Ix\x1b>\x1b => => => 8
    0<Ix\x1b>1=\x1b => 1\r\n => => 4
    2<3<1=>>\x1b => 1\r\n1\r\n1\r\n1\r\n1\r\n1\r\n => => 26
    <1\"E|1;'5J>7=\x1b => 7\r\n => => 7
    <;>1=\x1b => 1\r\n => => 4
    ";
