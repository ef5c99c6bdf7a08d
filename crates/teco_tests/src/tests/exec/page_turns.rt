//! Strings over an input of two pages under a limit of steps: each page that is turned, read or searched is a step, and an exit ends
//! the run.

/// Over the pages `a` and `b`.
pub(super) const ROWS: &str = "
    // Each page that is turned is a step.
    2PHT => b => => 5 => => a\x0c => a\x0cb
    3PZ= => 0\r\n => => 6 => => a\x0cb => a\x0cb
    0P => => IPA => 2 => => - => a\x0cb
    2<P>Z= => 1\r\n => => 8 => => a\x0c => a\x0cb
    YY => => YCA => 2 => => - => a\x0cb
    // Pages are read and written.
    YHT => a => => 3 => => - => a\x0cb
    Y^E=HKY^E=HT => -1\r\n0\r\nb => => 10 => => - => a\x0cb
    1Y => => ARG => 2 => => - => a\x0cb
    YAHT.= => ab0\r\n => => 6 => => - => a\x0cb
    A^N=A^N=A^N=HT => 0\r\n-1\r\n-1\r\nab => => 11 => => - => a\x0cb
    (A => => MRP => 2 => => - => a\x0cb
    PHT => a => => 3 => => - => a\x0cb
    -P => => IPA => 2 => => - => a\x0cb
    HP => => ARG => 2 => => - => a\x0cb
    YPW1,0PWHT => a => => 8 => => a\x0ca => a\x0cb
    1PW => => ARG => 2 => => - => a\x0cb
    Y0,2PW => => POP => 5 => => - => a\x0cb
    1EX => => ARG => 2 => => - => a\x0cb
    (EX => => MRP => 2 => => - => a\x0cb
    // N turns the pages in which it has not found what is wanted.
    YNb\x1bHT.= => b1\r\n => => 8 => => a\x0c => a\x0cb
    Nb\x1b.= => 1\r\n => => 7 => => a\x0c => a\x0cb
    YNa\x1bN\x1b => => SRH => 5 => => a\x0c => a\x0cb
    2Nb\x1b => => SRH => 6 => => a\x0c => a\x0cb
    2:Nb\x1b=HT => 0\r\nb => => 9 => => a\x0c => a\x0cb
    <Nb\x1b;HT> => b => => 12 => => a\x0c => a\x0cb
    0Na\x1b => => ISA => 2 => => - => a\x0cb
    N\x1b => => ISS => 1 => => - => a\x0cb
    HNa\x1b => => ARG => 2 => => - => a\x0cb
    // _ reads the next page where the buffer is empty.
    _a\x1b.= => 1\r\n => => 5 => => - => a\x0cb
    _b\x1b => => YCA => 4 => => - => a\x0cb
    Y_b\x1b => => YCA => 3 => => - => a\x0cb
    P2:_a\x1b => => YCA => 4 => => - => a\x0cb
    2P:_a\x1b=HT => 0\r\nb => => 7 => => a\x0c => a\x0cb
    -_a\x1b => => ISA => 2 => => - => a\x0cb
    (_a\x1b => => MRP => 2 => => - => a\x0cb
    // Pages are turned up to the limit.
    2P => => LIM => 2 => 2 => - => a\x0cb
    2147483647P => => LIM => 5 => 5 => a\x0cb => a\x0cb
    YNb\x1b => => => 4 => 4 => a\x0c => a\x0cb
    YNb\x1b => => LIM => 3 => 3 => a\x0c => a\x0cb
    YNb\x1b => => LIM => 2 => 2 => - => a\x0cb
    _a\x1b => => LIM => 2 => 2 => - => a\x0cb
    // Strings end at their limit. The last is an iteration without end, under the limit that strings have by default.
    1=\x1b => => LIM => 0 => 0 => - => a\x0cb
    1=\x1b => => LIM => 1 => 1 => - => a\x0cb
    1=\x1b => 1\r\n => => 2 => 2 => - => a\x0cb
    !x!Ox\x1b => => LIM => 5 => 5 => - => a\x0cb
    <> => => LIM => 10 => 10 => - => a\x0cb
    <> => => LIM => 1000 => => - => a\x0cb
    <Ox\x1b!x!> => => LIM => 1000 => => - => a\x0cb
    <> => => LIM => 1000000 => 1000000 => - => a\x0cb
    // An exit ends the run, and writes the pages that were not read too.
    YEX1= => => EX => 2 => => a\x0cb => a\x0cb
    3<YEX> => => EX => 4 => => a\x0cb => a\x0cb
    @^UA/EX/YMA1= => => EX => 4 => => a\x0cb => a\x0cb
    YIx\x1bEX => => EX => 3 => => xa\x0cb => a\x0cb
    @N/b/EX => => EX => 6 => => a\x0cb => a\x0cb
    ";
