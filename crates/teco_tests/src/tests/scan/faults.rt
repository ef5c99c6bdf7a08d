//! Faults of spelling, the order in which errors are told, and the limits of what may be open.

pub(crate) const ROWS: &str = "
    // Texts that end too early are UTC.
    Iab => => UTC => 0
    \tab => => UTC => 0
    ^Uaab => => UTC => 0
    ^Ax => => UTC => 0
    Sa => => UTC => 0
    Na => => UTC => 0
    _a => => UTC => 0
    FSa => => UTC => 0
    FSa\x1bb => => UTC => 0
    Oa => => UTC => 0
    !a => => UTC => 0
    @I => => UTC => 0
    @I/a => => UTC => 0
    @^Ua => => UTC => 0
    @^Ua/b => => UTC => 0
    @^A/b => => UTC => 0
    @S/a => => UTC => 0
    @FS/a => => UTC => 0
    @FS/a/b => => UTC => 0
    @O => => UTC => 0
    // Commands that end too early are UTC, after their first byte too.
    :Q => => UTC => 0
    :G => => UTC => 0
    ^U => => UTC => 0
    ^^ => => UTC => 0
    ^A => => UTC => 0
    \x15a => => UTC => 0
    1< => => UTC => 2
    1\"E => => UTC => 2
    0\"N1| => => UTC => 2
    @^Ua/I/Ma => => UTC => 2
    @^Ua/1</Ma> => => UTC => 4
    // Names of no register are refused.
    Q? => => IQN => 0
    :Q? => => IQN => 0
    %? => => IQN => 0
    U? => => IQN => 0
    X? => => IQN => 0
    G? => => IQN => 0
    :G? => => IQN => 0
    [? => => IQN => 0
    ]? => => IQN => 0
    M? => => IQN => 0
    ^U?a\x1b => => IQN => 0
    @^U?/a/ => => IQN => 0
    Q a => => IQN => 0
    Q\x1b => => IQN => 0
    Q@ => => IQN => 0
    ::Q? => => ILL => 0
    @Q? => => ILL => 0
    :U? => => ILL => 0
    1\"Z => => IQC => 1
    1\" E => => IQC => 1
    \"? => => IQC => 0
    0<Q?> => => IQN => 2
    0<\"?> => => IQC => 2
    5UzQZ=q0= => 5\r\n0\r\n => => 6
    // Names of no command are ILL; of single bytes session/single_bytes has all.
    ^B => => ILL => 0
    ^I => => ILL => 0
    ^? => => ILL => 0
    ^  => => ILL => 0
    ^( => => ILL => 0
    EQ => => ILL => 0
    E  => => ILL => 0
    ER => => ILL => 0
    FR => => ILL => 0
    F  => => ILL => 0
    === => => ILL => 0
    \u{e9} => => ILL => 0
    // Faults in blocks are told where they are.
    1=== => => ILL => 1
    1=~ => 1\r\n => ILL => 2
    1\"G||' => => ILL => 2
    1\"G1||' => => ILL => 3
    1<|> => => ILL => 2
    1<'> => => ILL => 2
    0<'> => => ILL => 2
    1\"G>' => => BNI => 2
    0\"G>' => => BNI => 2
    0<~> => => ILL => 2
    0<<?>> => => ILL => 2
    0<<J> => => UTC => 2
    0\"G~' => => ILL => 2
    0<I~\x1b> => => => 2
    // Errors of searches come in their order.
    0S\x1b => => ISA => 2
    S\x1b => => ISS => 1
    S\x12\x1b => => ICE => 1
    0S\x12\x1b => => ISA => 2
    1,0S\x12\x1b => => ARG => 4
    (0S\x12\x1b => => MRP => 3
    1+S\x1b => => ARG => 3
    ::S\x12\x1b => => ICE => 1
    ::S\x1b => => ISS => 1
    1::S\x12\x1b => => ARG => 2
    0FS\x1ba\x1b => => ISA => 2
    FS\x12\x1ba\x1b => => ICE => 1
    @FS//a/ => => ISS => 1
    // Errors of commands come in their order.
    1+= => => ARG => 3
    1,= => => ARG => 3
    (1+= => => MRP => 4
    \"E' => => NAQ => 1
    1,\"E' => => ARG => 3
    (256I\x1b => => MRP => 3
    1,\tx\x1b => => ARG => 3
    1; => => SNI => 2
    1,2; => => ARG => 4
    (; => => MRP => 2
    1Ox\x1b => => ARG => 2
    Ox\x1b => => TAG => 1
    1,0P => => ARG => 4
    1 99999999999 => => OVF => 2
    1 2 => => ARG => 2
    2147483647Ua%aQa= => => OVF => 3
    // Limits are reached.
    64<[A>[A => => PDO => 131
    64<[A>64<]A>]A => => CPQ => 261
    ((((((((((((((((1))))))))))))))))= => 1\r\n => => 34
    ((((((((((((((((( => => PDO => 17
    @^UA/%B-32\"LMA'/MAQB= => 32\r\n => => 163
    @^UA/%B-33\"LMA'/MA => => PDO => 162
    @^UA/MB/@^UB/MA/MA => => PDO => 35
    1<1<1<1<1<1<1<1<1<1<1<1<1<1<1<1<1<1<1<1<1<1<1<1<1<1<1<1<1<1<1<1<1<1<1<1<1<1<1<1<1<1<1<1<1<1<1<1<1<1<1<1<1<1<1<1<1<1<1<1<1<1<1<1<>>>>>>>>>>>>>>>>>>>>>>>>>>>>>>>>>>>>>>>>>>>>>>>>>>>>>>>>>>>>>>>> => => => 192
    1<1<1<1<1<1<1<1<1<1<1<1<1<1<1<1<1<1<1<1<1<1<1<1<1<1<1<1<1<1<1<1<1<1<1<1<1<1<1<1<1<1<1<1<1<1<1<1<1<1<1<1<1<1<1<1<1<1<1<1<1<1<1<1<1< => => PDO => 129
    // Limits are reached in passing: a block that is passed over has the same limit, and a jump finds nothing past it.
    0<<<<<<<<<<<<<<<<<<<<<<<<<<<<<<<<<<<<<<<<<<<<<<<<<<<<<<<<<<<<<<<< => => UTC => 2
    0<<<<<<<<<<<<<<<<<<<<<<<<<<<<<<<<<<<<<<<<<<<<<<<<<<<<<<<<<<<<<<<<< => => PDO => 2
    1<1<1<1<1<1<1<1<1<1<1<1<1<1<1<1<1<1<1<1<1<1<1<1<1<1<1<1<1<1<1<1<1<1<1<1<1<1<1<1<1<1<1<1<1<1<1<1<1<1<1<1<1<1<1<1<1<1<1<1<1<1<1<1<Ox\x1b<>!x! => => TAG => 129
    ";
