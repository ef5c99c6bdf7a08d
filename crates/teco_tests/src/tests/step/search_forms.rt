//! The forms of arguments before searches and the commands of pages: none, n, m,n, a lone sign, after an open parenthesis, an operator
//! and a comma.

pub(crate) const ROWS: &str = "
    // Searches take their forms.
    Iaa\x1bJSa\x1b.= => 1\r\n
    Iaa\x1bJ2Sa\x1b.= => 2\r\n
    Iaa\x1bJ1,2Sa\x1b => => ARG
    Iaa\x1b-Sa\x1b.= => 2\r\n
    (Sa\x1b => => MRP
    0+Sa\x1b => => ARG
    0,Sa\x1b => => ARG
    Iaa\x1bJ:Sa\x1b= => -1\r\n
    Iaa\x1bJ3:Sa\x1b= => 0\r\n
    Iaa\x1bJ1,2:Sa\x1b => => ARG
    Iaa\x1b-:Sa\x1b= => -1\r\n
    (:Sa\x1b => => MRP
    0+:Sa\x1b => => ARG
    0,:Sa\x1b => => ARG
    Iaa\x1bJ::Sa\x1b= => -1\r\n
    Iaa\x1bJ1::Sa\x1b => => ARG
    Iaa\x1bJ1,2::Sa\x1b => => ARG
    Iaa\x1b-::Sa\x1b => => ARG
    (::Sa\x1b => => MRP
    0+::Sa\x1b => => ARG
    0,::Sa\x1b => => ARG
    // Replacements take their forms.
    Iaa\x1bJFSa\x1bb\x1bHT => ba
    Iaa\x1bJ2FSa\x1bb\x1bHT => ab
    Iaa\x1bJ1,2FSa\x1bb\x1b => => ARG
    Iaa\x1b-FSa\x1bb\x1bHT => ab
    (FSa\x1bb\x1b => => MRP
    0+FSa\x1bb\x1b => => ARG
    0,FSa\x1bb\x1b => => ARG
    Iaa\x1bJ:FSa\x1bb\x1b= => -1\r\n
    Iaa\x1bJ3:FSa\x1bb\x1b= => 0\r\n
    Iaa\x1bJ1,2:FSa\x1bb\x1b => => ARG
    Iaa\x1b-:FSa\x1bb\x1b= => -1\r\n
    (:FSa\x1bb\x1b => => MRP
    0+:FSa\x1bb\x1b => => ARG
    0,:FSa\x1bb\x1b => => ARG
    // So do those that are written otherwise, and names that only begin as theirs.
    Iaa\x1bJ \nFSa\x1bb\x1bHT => ba
    Iaa\x1bJfsa\x1bb\x1bHT => ba
    Iaa\x1bJFsa\x1bb\x1bHT => ba
    Iaa\x1bJfSa\x1bb\x1bHT => ba
    Iaa\x1bJ@FS/a/b/HT => ba
    Iaa\x1bJ2@FS/a/b/HT => ab
    Iaa\x1bJ:@FS/a/b/= => -1\r\n
    Iaa\x1bJFSa\x1b\x1b.=HT => 0\r\na
    Iaa\x1bJFSa\x1b/\nb\x1bHT => /\nba
    FS\x1ba\x1b => => ISS => 1
    F => => UTC => 0
    FS => => UTC => 0
    FS\x1b => => UTC => 0
    FSa\x1b => => UTC => 0
    Iaa\x1bJFSa => => UTC => 2
    Iaa\x1bJFSa\x1bb => => UTC => 2
    @F => => UTC => 0
    FX => => ILL => 0
    FXa\x1bb\x1b => => ILL => 0
    F Sa\x1bb\x1b => => ILL => 0
    F\x1bSa\x1bb\x1b => => ILL => 0
    // The case mode takes its forms.
    ^X => => ARG
    0^X =>
    0,-1^X => => ARG
    -^X =>
    +^X => => ARG
    (^X => => MRP
    0+^X => => ARG
    0,^X => => ARG
    // Searches over pages take their forms.
    Iaa\x1bJNa\x1b.= => 1\r\n
    Iaa\x1bJ2Na\x1b.= => 2\r\n
    Iaa\x1bJ3Na\x1b => => SRH
    Iaa\x1bJ+Na\x1b.= => 1\r\n
    -Na\x1b => => ISA
    0Na\x1b => => ISA
    N\x1b => => ISS
    0N\x1b => => ISA
    1,2Na\x1b => => ARG
    (Na\x1b => => MRP
    0+Na\x1b => => ARG
    0,Na\x1b => => ARG
    Iaa\x1bJ2:Na\x1b= => -1\r\n
    Iaa\x1bJ3:Na\x1b= => 0\r\n
    -:Na\x1b => => ISA
    Iaa\x1bJ_a\x1b.= => 1\r\n
    Iaa\x1bJ2_a\x1b.= => 2\r\n
    Iaa\x1bJ3_a\x1b => => SRH
    -_a\x1b => => ISA
    0_a\x1b => => ISA
    1,2_a\x1b => => ARG
    (_a\x1b => => MRP
    0+_a\x1b => => ARG
    0,_a\x1b => => ARG
    Iaa\x1bJ3:_a\x1b= => 0\r\n
    // Pages take their forms.
    YZ= => 0\r\n
    1Y => => ARG
    0,0Y => => ARG
    -Y => => ARG
    (Y => => MRP
    0+Y => => ARG
    0,Y => => ARG
    Ia\x1bY => => YCA
    Ia\x1b1Y => => ARG
    Ia\x1bA.= => 1\r\n
    Iab\x1bJ0A= => 97\r\n
    Iab\x1bJ0,0A-96T => a
    Iab\x1b-A= => 98\r\n
    Iab\x1bJ(0A)= => 97\r\n
    (A => => MRP
    0+A => => ARG
    0,A => => ARG
    Ia\x1bPZ= => 0\r\n
    Ia\x1b1PZ= => 0\r\n
    1,2P => => ARG
    -P => => IPA
    0P => => IPA
    Ia\x1b+PZ= => 0\r\n
    (P => => MRP
    0+P => => ARG
    0,P => => ARG
    // Writing takes its forms.
    Ia\x1bPWHT => a
    1PW => => ARG
    Ia\x1b1,0PWHT => a
    -PW => => ARG
    0,1PW => => POP
    (PW => => MRP
    0+PW => => ARG
    0,PW => => ARG
    EX =>
    1EX => => ARG
    0,0EX => => ARG
    -EX => => ARG
    (EX => => MRP
    0+EX => => ARG
    0,EX => => ARG
    ";
