//! Each command, with what the tests that must see all of them read.

/// A command with its operand, the modifiers that it admits, and how the first byte of its name ends as a command string: the letters
/// of a code, if it ends by one, and its steps. A shorter name comes before a longer one that begins with it.
pub(crate) const COMMANDS: &str = "
    // Numbers, and what builds arguments.
    5 => => => 1
    B => => => 1
    Z => => => 1
    . => => => 1
    H => => => 1
    + => => => 1
    - => => => 1
    * => => ARG => 1
    / => => ARG => 1
    & => => ARG => 1
    # => => ARG => 1
    ( => => => 1
    ) => => ARG => 1
    , => => ARG => 1
    ^E => => => 1
    ^N => => => 1
    ^^a => => UTC => 0
    A => => => 1
    \\ => => => 1
    // Commands after which nothing follows; three equals signs are refused.
    J => => => 1
    C => => POP => 1
    R => => POP => 1
    L => => => 1
    D => => DTB => 1
    K => => => 1
    T => => => 1
    V => => => 1
    ^T => => ARG => 1
    = => [:] => NAE => 1
    == => [:] => NAE => 1
    === => => NAE => 1
    Y => => => 1
    P => => => 1
    PW => => => 1
    EX => => UTC => 0
    ; => => SNI => 1
    ^X => => ARG => 1
    // Commands on a register.
    Qa => [:] => UTC => 0
    %a => => UTC => 0
    Ua => => UTC => 0
    Xa => => UTC => 0
    Ga => [:] => UTC => 0
    Ma => => UTC => 0
    [a => => UTC => 0
    ]a => => UTC => 0
    // Commands with a text.
    I/a\x1b/ => [@] => UTC => 0
    \ta\x1b => => UTC => 0
    ^A/b\x01/ => [@] => UTC => 0
    S/a\x1b/ => [:][::][@][:@] => UTC => 0
    N/a\x1b/ => [:][@][:@] => UTC => 0
    _/a\x1b/ => [:][@][:@] => UTC => 0
    O/a\x1b/ => [@] => UTC => 0
    FS/a\x1b/b\x1b/ => [:][@][:@] => UTC => 0
    ^Ua/b\x1b/ => [@] => UTC => 0
    // Marks of blocks, tags and ESC.
    < => => UTC => 1
    > => => BNI => 0
    \"E => => UTC => 0
    | => => ILL => 0
    ' => => ILL => 0
    !a! => => UTC => 0
    \x1b => => => 0
    // No commands, of which Wide has some, and a filler before one.
    EQ => => UTC => 0
    ? => => ILL => 0
    ^B => => ILL => 0
    ^Q => => ILL => 0
    FD/a\x1b/ => => UTC => 0
    FK/a\x1b/ => => UTC => 0
      J => => => 0
    ";

/// The forms of arguments before each command: none, one number, two, a lone sign, and an open parenthesis, an operator or a comma
/// before it.
pub(crate) const FORMS: &str = "
    // The pointer takes its forms.
    Iab\x1bJ.= => 0\r\n
    Iab\x1b1J.= => 1\r\n
    Iab\x1b0,1J => => ARG
    Iab\x1b+J.= => 1\r\n
    Iab\x1b-J => => POP
    (J => => MRP
    0+J => => ARG
    0,J => => ARG
    Iab\x1bJC.= => 1\r\n
    Iab\x1bJ2C.= => 2\r\n
    Iab\x1bJ0,1C => => ARG
    Iab\x1b-C.= => 1\r\n
    (C => => MRP
    0+C => => ARG
    0,C => => ARG
    Iab\x1bR.= => 1\r\n
    Iab\x1b2R.= => 0\r\n
    Iab\x1b0,1R => => ARG
    Iab\x1bJ-R.= => 1\r\n
    (R => => MRP
    0+R => => ARG
    0,R => => ARG
    Ia\nb\x1bJL.= => 2\r\n
    Ia\nb\x1b0L.= => 2\r\n
    Ia\nb\x1b0,1L => => ARG
    Ia\nb\x1b-L.= => 0\r\n
    (L => => MRP
    0+L => => ARG
    0,L => => ARG
    // Deletions take their forms.
    Iab\x1bJDHT => b
    Iab\x1bJ2DZ= => 0\r\n
    Iab\x1bJ0,1D => => ARG
    Iab\x1b-DHT => a
    (D => => MRP
    0+D => => ARG
    0,D => => ARG
    Ia\nb\x1bJKHT => b
    Ia\nb\x1bJ2KZ= => 0\r\n
    Iabc\x1b1,2KHT.= => ac1\r\n
    Iabc\x1b2,1KHT.= => ac1\r\n
    Ia\nb\x1b-KZ= => 0\r\n
    Ia\x1b0,2K => => POP
    Ia\x1b-1,0K => => POP
    (K => => MRP
    0+K => => ARG
    0,K => => ARG
    // Insertions take their forms.
    Iab\x1bHT => ab
    65I\x1bHT => A
    1,2I\x1b => => ARG
    -I\x1b => => ARG
    +I\x1bZ= => 1\r\n
    256I\x1b => => ARG
    (I\x1b => => MRP
    0+I\x1b => => ARG
    0,I\x1b => => ARG
    65@I//HT => A
    65Ix\x1b => => IIA
    256Ix\x1b => => IIA
    -Ix\x1b => => IIA
    65@I/x/ => => IIA
    1,2Ix\x1b => => ARG
    (Ix\x1b => => MRP
    0+Ix\x1b => => ARG
    0,Ix\x1b => => ARG
    \tx\x1bHT => \tx
    1\tx\x1b => => IIA
    1,2\tx\x1b => => IIA
    -\t\x1b => => IIA
    (\tx\x1b => => MRP
    0+\tx\x1b => => ARG
    0,\tx\x1b => => ARG
    ^Uax\x1bGaHT => x
    1Ga => => ARG
    0,1Ga => => ARG
    -Ga => => ARG
    (Ga => => MRP
    0+Ga => => ARG
    0,Ga => => ARG
    // Typing lines takes its forms.
    Ia\nb\x1bJT => a\n
    Ia\nb\x1b0T => b
    Iabc\x1b1,2T => b
    Iabc\x1b2,1T => b
    Ia\nb\x1b-T => a\nb
    0,1T => => POP
    (T => => MRP
    0+T => => ARG
    0,T => => ARG
    Ia\nb\x1bJV => a\n
    1V => => ARG
    0,0V => => ARG
    -V => => ARG
    (V => => MRP
    0+V => => ARG
    0,V => => ARG
    // Typing a text takes its forms.
    ^Ax\x01 => x
    1^Ax\x01 => => ARG
    0,0^Ax\x01 => => ARG
    -^Ax\x01 => => ARG
    (^Ax\x01 => => MRP
    0+^Ax\x01 => => ARG
    0,^Ax\x01 => => ARG
    ^T => => ARG
    65^T => A
    1,2^T => => ARG
    +^T => \x01
    -^T => => ARG
    (^T => => MRP
    0+^T => => ARG
    0,^T => => ARG
    ^Uax\x1b:Ga => x
    1:Ga => => ARG
    0,1:Ga => => ARG
    -:Ga => => ARG
    (:Ga => => MRP
    0+:Ga => => ARG
    0,:Ga => => ARG
    // Numbers are typed in their forms.
    = => => NAE
    5= => 5\r\n
    1,2= => => ARG
    -= => -1\r\n
    (= => => MRP
    0+= => => ARG
    0,= => => ARG
    := => => NAE
    5:= => 5
    1,2:= => => ARG
    -:= => -1
    (:= => => MRP
    0+:= => => ARG
    0,:= => => ARG
    == => => NAE
    8== => 10\r\n
    1,2== => => ARG
    +== => 1\r\n
    (== => => MRP
    0+== => => ARG
    0,== => => ARG
    :== => => NAE
    8:== => 10
    1,2:== => => ARG
    +:== => 1
    (:== => => MRP
    0+:== => => ARG
    0,:== => => ARG
    // Registers take their forms.
    Ua => => NAU
    5UaQa= => 5\r\n
    1,2Ua => => ARG
    -UaQa= => -1\r\n
    (Ua => => MRP
    0+Ua => => ARG
    0,Ua => => ARG
    Ia\nb\x1bJXa:Ga => a\n
    Ia\nb\x1b0Xa:Ga => b
    Iabc\x1b1,2Xa:Ga => b
    Iabc\x1b2,1Xa:Ga => b
    Ia\nb\x1b-Xa:Ga => a\nb
    0,1Xa => => POP
    (Xa => => MRP
    0+Xa => => ARG
    0,Xa => => ARG
    1^Uax\x1b => => ARG
    0,1^Uax\x1b => => ARG
    -^Uax\x1b => => ARG
    (^Uax\x1b => => MRP
    0+^Uax\x1b => => ARG
    0,^Uax\x1b => => ARG
    1[a= => 1\r\n
    0,0[aTZ= => 0\r\n
    (1[a)= => 1\r\n
    1+[a2= => 3\r\n
    [a1]a= => 1\r\n
    [a0,0]aTZ= => 0\r\n
    [a(1]a)= => 1\r\n
    [a1+]a2= => 3\r\n
    ";
