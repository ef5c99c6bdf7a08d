//! The forms that Wide has besides. A row is a text, what it types in Wide with its code, and the same in Named.

/// Values, registers, and what is typed.
pub(super) const VALUES: &str = "
    // A byte of a name is tested for.
    ^^a\"C1='^^Z\"c2='^^7\"C3='^^.\"C4='^^$\"C5='^^_\"C6=' => 1\r\n2\r\n3\r\n4\r\n5\r\n6\r\n => => => IQC
    ^^-\"C1='^^`\"C2='0\"C3='302\"C4='-1\"C5=|6=' => 6\r\n => => => IQC
    \"C1=' => => NAQ => => IQC
    1,2\"C1=' => => ARG => => IQC
    (1\"C2=' => => MRP => => IQC
    0<0\"C>'>1= => => BNI => => IQC
    // The byte of a text.
    ^UAabc\x1b0QA=2QA=3QA=-1QA= => 97\r\n99\r\n-1\r\n-1\r\n => => => ARG
    0QA= => -1\r\n => => => ARG
    ^UAabc\x1b7UAQA=-QA=1+QA=(QA)= => 7\r\n-7\r\n8\r\n7\r\n => => 7\r\n-7\r\n8\r\n7\r\n
    ^UAabc\x1b1+(1QA)= => 99\r\n => => => ARG
    Iabcd\x1b^UA\x03\x1b1,0QAT => bc => => => ARG
    ^UAabc\x1b0:QA= => => ARG => => ARG
    0Q? => => IQN => => IQN
    // A number is set, and the other is given.
    3,4UA=QA= => 3\r\n4\r\n => => => ARG
    1,2UAUBQA=QB= => 2\r\n1\r\n => => => ARG
    1,2UA+3= => 4\r\n => => => ARG
    Iab\x1bHUA=QA= => 0\r\n2\r\n => => => ARG
    1,2UA\x1b= => => NAE => => ARG
    1,2UAIx\x1b => => IIA => => ARG
    1,UA => => ARG => => ARG
    UA => => NAU => => NAU
    (1UA => => MRP => => MRP
    5UAQA= => 5\r\n => => 5\r\n
    // A byte becomes a text, or goes behind it.
    65^UA\x1b:GA => A => => => ARG
    7UA^UAab\x1b65:^UA\x1b:GA:QA=QA= => abA3\r\n7\r\n => => => ILL
    65@^UA//66:@^UA//67@:\x15A//:GA => ABC => => => ARG
    +^UA\x1b0:^UA\x1b:QA=0QA=1QA= => 2\r\n1\r\n0\r\n => => => ARG
    ^UA\x1b:QA= => 0\r\n => => 0\r\n
    65^UAx\x1b => => IIA => => ARG
    65:^UAx\x1b => => IIA => => ILL
    256^UAx\x1b => => IIA => => ARG
    256^UA\x1b => => ARG => => ARG
    -^UA\x1b => => ARG => => ARG
    1,2^UA\x1b => => ARG => => ARG
    1,2:^UA\x1b => => ARG => => ILL
    (65^UA\x1b => => MRP => => MRP
    0+^UA\x1b => => ARG => => ARG
    // Numbers are typed in hexadecimal.
    255===-1===-2147483647-1=== => FF\r\nFFFFFFFF\r\n80000000\r\n => => => ILL
    10:===48879:===0=== => ABEEF0\r\n => => => ILL
    +===- === => 1\r\nFFFFFFFF\r\n => => => ILL
    === => => NAE => => ILL
    :=== => => NAE => => ILL
    1,2=== => => ARG => => ILL
    (1=== => => MRP => => ILL
    0+=== => => ARG => => ILL
    0,=== => => ARG => => ILL
    1==== => 1\r\n => NAE => => ILL
    1== = => 1\r\n => NAE => 1\r\n => NAE
    // How far lines are.
    Ia\nbc\nd\x1bJ^Q=2^Q=9\x11=0^Q=.= => 2\r\n5\r\n6\r\n0\r\n0\r\n => => => ILL
    Ia\nbc\nd\x1b-^q=0^Q=-9^Q=.= => -4\r\n-1\r\n-6\r\n6\r\n => => => ILL
    Ia\nbc\nd\x1bJ2^QC.= => 5\r\n => => => ILL
    Ia\nbc\x1bJ1+^Q=(^Q)=-(^Q)= => 3\r\n2\r\n-2\r\n => => => ILL
    Ia\nbc\x1bJ0,^QT1,2^QT => a\n\nbc => => => ILL
    ^Q5= => => ARG => => ILL
    1:^Q= => => ILL => => ILL
    ";

/// Searches.
pub(super) const SEARCHES: &str = "
    // What is found is deleted.
    Iabcabc\x1bJFDb\x1b.=HT => 1\r\nacabc => => => ILL
    Iabcabc\x1bJ2fDb\x1b.=HT => 4\r\nabcac => => => ILL
    Iabcabc\x1b-FDbc\x1b.=HT => 4\r\nabca => => => ILL
    Iab\x1bJ:FDb\x1b=.=:FDb\x1b=.=HT => -1\r\n1\r\n0\r\n0\r\na => => => ILL
    Ia/b\x1bJ@FD!/!HT@:FD.b.=HT => ab-1\r\na => => => ILL
    Ia1b2\x1bJ<FD\x05D\x1b;>HT => ab => => => ILL
    Iabb\x1bJSb\x1bFD\x1b.=HTFD\x1b => 2\r\nab => SRH => => ILL
    Iabcb\x1bJFDb\x1bS\x1b.= => 3\r\n => => => ILL
    0<FD>\x1b>1= => 1\r\n => => => ILL
    Iab\x1bJFDx\x1b => => SRH => => ILL
    FD\x1b => => ISS => => ILL
    0FDx\x1b => => ISA => => ILL
    FD\x12\x1b => => ICE => => ILL
    1,2FDx\x1b => => ARG => => ILL
    (FDx\x1b => => MRP => => ILL
    0+FDx\x1b => => ARG => => ILL
    0,:FDx\x1b => => ARG => => ILL
    ::FDx\x1b => => ILL => => ILL
    FDx => => UTC => => ILL
    // What is between is deleted too.
    Ione two one\x1bJCFKtwo\x1b.=HT => 1\r\no one => => => ILL
    Ione two one\x1b4R-fkone\x1b.=HT => 3\r\none one => => => ILL
    Ione two one\x1b2R-FKone\x1b.=HT => 9\r\none two o => => => ILL
    Iaba\x1bJ2FKa\x1bZ= => 0\r\n => => => ILL
    Iaba\x1bJ:FKb\x1b=.=:FKb\x1b=.=HT => -1\r\n0\r\n0\r\n0\r\na => => => ILL
    Ia/bc\x1bJC@FK\"b\"HT => ac => => => ILL
    Iabcb\x1bJSb\x1bFK\x1b.=HT => 2\r\nab => => => ILL
    Iaxbx\x1bJ<FKx\x1b;%A\x1b>QA=Z= => 2\r\n0\r\n => => => ILL
    0<:FK>\x1b>1= => 1\r\n => => => ILL
    Iab\x1bJFKx\x1b => => SRH => => ILL
    FK\x1b => => ISS => => ILL
    0FKx\x1b => => ISA => => ILL
    FK\x12\x1b => => ICE => => ILL
    1,2FKx\x1b => => ARG => => ILL
    (FKx\x1b => => MRP => => ILL
    0+FKx\x1b => => ARG => => ILL
    ::FKx\x1b => => ILL => => ILL
    // A text at the pointer is replaced.
    Iaab\x1bJ::FSa\x1bxyz\x1b=.=HT => -1\r\n3\r\nxyzab => => => ILL
    Iaab\x1b1J::FSb\x1bx\x1b=.=HT => 0\r\n1\r\naab => => => ILL
    Iab\x1bJ@::FS/a//=:@:fs/b/c/=HT => -1\r\n-1\r\nc => => => ILL
    Iab\x1bJ:Sa\x1b=J::FS\x1bx\x1b=HT => -1\r\n-1\r\nxb => => -1\r\n => ILL
    Ia7\x1bJ::FS\x05A\x05D\x1bx\x1b=HT => -1\r\nx => => => ILL
    1<::FSx\x1by\x1b;1=>2= => 2\r\n => => => ILL
    1::FSx\x1by\x1b => => ARG => => ILL
    -::FSx\x1by\x1b => => ARG => => ILL
    (::FSx\x1by\x1b => => MRP => => ILL
    0+::FSx\x1by\x1b => => ARG => => ILL
    ::FS\x1by\x1b => => ISS => => ILL
    ::FS\x12\x1by\x1b => => ICE => => ILL
    ::FSx\x1by => => UTC => => ILL
    Iab\x1bJ:FSb\x1bx\x1b=HT => -1\r\nax => => -1\r\nax
    ";

/// Texts that are undone and redone in Wide, however they end.
pub(super) const UNDONE: &str = "
    0\"=Iab\x1b'^^a\"CIx\x1b'
    ^UAabc\x1b1QAI\x1b9QA=
    3,4UAUB1,2UAIx\x1b
    65^UA\x1b66:^UA\x1bGA67^UAx\x1b
    255===-1:===1,2===
    Ia\nb\nc\x1b-2^QR^QDHT1^Q^Q
    Iabcabc\x1bJ2FDb\x1b-FDa\x1b:FDx\x1b=FDx\x1b
    Ione two\x1b2J:FKtwo\x1b=-FKo\x1bFKx\x1b
    Iaab\x1bJ::FSa\x1bxy\x1b::FSx\x1bz\x1b1::FSa\x1bb\x1b
    IABC\x1b0^XJ::FSab\x1b\x1bFKc\x1b
    ";
