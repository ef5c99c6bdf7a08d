//! Searches, numbers in the buffer, and the case mode.

pub(crate) const ROWS: &str = "
    // Texts are searched for.
    Ixabxab\x1b-2Sab\x1b.= => 3\r\n
    Ia1  b\x1b0JS\x05D\x05Sb\x1b.= => 5\r\n
    Iabc\x1b0J@S/\x05[c,b]/.= => 2\r\n
    Iab\x1b0JS\x0ea\x1b.= => 2\r\n
    Iabab\x1bJ2Sab\x1b.=J@S//.= => 4\r\n2\r\n
    Iabab\x1b-Sab\x1b.=-Sab\x1b.= => 4\r\n4\r\n
    :Sx\x1b= => 0\r\n
    Iab\x1bJSb\x1bJ:S\x1b=.= => -1\r\n2\r\n
    Iab\x1b0J::Sa\x1b=.= => -1\r\n1\r\n
    Iaxb\x1bJ::Sx\x1b=.=J1C::S\x1b=.= => 0\r\n0\r\n-1\r\n2\r\n
    Ia\x1b0J-:Sa\x1b+1= => 0\r\n
    Ia\x1b0J5,:Sa\x1b => => ARG
    // A text without controls is looked for as it stands: at the ends, across the gap, by its first bytes more than once, at no place.
    Iabc\x1bJSa\x1b.=Sb\x1b.=Sc\x1b.= => 1\r\n2\r\n3\r\n
    Iabcd\x1b2JIX\x1b-DJ:Sbc\x1b=.= => -1\r\n3\r\n
    Iaxbx\x1b2JIY\x1b-D1J:Sxbx\x1b=.= => -1\r\n4\r\n
    Iaaab\x1b2JIX\x1b-D0J:Saab\x1b=.= => -1\r\n4\r\n
    Iabc\x1b:Sc\x1b=.= => 0\r\n0\r\n
    Iabc\x1bJ:Sabcd\x1b=.= => 0\r\n0\r\n
    :Sa\x1b=.= => 0\r\n0\r\n
    // An empty one is the last one, also where that has controls.
    Iabab\x1bJSb\x1b.=S\x1b.= => 2\r\n4\r\n
    Ia1b2\x1bJS\x05D\x1b.=S\x1b.= => 2\r\n4\r\n
    Iabab\x1bJFSb\x1bc\x1bFS\x1bd\x1bHT.= => acad4\r\n
    // Control bytes that mean nothing are themselves, and so are a quoted control and bytes past 127.
    I\x01\x02\x1bJ:S\x02\x1b=.= => -1\r\n2\r\n
    Ia\r\nb\tc\x1bJ:S\r\n\x1b=.=:S\t\x1b=.= => -1\r\n3\r\n-1\r\n5\r\n
    Ia\x12\x1bJ:S\x11\x12\x1b=.= => -1\r\n2\r\n
    IQ^EQ\x1bJ:S^E\x1b=.= => -1\r\n3\r\n
    Iaéb\x1bJ:Sé\x1b=.=Z= => -1\r\n3\r\n4\r\n
    // In either case a text without letters is so looked for, also past 127.
    0^XIa1-é\x1bJ:S1-\x1b=.=:Sé\x1b=.= => -1\r\n3\r\n-1\r\n5\r\n
    0^XIaB\x1bJ:SAb\x1b=.= => -1\r\n2\r\n
    // In either case bytes past 127 match only themselves, though a bit apart as letters are: in a text without letters, beside one, and
    // in both bytes. So do the bytes around the letters.
    0^XIé\x1bJ:SÉ\x1b=:Sé\x1b=.= => 0\r\n-1\r\n2\r\n
    0^XIÉ\x1bJ:Sé\x1b=:SÉ\x1b=.= => 0\r\n-1\r\n2\r\n
    0^XIaé\x1bJ:SAÉ\x1b=:SAé\x1b=.= => 0\r\n-1\r\n3\r\n
    0^XIÉa\x1bJ:SéA\x1b=:SÉA\x1b=.= => 0\r\n-1\r\n3\r\n
    0^XIㄅa\x1bJ:SÄ\x1b=:Sㄅ\x1b=.= => 0\r\n-1\r\n3\r\n
    0^XIÉaé\x1bJ:Né\x1b=.= => -1\r\n5\r\n
    0^XIÉaéb\x1b-:SÉA\x1b=.=ZJ-:SéA\x1b= => -1\r\n3\r\n0\r\n
    0^XIÉé\x1bJFSé\x1be\x1bHT => Ée
    0^XIÉéé\x1bJ2:Sé\x1b=.=J3:Sé\x1b= => -1\r\n6\r\n0\r\n
    0^XI@`[{\x1bJ:S`[\x1b=.=J:S{\x1b=.=J:S@`[[\x1b=:S``\x1b= => -1\r\n3\r\n-1\r\n4\r\n0\r\n0\r\n
    // What is found is replaced.
    Icat\x1b0J@FS/a/oa/HT.= => coat3\r\n
    Iabc\x1bJ:FSb\x1bxyz\x1b=HT.= => -1\r\naxyzc4\r\n
    Iabcabc\x1b-2FSb\x1bQ\x1bHT.= => aQcabc2\r\n
    Iaba\x1bJ2FSa\x1b\x1b.=HT@FS/// => 2\r\nab => SRH
    Iabc\x1bJ:FSz\x1bx\x1b=HT => 0\r\nabc
    Iab\x1bJFSb\x1bcd\x1bISb\x1b0J:@FS//b/=HT => -1\r\nacdSb
    // Numbers are read and inserted.
    Iab-12c\x1b2J\\:=.= => -125\r\n
    Ix\x1b5+\\= => 5\r\n
    I-5\x1bJ-\\=.= => 5\r\n2\r\n
    I-2147483648\x1bJ\\= => -2147483648\r\n
    I4294967297\x1bJ\\ => => OVF
    I1234\x1b2JIx\x1b-DJ\\= => 1234\r\n
    42\\-7\\HT => 42-7
    (1+\\)= => 1\r\n
    // The case mode is set. Where it is 0, a search takes letters of either case.
    IAb\x1bJ:SaB\x1b= => 0\r\n
    0^XIAb\x1bJ:SaB\x1b= => -1\r\n
    0^X-1^XIAb\x1bJ:SaB\x1b= => 0\r\n
    ";
