//! Worked rows: what a stream types, and what its last strings then type of the state that it left.

pub(super) const ROWS: &str = "
    // Strings.
    $${$${$$.=Z=$$ => ?NTU\r\n0\r\n0\r\n
    5J$$.=$$2{$${$$ => ?POP\r\n0\r\n?NTU\r\n
    Ihello$0J3C.=$${$$.=Z=$$ => 3\r\n0\r\n0\r\n
    2+3*4=$$.=Z=$$ => 20\r\n0\r\n0\r\n
    2147483647+1=$$.=Z=$$ => ?OVF\r\n0\r\n0\r\n
    Iab$3D$$HT.=$$ => ?DTB\r\nab2\r\n
    Iab$3D$${$$Z=$$ => ?DTB\r\n0\r\n
    (2+3)*(4-1):=$$.=Z=$$ => 150\r\n0\r\n
    -1==$$.=Z=$$ => 37777777777\r\n0\r\n0\r\n
    Ione\ntwo\n$-LK$$HT.=$$ => one\n4\r\n
    Ia$${$$}$$}$$HT.=$$ => ?NTR\r\na1\r\n
    Ia$${$$Ib$$}$$HT.=$$ => ?NTR\r\nb1\r\n
    256I$$.=Z=$$ => ?ARG\r\n0\r\n0\r\n
    Iab-12c$2J\\:=.=$$HT.=$$ => -125\r\nab-12c5\r\n
    Iabcd$3,1K.=$$HT.=$$ => 1\r\nad1\r\n
    // Registers.
    @^UA/^UAy$Ix$/MA$$HT:GA$$ => xy
    0UA<!x!%A-3\"LOx$'1;>QA=$$QA=$$ => 3\r\n3\r\n
    @^UA/MA/MA$$:GA$$ => ?PDO\r\nMA
    @^UA/MA/MA$${$$:QA=$$ => ?PDO\r\n0\r\n
    3UA%A=5%A=$$QA=$$ => 4\r\n9\r\n9\r\n
    2147483647UA%A$$QA=$$ => ?OVF\r\n2147483647\r\n
    [A[A[A[A[A[A[A[A[A[A[A[A[A[A[A[A[A[A[A[A[A[A[A[A[A[A[A[A[A[A[A[A[A[A[A[A[A[A[A[A[A[A[A[A[A[A[A[A[A[A[A[A[A[A[A[A[A[A[A[A[A[A[A[A[A$$64<]A>]A$$ => ?PDO\r\n?CPQ\r\n
    [A[A[A[A[A[A[A[A[A[A[A[A[A[A[A[A[A[A[A[A[A[A[A[A[A[A[A[A[A[A[A[A[A[A[A[A[A[A[A[A[A[A[A[A[A[A[A[A[A[A[A[A[A[A[A[A[A[A[A[A[A[A[A[A[A$${$$]A$$ => ?PDO\r\n?CPQ\r\n
    // Blocks.
    0<Ia>b$>Iok$$HT.=$$ => ok2\r\n
    3<Ix$$HT$$ => ?UTC\r\nx
    3<Ix$${$$Z=$$ => ?UTC\r\n0\r\n
    Ox$0<!x!>$$.=Z=$$ => ?TAG\r\n0\r\n0\r\n
    Iq7$0J0A\"V^Alower\x01'1A\"D^A digit\x01'$$HT.=$$ => lower digitq70\r\n
    // Searches.
    Ixabxab$-2Sab$.=$$HT.=$$ => 3\r\nxabxab3\r\n
    Iab$0J::Sa$=.=$$HT.=$$ => -1\r\n1\r\nab1\r\n
    Ia1  b$0JS`D`Sb$.=$$HT.=$$ => 5\r\na1  b5\r\n
    Icat$0J@FS/a/oa/HT$$HT.=$$ => coatcoat3\r\n
    :Sx$=$$1<;1=>2=$$Iax$J:S$=.=$$ => 0\r\n2\r\n-1\r\n2\r\n
    Iab$<Sx$0;>$$.=ZJIcx$J:S$=.=$$ => ?SRH\r\n0\r\n-1\r\n4\r\n
    S$$.=Z=$$ => ?ISS\r\n0\r\n0\r\n
    Iaaa$-2Saa$$HT.=$$ => ?SRH\r\naaa0\r\n
    Iabc$0J@S/`[c,b]/.=$$HT.=$$ => 2\r\nabc2\r\n
    Iab$0JS\x0ea$.=$$HT.=$$ => 2\r\nab2\r\n
    // Searches in either case.
    0^XIaBc$0JSbC$.=$$HT.=$$ => 3\r\naBc3\r\n
    Iab$0J:SB$=0^X:SB$=$${$$Z=Iab$J:SB$=$$ => 0\r\n-1\r\n0\r\n0\r\n
    1^X$$.=Iab$J:SB$=$$ => ?ARG\r\n0\r\n0\r\n
    0^XIab$0JS\x0eA$.=$$HT.=$$ => 2\r\nab2\r\n
    // A search that fails is a step: where it is the last that the limit allows, the pointer is at 0.
    Iaaaa$0J<Saa$;%A$>$$HT.=QA=$$ => aaaa0\r\n2\r\n => => => => 14
    Iaaaa$0J<Saa$;%A$>$$HT.=QA=$$ => ?LIM\r\naaaa0\r\n2\r\n => => => => 13
    Iaaaa$0J<Saa$;%A$>$$HT.=QA=$$ => ?LIM\r\naaaa4\r\n2\r\n => => => => 12
    // Pages.
    YNc$$HT.=$$ => c1\r\n => a\x0cb\x0c => a\x0cb\x0cc
    YNc$${$$.=Z=YHT$$ => 0\r\n0\r\na => => a\x0cb\x0cc
    YNc$${$$}$$HT.=$$ => c1\r\n => a\x0cb\x0c => a\x0cb\x0cc
    Y$$Y$$HT^N=$$ => ?YCA\r\na-1\r\n => => a
    // Pages to the limit. The last search's result is 0 where `;` leaves.
    YNc$$HT.=$$1<;1=>2=$$ => ?LIM\r\nc0\r\n2\r\n => a\x0cb\x0c => a\x0cb\x0cc => => 5
    // Three steps for each string.
    2P$$HT$$.=$$ => b0\r\n => a\x0c => a\x0cb => => 3
    Y_b$$HT$$.=$$ZJIb$$J:S$=$$.=$$ => ?YCA\r\na0\r\n-1\r\n2\r\n => => a\x0cb => => 3
    // Two steps.
    2P$$HT$$ => ?LIM\r\na => => a\x0cb => => 2
    Y_b$$ => ?LIM\r\n => => a\x0cb => => 2
    // The output.
    Y$$P$${$$EX$$ => => one\n\x0ctwo\n => one\n\x0ctwo\n => exit
    Y$$Z=$$EX$$ => 3\r\n => hi\n => hi\n => exit
    ";
