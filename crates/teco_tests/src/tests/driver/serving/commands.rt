//! What is typed at the commands, and what they leave.

/// Streams and what they type.
pub(super) const ROWS: &str = "
    // Edits.
    Ihello$R.=HT$$ => 4\r\nhello
    Ia$10I$Ib$0JL.=HT$$ => 2\r\na\nb
    Ihello$2J2DHT$$ => heo
    Ihello$D$$HT$$ => ?DTB\r\nhello
    ^UAhi$GA:GA$$HT$$ => hihi
    @^A/hello/$$ => hello
    ^Ahello\x01$$ => hello
    H=$$ => ?ARG\r\n
    Ione\ntwo\n$-LKHT$$ => one\n
    Ihello$HKZ=$$ => 0\r\n
    \tx$0JHTZ=$$ => \tx2\r\n
    1\tx$$Z=$$ => ?IIA\r\n0\r\n
    Ione\ntwo$V$$ => two
    72^T105^T$$ => Hi
    12:=3=$$ => 123\r\n
    8:==$$ => 10
    // Arguments.
    2*(3+4)=$$ => 14\r\n
    12&10=12#3=$$ => 8\r\n15\r\n
    Ihello$1,3T$$ => el
    Ihello$1,6T$$HT$$ => ?POP\r\nhello
    ^^A=$$ => 65\r\n
    ^N=^E=$$ => -1\r\n0\r\n
    Ihello$J0A=$$ => 104\r\n
    Ihello$-A=0A=$$ => 111\r\n-1\r\n
    (1=$$ => ?MRP\r\n
    1,2J$$ => ?ARG\r\n
    (((((((((((((((((1$$ => ?PDO\r\n
    // Blocks.
    0<?>1=$$ => ?ILL\r\n
    1=>2=$$ => 1\r\n?BNI\r\n
    1\"G2=|3='4=$$ => 2\r\n4\r\n
    0\"G2=|3='4=$$ => 3\r\n4\r\n
    3<Ix$>$$HT$$ => xxx
    0\"Z1='$$ => ?IQC\r\n
    @^UA/;/<MA>$$:GA$$ => ?SNI\r\n;
    @^UA/+1/2MA=$$:GA$$ => 3\r\n+1
    Ox$?!x!$$ => ?TAG\r\n
    1\" =>
    \"E1='$$ => ?NAQ\r\n
    ;$$ => ?SNI\r\n
    3<1;Ix$>Iy$$HT$$ => y
    3<-1;Ix$>$$HT$$ => xxx
    <0\"E1;'>Iy$$HT$$ => y
    // Registers.
    7UAQA=$$QA=$$ => 7\r\n7\r\n
    ^UAabc$7UA:QA=$$QA=:GA$$ => 3\r\n7\r\nabc
    2%A%A+2%A=$$QA=$$ => 10\r\n10\r\n
    UA$$QA=$$ => ?NAU\r\n0\r\n
    Q?$$ => ?IQN\r\n
    1^UAx$$:QA=$$ => ?ARG\r\n0\r\n
    Ione\ntwo$JXA:GA$$HT$$ => one\none\ntwo
    Ihello$HXAGAHT$$:GA$$ => hellohellohello
    1UA[A2UA]BQA=QB=$$ => 2\r\n1\r\n
    ]A$$ => ?CPQ\r\n
    ^UAab$7UA[A$$^UAx$0UA$${$$]BGB:GAQB=$$HTQA=$$ => ab7\r\nab7\r\n
    ";
