//! Conditionals, with each of their tests.

pub(super) const ROWS: &str = "
    1\"G2=|3='4=\x1b => 2\r\n4\r\n => => 6
    0\"G2=|3='4=\x1b => 3\r\n4\r\n => => 6
    1\"G1\"E2=|3='<;>|4='5= => 3\r\n5\r\n => => 10
    0\"G|1\"E2'I|\x1b'4= => 4\r\n => => 7
    0\"G2='4=\x1b => 4\r\n => => 4
    0\"Z1='\x1b => => IQC => 1
    \"E1='\x1b => => NAQ => 1
    65\"A66\"W1='97\"V2='\"' => 1\r\n2\r\n => IQC => 10
    48\"D1='-1\"L2='0\"N3='90\"R4=' => 1\r\n2\r\n4\r\n => => 15
    // More are passed in a loop than are remembered, each eight bytes after the one before it.
    2<0\"N2='1=0\"N3='2=0\"N4='3=0\"N5='4=0\"N6='5=0\"N7='6=0\"N8='7=0\"N9='8=0\"N0='9=> => 1\r\n2\r\n3\r\n4\r\n5\r\n6\r\n7\r\n8\r\n9\r\n1\r\n2\r\n3\r\n4\r\n5\r\n6\r\n7\r\n8\r\n9\r\n => => 76
    ";
