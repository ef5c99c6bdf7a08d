//! The forms of arguments before what opens blocks and leaves them, jumps and calls.

pub(super) const ROWS: &str = "
    // Blocks take their forms.
    <1=1;>2= => 1\r\n2\r\n => => 7
    3<1=> => 1\r\n1\r\n1\r\n => => 11
    -<1=>2= => 2\r\n => => 4
    +<1=> => 1\r\n => => 5
    0<1=>2= => 2\r\n => => 4
    1,2<> => => ARG => 4
    (<> => => MRP => 2
    0+<> => => ARG => 3
    0,<> => => ARG => 3
    1<5>= => => NAE => 5
    3<;1=>2= => 2\r\n => => 5
    3<-;1=> => 1\r\n1\r\n1\r\n => => 17
    3<+;1=>2= => 2\r\n => => 6
    3<0;1=>2= => 2\r\n => => 6
    <1,2;> => => ARG => 5
    <(;> => => MRP => 3
    <0+;> => => ARG => 4
    1\"G2=' => 2\r\n => => 4
    -\"L2=' => 2\r\n => => 4
    1,2\"G' => => ARG => 4
    (\"G' => => MRP => 2
    0+\"G' => => ARG => 3
    1\"G5|'= => => NAE => 4
    0\"G|5'= => => NAE => 4
    // Jumps and calls take their forms.
    Ox\x1b1=!x!2= => 2\r\n => => 3
    1Ox\x1b!x! => => ARG => 2
    1,2Ox\x1b!x! => => ARG => 4
    -Ox\x1b!x! => => ARG => 2
    (Ox\x1b!x! => => MRP => 2
    0+Ox\x1b!x! => => ARG => 3
    1!x!= => 1\r\n => => 2
    (1!x!)= => 1\r\n => => 4
    Iab\x1b0,1!x!T => a => => 5
    1+!x!2= => 3\r\n => => 4
    1Ma= => 1\r\n => => 3
    (1Ma)= => 1\r\n => => 5
    Iab\x1b0,1MaT => a => => 6
    1+Ma2= => 3\r\n => => 5
    @^Ua/2+/1UbMaQb= => 3\r\n => => 8
    ";
