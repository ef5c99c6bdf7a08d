//! Numbers, arguments and the codes of characters.

pub(crate) const ROWS: &str = "
    // Values are typed.
    2+3*4= => 20\r\n
    7-9/2= => -1\r\n
    2147483647+1= => => OVF
    Ihello\x1b2JHT.= => hello2\r\n
    Ihello\x1bH= => => ARG
    Ihello\x1bHJ => => ARG
    Ihello\x1b1H => => ARG
    Ihello\x1b-H => => ARG
    Ihello\x1bHH => => ARG
    // Arguments are built.
    (1+2)*(3+4)= => 21\r\n
    -(2-(3*4))= => 10\r\n
    12&10#(1+4)= => 13\r\n
    Ihello\x1b1,3TB,2T => elhe
    ^^A=^^(+^^\x00= => 65\r\n40\r\n
    ^N=^E=\x0e+1= => -1\r\n0\r\n0\r\n
    2( => => ARG
    () => => ARG
    1) => => ARG
    (1= => => MRP
    1,2, => => ARG
    (1,2 => => ARG
    // Codes of characters are given.
    Ihello\x1bJ0A=4A=5A=-A= => 104\r\n111\r\n-1\r\n-1\r\n
    Ihello\x1b-A=0A=-5A+1=-6A= => 111\r\n-1\r\n105\r\n-1\r\n
    Ihello\x1b1,(-A-108)T => el
    1+A => => ARG
    ";
