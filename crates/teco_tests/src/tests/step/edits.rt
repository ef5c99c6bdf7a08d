//! Lines and ranges, the push-down list, and what is typed of bytes and numbers.

pub(crate) const ROWS: &str = "
    // Lines and ranges are killed.
    Ione\ntwo\nthree\x1bJKHT => two\nthree
    Ione\ntwo\n\x1b-LK.=HT => 4\r\none\n
    Ione\ntwo\x1b0K.=HT => 4\r\none\n
    Ione\ntwo\x1bHK.=HT => 0\r\n
    Ione\x1b2JH-HK => => ARG
    1^T => \x01
    \tx\x1bJ2CHT3\tx\x1b => \tx => IIA
    // Texts are taken into registers.
    Ione\ntwo\x1bJXa:Ga.= => one\n0\r\n
    Ione\ntwo\x1bJ2C-XaHXb:Ga:Gb => onone\ntwo
    Ione\x1bHHXa => => ARG
    ^Uaone\x1b1Ua[a^Uatwo\x1b2Ua]bQb=:Gb => 1\r\none
    7[a= => 7\r\n
    7[a]b= => 7\r\n
    ]a => => CPQ
    [a]a]a => => CPQ
    // Bytes and lines are typed.
    Ione\ntwo\nthree\x1b-L2CV.= => two\n6\r\n
    V =>
    Ione\x1b1V => => ARG
    65^T66^T => AB
    256^T => => ARG
    12:=-3:= => 12-3
    -1==8:==0== => 37777777777\r\n100\r\n
    -2147483647-1==2147483647:== => 20000000000\r\n17777777777
    ";
