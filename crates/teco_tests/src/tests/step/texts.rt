//! The pointer, and texts that are put in, deleted and typed.

pub(crate) const ROWS: &str = "
    // The pointer is moved.
    Ihello\x1b0J3C.= => 3\r\n
    5J => => POP
    Iab\x1bC => => POP
    Iab\x1bBJCT => b
    Ihello\x1bR.=2R.=-1r.= => 4\r\n2\r\n3\r\n
    Ia\x1b2R => => POP
    Ia\x1b-R => => POP
    HR => => ARG
    Ione\ntwo\nthree\x1bJL.=L.=L.=-L.=0L.= => 4\r\n8\r\n13\r\n4\r\n4\r\n
    // Texts are put in and deleted.
    65I\x1b66I\x1b-2CT => AB
    3Ix\x1b => => IIA
    Ihello\x1b2J2DJT => heo
    Ihello\x1b-2D.=JTDT => 3\r\nhelel
    Ihello\x1bD => => DTB
    Ihello\x1b-6D => => DTB
    ^Uahello\x1bGaGaJT:Ga => hellohellohello
    ^Uahello\x1bIab\x1bRGa.=JT => 6\r\nahellob
    ^Uahello\x1b3Ga => => ARG
    ^Uahello\x1b3:Ga => => ARG
    // Texts are typed.
    Ione\ntwo\nthree\x1bJT => one\n
    Ione\ntwo\nthree\x1bJC2T => ne\ntwo\n
    Ione\ntwo\nthree\x1b0T-T => threetwo\nthree
    Ione\ntwo\x1bJCIX\nY\x1b-TBJ2T => oX\nYoX\nYne\n
    ^Ahello\x01@^A/x/ => hellox
    1^Ahello\x01 => => ARG
    ";
