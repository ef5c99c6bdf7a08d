//! The elements of search texts, and what they match. Each is compared at the beginning of the text, and then the pointer is typed.

pub(crate) const ROWS: &str = "
    // Single elements match what they mean.
    I\0\x1bJ::S\x18\x1b=.= => -1\r\n1\r\n
    I\x1bJ::S\x18\x1b=.= => 0\r\n0\r\n
    I\n\x1bJ::S\x05x\x1b=.= => -1\r\n1\r\n
    255I\x1bJ::S\x05X\x1b=.= => -1\r\n1\r\n
    I-\x1bJ::S\x13\x1b=.= => -1\r\n1\r\n
    I7\x1bJ::S\x13\x1b=.= => 0\r\n0\r\n
    Iq\x1bJ::S\x13\x1b=.= => 0\r\n0\r\n
    I \x1bJ::S\x05B\x1b=.= => -1\r\n1\r\n
    IQ\x1bJ::S\x05b\x1b=.= => 0\r\n0\r\n
    Ib\x1bJ::S\x0ea\x1b=.= => -1\r\n1\r\n
    Ia\x1bJ::S\x0ea\x1b=.= => 0\r\n0\r\n
    I\x1bJ::S\x0ea\x1b=.= => 0\r\n0\r\n
    Ix\x1bJ::S\x0e\x05D\x1b=.= => -1\r\n1\r\n
    I3\x1bJ::S\x0e\x05D\x1b=.= => 0\r\n0\r\n
    Ic\x1bJ::S\x0e\x05[a,b]\x1b=.= => -1\r\n1\r\n
    Ib\x1bJ::S\x0e\x05[a,b]\x1b=.= => 0\r\n0\r\n
    I\x0e\x1bJ::S\x0e\x11\x0e\x1b=.= => 0\r\n0\r\n
    I\x18\x1bJ::S\x11\x18\x1b=.= => -1\r\n1\r\n
    Ia\x1bJ::S\x11\x18\x1b=.= => 0\r\n0\r\n
    // Classes match what they mean.
    Ig\x1bJ::S\x05A\x1b=.= => -1\r\n1\r\n
    IZ\x1bJ::S\x05A\x1b=.= => -1\r\n1\r\n
    I@\x1bJ::S\x05A\x1b=.= => 0\r\n0\r\n
    I0\x1bJ::S\x05d\x1b=.= => -1\r\n1\r\n
    Ia\x1bJ::S\x05d\x1b=.= => 0\r\n0\r\n
    I\n\x1bJ::S\x05L\x1b=.= => -1\r\n1\r\n
    I\x0b\x1bJ::S\x05L\x1b=.= => -1\r\n1\r\n
    I\x0c\x1bJ::S\x05L\x1b=.= => -1\r\n1\r\n
    I\r\x1bJ::S\x05L\x1b=.= => 0\r\n0\r\n
    I9\x1bJ::S\x05R\x1b=.= => -1\r\n1\r\n
    I_\x1bJ::S\x05R\x1b=.= => 0\r\n0\r\n
    I \t x\x1bJ::S\x05S\x1b=.= => -1\r\n3\r\n
    Ix \x1bJ::S\x05s\x1b=.= => 0\r\n0\r\n
    I   \x1bJ::S\x05S \x1b=.= => 0\r\n0\r\n
    I  x\x1bJ::S\x05Sx\x1b=.= => -1\r\n3\r\n
    Iv\x1bJ::S\x05V\x1b=.= => -1\r\n1\r\n
    IV\x1bJ::S\x05V\x1b=.= => 0\r\n0\r\n
    IW\x1bJ::S\x05W\x1b=.= => -1\r\n1\r\n
    Iw\x1bJ::S\x05W\x1b=.= => 0\r\n0\r\n
    Ib\x1bJ::S\x05[c,b]\x1b=.= => -1\r\n1\r\n
    Ia\x1bJ::S\x05[c,b]\x1b=.= => 0\r\n0\r\n
    I]\x1bJ::S\x05[\x11],\x05D,\x18]\x1b=.= => -1\r\n1\r\n
    I,\x1bJ::S\x05[\x11,,x]\x1b=.= => -1\r\n1\r\n
    I[,]\x1bJ::S[,]\x1b=.= => -1\r\n3\r\n
    Iabc\x1bJ::Sa\x18c\x1b=.= => -1\r\n3\r\n
    // Search texts are refused.
    S\x12\x1b => => ICE
    Sa\x16\x1b => => ICE
    S\x17\x1b => => ICE
    S\x11\x1b => => ICE
    S\x0e\x1b => => ICE
    Sa\x05\x1b => => ICE
    S\x0e\x05S\x1b => => ICE
    S\x0e\x05s\x1b => => ICE
    S\x0e\x0ea\x1b => => ICE
    S\x05C\x1b => => ICE
    S\x05 \x1b => => ICE
    S\x05[\x1b => => ICE
    S\x05[]\x1b => => ICE
    S\x05[a\x1b => => ICE
    S\x05[a,\x1b => => ICE
    S\x05[a,]\x1b => => ICE
    S\x05[,a]\x1b => => ICE
    S\x05[ab]\x1b => => ICE
    S\x05[\x05S]\x1b => => ICE
    S\x05[\x0ea]\x1b => => ICE
    S\x05[\x12]\x1b => => ICE
    S\x05[\x05[a]]\x1b => => ICE
    // Letters match in either case where the case mode is 0.
    0^XIIaBc-aBC\x1bJ:SbC\x1b=.= => -1\r\n4\r\n
    IIaBc-aBC\x1bJ:SbC\x1b=.= => 0\r\n0\r\n
    IIaBc-aBC\x1bJ:SBC\x1b=.= => -1\r\n8\r\n
    0^XIIaBc-aBC\x1bJ:S-\x1b=.= => -1\r\n5\r\n
    0^XIIaBc-aBC\x1bJ:S\x11b\x1b=.= => -1\r\n3\r\n
    0^XIIaBc-aBC\x1bJ:S\x05[b,C]\x1b=.= => -1\r\n3\r\n
    0^XIIaBc-aBC\x1bJ:S\x0ei\x1b=.= => -1\r\n2\r\n
    0^XIIaBc-aBC\x1bJ:S\x05W\x05W\x1b=.= => -1\r\n8\r\n
    // Occurrences are counted from the pointer.
    IaXbaXb\x1b-2SaXb\x1b.= => 3\r\n
    IaXbaXb\x1b-SaXb\x1b.= => 6\r\n
    IaXbaXb\x1bJ2SaXb\x1b.= => 6\r\n
    IaXbaXb\x1b1J2SaXb\x1b => => SRH
    ";
