//! Searches that are refused or fail, and what they leave.

/// A string and another that is run after it, as a stream, and what they type: the code of the first; the pointer, then 9 if the last
/// search has found, and where its text is; and the code of the second, if it ends by one.
pub(crate) const ROWS: &str = "
    // Searches fail.
    Ia$Sx$$.=1<;9=>Ix$J:S$=.=$$ => ?SRH\r\n0\r\n-1\r\n1\r\n
    Iab$JSb$S$$.=1<;9=>:S$=.=$$ => ?SRH\r\n0\r\n-1\r\n2\r\n
    Iaaa$-2Saa$$.=1<;9=>:S$=.=$$ => ?SRH\r\n0\r\n-1\r\n2\r\n
    Iabc$FSz$x$$.=1<;9=>Iz$J:S$=.=$$ => ?SRH\r\n0\r\n-1\r\n1\r\n
    // A search that is refused leaves all as the last one left it.
    Ia$JSa$0S\x12$$.=1<;9=>J:S$=.=$$ => ?ISA\r\n1\r\n9\r\n-1\r\n1\r\n
    Ia$JSa$S\x12$$.=1<;9=>J:S$=.=$$ => ?ICE\r\n1\r\n9\r\n-1\r\n1\r\n
    // Nothing has been searched, and the refused search leaves it so, with the pointer at 1.
    Ia$S$$.=1<;9=>J:S$=.=$$ => ?ISS\r\n1\r\n?ISS\r\n
    Ia$0S$$.=1<;9=>J:S$=.=$$ => ?ISA\r\n1\r\n?ISS\r\n
    Ia$:S`[a$$.=1<;9=>J:S$=.=$$ => ?ICE\r\n1\r\n?ISS\r\n
    Ia$::S$$.=1<;9=>J:S$=.=$$ => ?ISS\r\n1\r\n?ISS\r\n
    Ia$1::Sa$$.=1<;9=>J:S$=.=$$ => ?ARG\r\n1\r\n?ISS\r\n
    Ia$1,1FSa$b$$.=1<;9=>J:S$=.=$$ => ?ARG\r\n1\r\n?ISS\r\n
    Ia$(0S$$.=1<;9=>J:S$=.=$$ => ?MRP\r\n1\r\n?ISS\r\n
    ";

/// A failed search is pardoned in an iteration before a semicolon.
pub(crate) const PARDONED: &str = "
    <Sx\x1b;>1= => 1\r\n
    <Sx\x1b0;> => => SRH
    <Sx\x1b> => => SRH
    Sx\x1b; => => SRH
    <:Sx\x1b;>1= => 1\r\n
    ::Sx\x1b= => 0\r\n
    ";
