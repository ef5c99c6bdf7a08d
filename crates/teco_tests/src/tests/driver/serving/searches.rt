//! Streams with searches.

/// Streams and what they type.
pub(super) const ROWS: &str = "
    // Searches.
    Ihello$JSl$.=S$.=$$HT$$ => 3\r\n4\r\nhello
    Ihello$:Sx$=$$HT$$ => 0\r\nhello
    Iaba$J<@FS/a//;>HT$$ => b
    Iaaa$-2Saa$$.=$$ => ?SRH\r\n0\r\n
    Iaaa$-2Saa$.=$$.=$$ => ?SRH\r\n0\r\n
    0Sa$$ => ?ISA\r\n
    S`[a$$ => ?ICE\r\n
    Iab$JSb$${$$}$$S$$HT$$ => ?SRH\r\nab
    Iaaaa$0J<Saa$;%A$>$$HTQA=$$ => aaaa2\r\n
    ";
