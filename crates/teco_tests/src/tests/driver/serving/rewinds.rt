//! Rewinds to a step, and what is left of the string, of its history and of what it wrote.

pub(super) const ROWS: &str = "
    // The steps of a string with a loop are gone back one after another.
    Iaaaa$0J<Saa$;%A$>$$12~$$QA=.=$$ => 2\r\n4\r\n
    Iaaaa$0J<Saa$;%A$>$$12~$$4~$$13~$$HT.=QA=@S//$$ => aaaa0\r\n0\r\n?ISS\r\n
    Iaaaa$0J<Saa$;%A$>$$12~$$4~$$13~$${$$Z=$$ => 0\r\n
    Iaaaa$0J<Saa$;%A$>$$12~$$4~$$13~$${$$}$$HT.=QA=$$ => aaaa0\r\n0\r\n
    ~$$ => ?NTU\r\n
    @^UA/Ia$-DIb$/$$MA$$HT$${$$4~$$Z=$${$$2~$$HT$$ => b0\r\na
    Ia$${$$~$$}$$HT$$ => ?NTU\r\na
    Ia$$Ib$${$$1~$$}$$HT$$ => ?NTR\r\na
    Iab$3D$$1~$$HT$${$${$$}$$HT$$ => ?DTB\r\nabab
    Ia$Ib$Ic$$2 ~ $$HT$$ => ?ILL\r\nabc
    Ia$Ib$Ic$$ 2~ $$HT$$ => ab
    Ia$Ib$Ic$$~$$Z=$$ => 0\r\n
    Ia$1234567890~$$HT$$ => ?ILL\r\na
    1=~$$ => 1\r\n?ILL\r\n
    // A search over pages is gone back page by page, and what it wrote is taken back.
    YNc$$3~$$HT.=<;1=>$$ => b0\r\n => a\x0c => a\x0cb\x0cc
    YNc$$3~$${$$}$$HT$$ => b => a\x0c => a\x0cb\x0cc
    YNc$$1~$$HT$$ => a => => a\x0cb\x0cc
    YNc$$3~$$PHT$$ => c => a\x0cb\x0c => a\x0cb\x0cc
    // An exit is gone back before the serving sees it done; after it nothing is asked.
    Ia$EX$$~$$ => => a => => exit
    ";
