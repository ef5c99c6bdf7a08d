//! What is typed and written at streams of commands over an input of the pages `one`, `two` and `three`.

pub(super) const ROWS: &str = "
    // Pages.
    YHT$$ => one\n => => one\n\x0ctwo\n\x0cthree\n
    Y$$Y$$ => ?YCA\r\n => => one\n\x0ctwo\n\x0cthree\n
    YAHT$$ => one\ntwo\n => => one\n\x0ctwo\n\x0cthree\n
    3PHT$$ => three\n => one\n\x0ctwo\n\x0c => one\n\x0ctwo\n\x0cthree\n
    0P$$ => ?IPA\r\n => => one\n\x0ctwo\n\x0cthree\n
    YPW0,3PWHT$$ => one\n => one\n\x0cone => one\n\x0ctwo\n\x0cthree\n
    Y^E=^N=$$ => -1\r\n0\r\n => => one\n\x0ctwo\n\x0cthree\n
    4P^E=^N=$$ => 0\r\n-1\r\n => one\n\x0ctwo\n\x0cthree\n => one\n\x0ctwo\n\x0cthree\n
    YP$${$$HT$$ => => => one\n\x0ctwo\n\x0cthree\n
    Y$$P$${$$HT$$ => one\n => => one\n\x0ctwo\n\x0cthree\n
    Iab-12c$2J\\=.=$$ => -12\r\n5\r\n => => one\n\x0ctwo\n\x0cthree\n
    42\\HT$$ => 42 => => one\n\x0ctwo\n\x0cthree\n
    1^X$$ => ?ARG\r\n => => one\n\x0ctwo\n\x0cthree\n
    // Searches over pages.
    YNthree$.=HT$$ => 5\r\nthree\n => one\n\x0ctwo\n\x0c => one\n\x0ctwo\n\x0cthree\n
    Y2Ne$.=HT$$ => 4\r\nthree\n => one\n\x0ctwo\n\x0c => one\n\x0ctwo\n\x0cthree\n
    YNe$N$.=HT$$ => 4\r\nthree\n => one\n\x0ctwo\n\x0c => one\n\x0ctwo\n\x0cthree\n
    Y4Ne$$.=HT$$ => ?SRH\r\n0\r\nthree\n => one\n\x0ctwo\n\x0c => one\n\x0ctwo\n\x0cthree\n
    :Nx$=HT$$ => 0\r\nthree\n => one\n\x0ctwo\n\x0c => one\n\x0ctwo\n\x0cthree\n
    0Ne$$ => ?ISA\r\n => => one\n\x0ctwo\n\x0cthree\n
    _one$.=HT$$ => 3\r\none\n => => one\n\x0ctwo\n\x0cthree\n
    _two$$ => ?YCA\r\n => => one\n\x0ctwo\n\x0cthree\n
    YNthree$${$$HT$$ => => => one\n\x0ctwo\n\x0cthree\n
    YNthree$${$$}$$HT$$ => three\n => one\n\x0ctwo\n\x0c => one\n\x0ctwo\n\x0cthree\n
    // What is written in the place of commands that TECO-11 has besides: `E_` to no page, `^C`, `EC` and `EF`.
    Y<:Sfour$\"S0;'HK^N\"NSfour$'Y>.=$$Z=$$ => ?SRH\r\n0\r\n => => one\n\x0ctwo\n\x0cthree\n
    YZJ:Sx$\"U^Ano\x01Oend$'EX!end!$$HT$$ => noone\n => => one\n\x0ctwo\n\x0cthree\n
    YJ:So$\"U^Ano\x01Oend$'EX!end!$$ => => one\n\x0ctwo\n\x0cthree\n => one\n\x0ctwo\n\x0cthree\n => exit
    YFSone$1$EX$$ => => 1\n\x0ctwo\n\x0cthree\n => one\n\x0ctwo\n\x0cthree\n => exit
    YHPWHK<-1-^N;YHK>EX$$ => => one\n => one\n\x0ctwo\n\x0cthree\n => exit
    // To an exit.
    EX$$1=$$ => => one\n\x0ctwo\n\x0cthree\n => one\n\x0ctwo\n\x0cthree\n => exit
    YHT$$PI2: $$EX$$ => one\n => one\n\x0c2: two\n\x0cthree\n => one\n\x0ctwo\n\x0cthree\n => exit
    YHT$$FSone$1$HT$$PHT$$HK$${$$HT$$PZJIend\n$EX$$ => one\n1\ntwo\ntwo\n => 1\n\x0ctwo\n\x0cthree\nend\n => one\n\x0ctwo\n\x0cthree\n => exit
    ";
