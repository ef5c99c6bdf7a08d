//! Examples of the pages, made by `tools/rows --write`.

pub(super) const EXAMPLES: &str = "
    14=$$ => 14 => ?
    2+3*4=12&10=12#3=$$ => 20815 => ? => one\n\x0ctwo\n\x0cthree\n
    2*(3+4)=$$ => 14 => ?
    Iab$B=Z=.=$$ => 022 => ?
    Iab$HT$$ => ab => ?
    Iabc$1,3T$$ => bc => ?
    \x1eA=$$ => 65 => ?
    Iab$-A=0A=$$ => 98-1 => ?
    I-12c$J\\=.=$$ => -123 => ?
    42\\HT$$ => 42 => ?
    12=3=$$ => 123 => ?
    12:=3=$$ => 123 => ?
    8==$$ => 10 => ?
    8:==1=$$ => 101 => ?
    Iab$1J.=J.=$$ => 10 => ?
    Iabc$J2C.=R.=$$ => 21 => ?
    Ia\nb$0L.=JL.=$$ => 22 => ?
    Iab$HT$$ => ab => ?
    65I$HT$$ => A => ?
    \tx$Z=$$ => 2 => ?
    Iabc$J2D-Z=HT$$ => -1c => ?
    Ia\nb$JKHT0,1KZ=$$ => b0 => ?
    Iabc$1,2T0T$$ => babc => ?
    Iab$V$$ => ab => ?
    \x01hi\x01$$ => hi => ?
    72\x14105\x14$$ => Hi => ?
    7UAQA=$$ => 7 => ?
    2%A=%A=$$ => 23 => ?
    \x15Ahi$:QA=$$ => 2 => ?
    Iabc$0,2XA:GA$$ => ab => ?
    \x15Ahi$GAGAHT$$ => hihi => ?
    1UA[A2UA]BQA=QB=$$ => 21 => ?
    @\x15A/+1/2MA=$$ => 3 => ?
    Ixabxab$JSab$.=-Sab$.=$$ => 33 => ?
    Iab$:Sx$=$$ => 0 => ?
    Iab$J::Sa$=.=$$ => -11 => ?
    Icat$JFSa$oa$HT$$ => coat => ?
    Icat$J:FSa$oa$=$$ => -1 => ?
    0\x18IAb$J:SaB$=$$ => -1 => ?
    YHT$$ => one => ? => one\n\x0ctwo\n\x0cthree\n
    YAHT$$ => onetwo => ? => one\n\x0ctwo\n\x0cthree\n
    3PHT$$ => three => ? => one\n\x0ctwo\n\x0cthree\n
    YPWHT$$ => one => ? => one\n\x0ctwo\n\x0cthree\n
    YNthree$.=HT$$ => 5three => ? => one\n\x0ctwo\n\x0cthree\n
    _one$.=HT$$ => 3one => ? => one\n\x0ctwo\n\x0cthree\n
    :Nx$=HT$$ => 0three => ? => one\n\x0ctwo\n\x0cthree\n
    :_one$=HT$$ => -1one => ? => one\n\x0ctwo\n\x0cthree\n
    Y`=\x0e=$$ => -10 => ? => one\n\x0ctwo\n\x0cthree\n
    YHTEX$$ => one => one\n\x0ctwo\n\x0cthree\n => one\n\x0ctwo\n\x0cthree\n => exit
    3<Ix$>HT$$ => xxx => ?
    Iaaa$J<Sa$;%A$>QA=$$ => 3 => ?
    1\"G2=|3='4=$$ => 24 => ?
    1\"L2=|3='4=$$ => 34 => ?
    \x1e7\"D1='\x1eb\"D2='$$ => 1 => ?
    \x1e7\"V1='\x1eb\"V2='$$ => 2 => ?
    Ox$1=!x!2=$$ => 2 => ?
    1$2=$$ => 2 => ?
    Ia$$Ib$$2{$$}$$HT$$ => a => ?
    Ia$Ib$Ic$$2~$$HT$$ => ab => ?
    Iab$JS\x18b$.=$$ => 2 => ?
    Ia b$JS`B$.=$$ => 2 => ?
    Iab$JS\x0ea$.=$$ => 2 => ?
    Ia\x18b$J@S/\x11\x18/.=$$ => 2 => ?
    Ia1$JS`A`D$.=$$ => 2 => ?
    IaB$JS`W$.=$$ => 2 => ?
    Ia\nb$JS`L$.=$$ => 2 => ?
    Ia  b$JS`S$.=$$ => 3 => ?
    Iabc$J@S/`[c,b]/.=$$ => 2 => ?
    ";
