//! Examples of the pages, made by `tools/rows --write`.

pub(super) const EXAMPLES: &str = "
    // vim
    Ione\ntwo$J0LKDHT$$ => wo => ?
    // vim
    Icat$JDIb$HT$$ => bat => ?
    // vim
    Ione\ntwo$J.=ZJ.=0L.=$$ => 074 => ?
    // vim
    Iaxbx$JSx$.=S$.=$$ => 24 => ?
    // vim
    Ibanana$J<FSa$o$;>HT$$ => bonono => ?
    // vim
    Ione\ntwo\none\n$J<Son$;0LK>HT$$ => two => ?
    // vim
    Ione\ntwo\n$JXALGAHT$$ => oneonetwo => ?
    // vim
    Iabc$J2C.UAJQAJ.=$$ => 2 => ?
    // vim
    Ione\ntwo$JL-DI $HT$$ => onetwo => ?
    // vim
    @\x15A/Ix$/3<MA>HT$$ => xxx => ?
    // vim
    Ia$$Ib$${$${$$}$$HT$$ => a => ?
    ";
