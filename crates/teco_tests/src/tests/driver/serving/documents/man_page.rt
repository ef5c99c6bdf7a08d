//! Examples of the pages, made by `tools/rows --write`.

pub(super) const EXAMPLES: &str = "
    Y<FScolour$color$;>EX$$ => => one color\ntwo colors\n => one colour\ntwo colours\n => exit
    Y<.-Z;I> $L>EX$$ => => > one\n> two\n => one\ntwo\n => exit
    Y<Se$;0LTL>$$ => one\nthree\n => ? => one\ntwo\nthree\n
    2*(3+4)=$$ => 14\n => ?
    ";
