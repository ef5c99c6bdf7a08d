//! Examples of the pages, made by `tools/rows --write`.

pub(super) const EXAMPLES: &str = "
    // Replace a text everywhere
    Y<FScolour$color$;>EX$$ => => a color, two colors\n => a colour, two colours\n => exit
    // Replace on all pages
    Y<J<FScolour$color$;>-1-\x0e;P>EX$$ => => one color\n\x0ctwo colors\n => one colour\n\x0ctwo colours\n => exit
    // Replace the first match of each line
    Y<FSa$4$;L>EX$$ => => b4nana\nxx\n4nanas\n => banana\nxx\nananas\n => exit
    // Replace the second match of each line
    Y<.-Z;.UBLZ-.UEQBJ2:Sa$\"LZ-.-QE+1\"G-DI4$''Z-QEJ>EX$$ => => ban4na\nan4\nxx\n => banana\nana\nxx\n => exit
    // Replace only on lines that match
    Y<SGet$;0L.UBLZ-.UEQBJ<:Se$\"LZ-.-QE+1\"G-DI3$|0;'|0;'>Z-QEJ>EX$$ => => G3t 33l\nBuy eel\nG3t tr33\n => Get eel\nBuy eel\nGet tree\n => exit
    // Ignore case
    Y0\x18<FScolour$color$;>EX$$ => => color color\n => Colour COLOUR\n => exit
    // Replace whole words only
    YI $ZJI $J<S`Bcat`B$;R-3DIdog$>JDZJ-DEX$$ => => dog and dog => cat and cat => exit
    // Replace until no match is left
    Y<J@FS/()//;>EX$$ => => ab\n => a((())())b\n => exit
    // Replace any of several characters
    Y<FS`[a,e,i,o,u]$*$;>EX$$ => => *d*c*t**n\n => education\n => exit
    // Squeeze whitespace
    Y<FS`S$ $;>EX$$ => => a b c\n => a  b\t c\n => exit
    // Convert CRLF to LF
    Y<FS\r\n$\n$;>EX$$ => => one\ntwo\n => one\r\ntwo\r\n => exit
    // Convert to uppercase
    Y<.-Z;0A\"V0A-32UXDQXI$|C'>EX$$ => => ONE TWO\n => one Two\n => exit
    // Remove what is between two marks
    Y<S(*$;.-2UBS*)$;QB,.K>EX$$ => => a c\n => a (* b *)c(* d *)\n => exit
    ";
