//! Listings of bytes, and of what a source stands for.

/// Bytes and their listing.
pub(super) const LISTED: &str = "
    - // What is short is on one line; of a block that is long the commands are further in. A text is not.
    - YHT\x1b\x1bEX\x1b\x1b => YHT$$EX$$\n
    - Y<J<FSone\x1btwo\x1b;>QA\"EIa much longer text\x1b|D'P>EX\x1b\x1b => Y<\n  J<FSone$two$;>QA\"E\n    Ia much longer text$\n  |\n    D\n  '\n  P\n>\nEX$$\n
    - // What a blank, a mark, a caret and a dollar were, they are.
    -  J => ^. J\n
    - Ia\x20 => Ia ^.\n
    - #!a => ^.#!a\n
    - !!a => !^!a\n
    - I !!a => I !^!a\n
    - Ox\x1b!x!!y!1= => Ox$!x!!y!1=\n
    - -1-\x0e; => -1-^N;\n
    - -1-^N; => -1-^~N;\n
    - I$\x1b => I^$$\n
    - Ia\tb\r\0\x7f\x1b => Ia^Ib^M^@^?$\n
    - // A line end of a text ends a line.
    - Ia\n  b\n\n\x1b => Ia^J\n  b^J\n^J\n$\n";

/// The same with words: each command is on a line, with what it does from a column on.
pub(super) const WORDED: &str = "
    - YHT\x1b\x1b => Y                                        !!Y  reads the next page into an empty buffer\nHT$$                                     !!nT  types to the nth line after, or with m,nT between two places\n";

/// The same of a source, whose own comments are left out.
pub(super) const AGAIN: &str = "
    - Y\nHT$$ !!all of it\n => Y                                        !!Y  reads the next page into an empty buffer\nHT$$                                     !!nT  types to the nth line after, or with m,nT between two places\n";

/// Bytes of the wide language, and their listing with words.
pub(super) const WIDE_WORDED: &str = "
    - Y0\"=:XA'2<:;>:A:P:\x15Ax\x1bEX\x1b\x1b => Y                                        !!Y  reads the next page into an empty buffer\n0\"=                                      !!n\"E  where n is 0\n  :XA                                    !!n:Xq  appends lines, or with m,n:Xq what is between two places, to the text of q\n'                                        !!'  the conditional ends\n2<                                       !!n<  does it n times, or again and again without n\n  :;                                     !!n:;  leaves the iteration where n is below 0; without n, where the last search found its text\n>                                        !!>  the iteration ends\n:A                                       !!:A  reads the next page after the text, and gives -1, or 0 where no input is left\n:P                                       !!n:P  n times: writes the page and its FF, and reads the next; gives -1, or 0 where no input is left\n:^UAx$                                   !!:^Uqtext$  appends the text to that of q\nEX$$                                     !!EX  writes the page and the rest, and ends the program\n
    - YFDx\x1b:FKy\x1b2<::FSa\x1bb\x1b;>1===65\x15A\x1b66:\x15A\x1b2\x11C1\"C2:==='EX\x1b\x1b => Y                                        !!Y  reads the next page into an empty buffer\nFDx$                                     !!nFDtext$  looks for the nth match, and deletes it\n:FKy$                                    !!n:FKtext$  looks for the nth match, deletes what is between its end and the pointer, and gives -1 or 0\n2<                                       !!n<  does it n times, or again and again without n\n  ::FSa$b$                               !!::FSone$two$  puts two in the place of one where that is at the pointer, and gives -1, else 0\n  ;                                      !!n;  leaves the iteration where n is 0 or more; without n, where the last search failed\n>                                        !!>  the iteration ends\n1===                                     !!n===  prints n in hexadecimal, with CR LF\n65^UA$                                   !!n^Uq$  makes the byte n the text of q\n66:^UA$                                  !!n:^Uq$  appends the byte n to the text of q\n2^QC                                     !!nC  pointer n bytes forward\n1\"C                                      !!n\"C  where n is the code of a letter, a digit, . $ or _\n  2:===                                  !!n:===  prints n in hexadecimal, without CR LF\n'                                        !!'  the conditional ends\nEX$$                                     !!EX  writes the page and the rest, and ends the program\n";
