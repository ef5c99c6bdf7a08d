//! Strings over pages of two lines: a page ends after its second line end, or at a form feed before it.

pub(super) const ROWS: &str = "
    // A page has two lines, and the last one has what is left.
    YHT => a\nb\n => => => => - => a\nb\nc\nd\ne => 2
    2PHT^N= => c\nd\n0\r\n => => => => a\nb\n => a\nb\nc\nd\ne => 2
    3PHT^N= => e-1\r\n => => => => a\nb\nc\nd\n => a\nb\nc\nd\ne => 2
    YHT^N=PZ= => a\nb\n-1\r\n0\r\n => => => => a\nb\n => a\nb\n => 2
    YHT^N= => a\nb-1\r\n => => => => - => a\nb => 2
    YZ=^N= => 0\r\n-1\r\n => => => => - => => 2
    // VT ends a line as LF does.
    YHT => a\x0bb\x0b => => => => - => a\x0bb\x0bc => 2
    // No form feed ended the page, so none is written after it, but for the one that PW writes always.
    Y^E=P^E= => 0\r\n0\r\n => => => => a\nb\n => a\nb\nc => 2
    YHPW => => => => => a\nb\n => a\nb\nc => 2
    YPW => => => => => a\nb\n\x0c => a\nb\nc => 2
    // One that comes before the second line end does, and is written.
    Y^E=PHT => -1\r\nb\nc => => => => a\n\x0c => a\n\x0cb\nc => 2
    Y^E=PHT => -1\r\na\nb\n => => => => \x0c => \x0ca\nb\nc => 2
    // One right after it ends the next page, which is empty.
    Y^E=PZ=^E=PHT => 0\r\n0\r\n-1\r\nc => => => => a\nb\n\x0c => a\nb\n\x0cc => 2
    // The next page comes after the text.
    YAHT => a\nb\nc\nd\n => => => => - => a\nb\nc\nd\ne => 2
    // N and _ go from page to page.
    YNd\x1b.= => 3\r\n => => => => a\nb\n => a\nb\nc\nd => 2
    YHK_d\x1b.= => 3\r\n => => => => - => a\nb\nc\nd => 2
    // An exit ends the run.
    YHK.,.PWEX => => EX => => => c => a\nb\nc => 2
    // An exit writes what is left as it is.
    YEX => => EX => => => a\nb\nc\nd\ne => a\nb\nc\nd\ne => 2
    YPPEX => => EX => => => a\nb\n\x0cc => a\nb\n\x0cc => 2
    // All pages are edited.
    Y<J<FSb\x1bx\x1b;>-1-^N;P>EX => => EX => => => a\nx\nx\nc\nx => a\nb\nb\nc\nb => 2
    ";
