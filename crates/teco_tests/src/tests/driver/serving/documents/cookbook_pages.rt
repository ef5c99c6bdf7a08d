//! Examples of the pages, made by `tools/rows --write`.

pub(super) const EXAMPLES: &str = "
    // Read the whole file as one page
    <A-1-\x0e;>EX$$ => => one\ntwo\n => one\n\x0ctwo\n => exit
    // Print the first line of each page
    Y<T-1-\x0e;P>$$ => one\ntwo\n => ? => one\n1\n\x0ctwo\n2\n
    // Delete the second page
    YPHKYEX$$ => => one\n\x0cthree\n => one\n\x0ctwo\n\x0cthree\n => exit
    ";
