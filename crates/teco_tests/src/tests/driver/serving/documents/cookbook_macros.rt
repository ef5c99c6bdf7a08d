//! Examples of the pages, made by `tools/rows --write`.

pub(super) const EXAMPLES: &str = "
    // Capitalize each line by a macro
    @\x15U/0A\"V0A-32UXDQXI$'/Y<.-Z;MUL>EX$$ => => One\nTwo\n => one\ntwo\n => exit
    ";
