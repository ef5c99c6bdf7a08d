//! Examples of the pages, made by `tools/rows --write`.

pub(super) const EXAMPLES: &str = "
    // Undo a string
    YHT$$FSone$1$$HT$${$${$$HT$$EX$$ => *one\n**1\n***one\n* => one\n => one\n => prompt exit
    // Go back to a step
    YS2$HT$$2~$$.=$$ => *1 2 3\n**3\n* => ? => 1 2 3\n => prompt
    ";
