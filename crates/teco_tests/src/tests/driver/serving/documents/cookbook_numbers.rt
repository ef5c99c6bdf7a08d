//! Examples of the pages, made by `tools/rows --write`.

pub(super) const EXAMPLES: &str = "
    // Increment each number
    Y<S`D$;R.UB\\UAQB,.KQA+1\\>EX$$ => => a2 b10 c100\n => a1 b9 c99\n => exit
    // Sum all numbers
    Y<S`D$;R\\+QAUA>QA=EX$$ => 7\n => 3 apples, 4 pears\n => 3 apples, 4 pears\n => exit
    // Choose by a condition
    Y<.-Z;.UBL.-QB-5\"GQBJIlong $|QBJIshort $'L>EX$$ => => short one\nlong eleven\n => one\neleven\n => exit
    ";
