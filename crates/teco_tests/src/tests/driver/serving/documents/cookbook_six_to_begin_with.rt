//! Examples of the pages, made by `tools/rows --write`.

pub(super) const EXAMPLES: &str = "
    // Delete the lines that match
    Y<San$;0LK>EX$$ => => cherry\nplum\n => banana\ncherry\nmango\nplum\n => exit
    // Print the lines that match
    Y<San$;0LTL>$$ => banana\nmango\n => ? => banana\ncherry\nmango\n
    // Remove trailing whitespace
    YZJI\n$J<FS`S\n$\n$;>ZJ-DEX$$ => => one\ntwo\nthree\n => one  \ntwo\t\nthree\n => exit
    // Set a value in a configuration file
    Y<.-Z;::Sport = $\"L.UBL-A-10\"ER'QB,.KI8080$'L>EX$$ => => name = a\nport = 8080\nexport = 1\n => name = a\nport = 80\nexport = 1\n => exit
    // Add a newline at the end of the file
    YZ\"GZJ-A-10\"NI\n$''EX$$ => => one\n => one => exit
    ";
