//! Examples of the pages, made by `tools/rows --write`.

pub(super) const EXAMPLES: &str = "
    // Prefix each line
    Y<.-Z;I> $L>EX$$ => => > one\n> two\n => one\ntwo\n => exit
    // Append to each line
    Y<.-Z;L-A-10\"ER'I;$L>EX$$ => => one;\ntwo;\n => one\ntwo\n => exit
    // Remove leading whitespace
    Y<.-Z;.UB::S`S$\"SQB,.K'L>EX$$ => => one\ntwo\nthree\n =>   one\n\t two\nthree\n => exit
    // Number the lines
    Y<.-Z;%N\\I: $L>EX$$ => => 1: one\n2: two\n => one\ntwo\n => exit
    // Count the lines
    Y<.-Z;L%A$>QA=EX$$ => 2\n => one\ntwo\n => one\ntwo\n => exit
    // Count the matches
    Y<San$;%A$>QA=EX$$ => 2\n => banana\n => banana\n => exit
    // Keep only the lines that match
    Y<.UBSan$;0LQB,.KL>QB,ZKEX$$ => => banana\nmango\n => cherry\nbanana\nplum\nmango\nfig\n => exit
    // Keep the lines 2 to 4
    YLB,.K3L.,ZKEX$$ => => 2\n3\n4\n => 1\n2\n3\n4\n5\n => exit
    // Delete the first three lines and the last
    Y3KZ\"GZJR0LK'EX$$ => => 4\n => 1\n2\n3\n4\n5\n => exit
    // Delete empty lines
    Y<.-Z;0A-10\"ED|L'>EX$$ => => one\ntwo\n => one\n\n\ntwo\n => exit
    // Delete the last character of each line
    Y<.-Z;.UBL-A-10\"ER'.-QB\"G-D'L>EX$$ => => one\n\ntwo\n => one;\n\ntwo;\n => exit
    // Insert a line before line 3
    Y2L.-Z\"LInew\n$'EX$$ => => 1\n2\nnew\n3\n => 1\n2\n3\n => exit
    // Add a header and a footer
    YIhead\n$ZJ-A-10\"NI\n$'Itail\n$EX$$ => => head\none\ntail\n => one\n => exit
    // Edit the lines between two marks
    YZJ-A-10\"NI\n$1UN'J<.-Z;::Sbegin\n$\"S<.-Z;::Send\n$\"S0;'::Sbegin\n$\"S|I> $L'>|L'>QN\"NZJ-D'EX$$ => => a\nbegin\n> b\n> c\nend\nd\nbegin\n> e\n => a\nbegin\nb\nc\nend\nd\nbegin\ne\n => exit
    // Extract what is between two lines
    Y:Sbegin$\"LL.UA:Send$\"L0L|ZJ'QA,.PW'HKYEX$$ => => one\ntwo\n => x\nbegin\none\ntwo\nend\ny\n => exit
    // Remove adjacent duplicate lines
    Y<.-Z;.UBL.-Z;.UC0UI<QB+QIJ0AUXQC+QIJ0AUYQX-QY\"N0;'QX-10\"E0;'%I>QX-QY\"EQCJKQBJ|QCJ'>EX$$ => => one\ntwo\ntwofold\n => one\none\none\ntwo\ntwofold\n => exit
    // Join the lines of each paragraph
    Y<S\x0e\n\n\x0e\n$;R-DI $>EX$$ => => one two\n\nthree four\n => one\ntwo\n\nthree\nfour\n => exit
    // Join all lines with commas
    Y<S\n$;.-Z\"L-DI, $'>EX$$ => => one, two, three\n => one\ntwo\nthree\n => exit
    ";
