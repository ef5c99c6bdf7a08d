//! Examples of the pages, made by `tools/rows --write`.

pub(super) const EXAMPLES: &str = "
    // Keep one field of a CSV file
    Y<.-Z;.UB<::S\x0e`[\x11,,\n]$;>::S,$\"S.UC<::S\x0e`[\x11,,\n]$;>::S,$\"S.-1UDL-A-10\"ER'QD,.KQB,QCK''L>EX$$ => => one\ntwo\n => 1,one,x\n2,two,y\n => exit
    // Cut the bytes 3 to 5 out of each line
    Y<.-Z;.UBL-A-10\"ER'.-QB-4\"GQBJ2C3D'L>EX$$ => => abfg\nabc\n12\n => abcdefg\nabc\n12345\n => exit
    // Insert a comma after the third byte
    Y<.-Z;.UBL-A-10\"ER'.-QB-2\"GQBJ3CI,$'L>EX$$ => => 123,456\nab\nabc,def\n => 123456\nab\nabcdef\n => exit
    ";
