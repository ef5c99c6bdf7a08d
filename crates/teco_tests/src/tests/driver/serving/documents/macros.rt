//! Examples of the pages, made by `tools/rows --write`.

pub(super) const EXAMPLES: &str = "
    // Silent differences
    Icat$J:SCAT$=0\x18J:SCAT$=$$ => 0-1 => ?
    // Silent differences
    I1^Ea$J:S`D$=:S^E$=$$ => -1-1 => ?
    // Silent differences
    Iab$<Sx$1=>2=$$ => ?SRH => ?
    // Silent differences
    Iab$<Sx$;1=>2=$$ => 2 => ?
    // Silent differences
    Ox$1<!x!1=>$$ => ?TAG => ?
    // Silent differences
    1<1\"G1=>'$$ => 1?BNI => ?
    // Silent differences
    40000+40000=2147483647+1=$$ => 80000?OVF => ?
    // Silent differences
    Iab\n$-DHTZ=$$ => ab2 => ?
    // Silent differences
    @\x15A/1=$$ => ?UTC => ?
    // Silent differences
    @\x15A/1=Oend$2=!end!/MA$$ => 1 => ?
    // What to write in its place
    2UA QA-1\"EOone$' QA-2\"EOtwo$' !one!\x01one\x01 Oend$ !two!\x01two\x01 !end!$$ => two => ?
    // What to write in its place
    Iabc$J2UE :Sb$\"S .-QE\"G \x1en\x14 | \x1ey\x14 '' $$ => y => ?
    // What to write in its place
    Y <:Sthree$\"S0;' HK \x0e\"NSthree$' Y> .=$$ => 5 => ? => one\n\x0ctwo\n\x0cthree\n
    // What to write in its place
    Y <:Stwo$\"S0;' HK \x0e\"NStwo$' Y> -3DI2$HT$$ => 2 => ? => one\n\x0ctwo\n\x0cthree\n
    // What to write in its place
    Iabcb$J3UE :Sb$\"S .-QE\"G \x1en\x14 | -DIy$ '' HT$$ => aycb => ?
    // What to write in its place
    3< !top! %A-2\"EOtop$' QA= >$$ => 134 => ?
    // What to write in its place
    3<%A-2\"EOnext$' QA= !next!>$$ => 13 => ?
    // What to write in its place
    I12$J 0A\"D 1A\"DOtwo$' \x01one\x01 Oend$' !two! \x01another\x01 !end!$$ => another => ?
    // What to write in its place
    J:Sx$\"U\x01none\x01 Oend$' EX !end!$$ => none => ?
    // What to write in its place
    @\x15A/1= 0; 2=/ MA 3=$$ => 1?SNI => ?
    // What to write in its place
    Iabc$2J .UP :Sx$\"UQPJ' .=$$ => 2 => ?
    // What to write in its place
    1UA @\x15B/[A 5UA ]A/ MB QA=$$ => 1 => ?
    ";
