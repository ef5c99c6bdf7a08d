//! What a check tells of a source: each sentence of a fault and of a hint, and its place in the source.

/// A source with a fault, and the lines that tell of it.
pub(super) const FAULTS: &str = "
    - // No command, and modifiers that a command doesn't take.
    - Y\n\t{J$$ => -:2:2: ILL: no command begins with {\n
    - E9$$ => -:1:1: ILL: no command begins with E9\n
    - @Y$$ => -:1:1: ILL: Y takes no @\n
    - J:K$$ => -:1:2: ILL: K takes no colon\n
    - ::Na$$ => -:1:1: ILL: N takes no two colons\n
    - @:Y$$ => -:1:1: ILL: Y does not take these modifiers\n
    - @@Ia/$$ => -:1:1: ILL: one @ and two colons at most\n
    - :::Sa$$ => -:1:1: ILL: one @ and two colons at most\n
    - // A register and a test.
    - 1:Q?$$ => -:1:2: IQN: after :Q comes a register, A to Z or 0 to 9\n
    - 1\"Q2'$$ => -:1:2: IQC: after \" comes a letter of E F U N G L S T A D R V W\n
    - // A text without its end.
    - J Iab => -:1:3: UTC: the text of I has no ESC\n-:1:6: hint: this is not run: two ESC end a command string\n
    - :Sab => -:1:1: UTC: the text of :S has no ESC\n-:1:5: hint: this is not run: two ESC end a command string\n
    - @I/ab$$ => -:1:1: UTC: the text of @I does not end with the byte it begins with\n
    - FSab$$J$$ => -:1:1: UTC: the second text of FS has no ESC; two ESC end the command string\n
    - FSab => -:1:1: UTC: the text of FS has no ESC\n-:1:5: hint: this is not run: two ESC end a command string\n
    - ^Aab$$ => -:1:1: UTC: the text of ^A has no ^A\n
    - ^~Aab$$ => -:1:1: UTC: the text of ^A has no ^A\n
    - J!a$$ => -:1:2: UTC: the tag has no ! after its name\n
    - JQ => -:1:2: UTC: the text ends inside a command\n-:1:3: hint: this is not run: two ESC end a command string\n
    - 1\" => -:1:2: UTC: the text ends inside a command\n-:1:3: hint: this is not run: two ESC end a command string\n
    - // Marks that close or divide nothing, or another block than they could.
    - > => -:1:1: BNI: > has no <\n-:1:2: hint: this is not run: two ESC end a command string\n
    - J'$$ => -:1:2: ILL: ' has no \"\n
    - | => -:1:1: ILL: | has no \"\n-:1:2: hint: this is not run: two ESC end a command string\n
    - 1\"E2<'$$ => -:1:6: ILL: ' closes < at 1:5\n
    - \n1\"E2>'$$ => -:2:5: BNI: > closes \"E at 2:2\n
    - 2<|>$$ => -:1:3: ILL: | divides < at 1:2\n
    - 1\"E|2|'$$ => -:1:6: ILL: a second | in the conditional at 1:2\n
    - // Blocks that cross, and blocks that don't close.
    - 1<1\"G1=>'$$ => -:1:8: BNI: > closes \"G at 1:4\n
    - Y<J$$ => -:1:2: UTC: < has no >\n
    - // Where a conditional isn't closed, and the source has no single quote, a shell may have taken it.
    - 0\"NJ$$ => -:1:2: UTC: \"N has no '; between single quotes of a shell ' is spelled ^`\n
    - 0\"NI'$$ => -:1:2: UTC: \"N has no '\n
    - <1\"E2=>$$ => -:1:7: BNI: > closes \"E at 1:3; between single quotes of a shell ' is spelled ^`\n
    - 1\"E|2|3$$ => -:1:6: ILL: a second | in the conditional at 1:2; between single quotes of a shell ' is spelled ^`\n
    - @^UA/1\"EJ/MA$$ => -:1:7: UTC: \"E has no '; between single quotes of a shell ' is spelled ^`\n
    - @^UA/1\"EJ/MAI'$$ => -:1:7: UTC: \"E has no '\n
    - <1\"E2$$ => -:1:3: UTC: \"E has no '; between single quotes of a shell ' is spelled ^`\n
    - 1\"E<2$$ => -:1:4: UTC: < has no >\n
    - <<<<<<<<<<<<<<<<<<<<<<<<<<<<<<<<<<<<<<<<<<<<<<<<<<<<<<<<<<<<<<<<<$$ => -:1:65: PDO: more than 64 blocks are open\n
    - // A jump to no tag that it can reach.
    - Oout$!in!$$ => -:1:1: TAG: no tag !out! is in this list or one around it\n
    - Ox$1<!x!1=>$$ => -:1:1: TAG: no tag !x! is in this list or one around it\n
    - // A fault after what can't be followed: in a string, in a text, and by a block that it leaves open, which is told at its place.
    - J XA MA {$$ => -:1:3: hint: not checked: XA puts what no check can see into a register that is called\n-:1:9: ILL: no command begins with {\n
    - @^UA/XA Q?/MA$$ => -:1:6: hint: not checked: XA puts what no check can see into a register that is called\n-:1:9: IQN: after Q comes a register, A to Z or 0 to 9\n
    - J XA <[A XA MA$$ => -:1:3: hint: not checked: XA puts what no check can see into a register that is called\n-:1:6: UTC: < has no >\n-:1:10: hint: not checked: XA puts what no check can see into a register that is called\n
    - MA]A$$ >$$ => -:1:3: hint: not checked: ]A puts what no check can see into a register that is called\n-:1:8: BNI: > has no <\n
    - // In a text that is called, and in one inside of it.
    - @^UA/J Q?/MA$$ => -:1:8: IQN: after Q comes a register, A to Z or 0 to 9\n
    - @^UA/@^UB+1<+ MB/MA$$ => -:1:12: UTC: < has no >\n
    - // In a part that isn't run, after an exit, in another string, and after the last pair.
    - 0\"N{'$$ => -:1:4: ILL: no command begins with {\n
    - EX$$ 1=$$ Q?$$ => -:1:11: IQN: after Q comes a register, A to Z or 0 to 9\n
    - YEX$$> => -:1:6: BNI: > has no <\n-:1:7: hint: this is not run: two ESC end a command string\n
    - // Several in a string, and after one that leaves nothing to tell there.
    - Q? { 1\"QJ' Oa$ 1=$$ => -:1:1: IQN: after Q comes a register, A to Z or 0 to 9\n-:1:4: ILL: no command begins with {\n-:1:7: IQC: after \" comes a letter of E F U N G L S T A D R V W\n-:1:12: TAG: no tag !a! is in this list or one around it\n
    - > Iab => -:1:1: BNI: > has no <\n-:1:3: UTC: the text of I has no ESC\n-:1:6: hint: this is not run: two ESC end a command string\n
    - <J$$ {$$ }J$$ => -:1:1: UTC: < has no >\n-:1:10: ILL: no command begins with }\n
    - // Ten digits ask no undo.
    - 1234567890{$$ => -:1:11: ILL: no command begins with {\n
    - // What TECO-11 has besides, with the operands that it takes.
    - Y 1\"=J' {$$ => -:1:4: IQC: \"= of TECO-11 is left out: it tests for 0; here: --wide, or \"E\n-:1:9: ILL: no command begins with {\n
    - :XA {$$ => -:1:1: ILL: :X of TECO-11 is left out: it appends lines to a register; here: --wide, or Gq and Xq over both\n-:1:5: ILL: no command begins with {\n
    - ERfile>$ {$$ => -:1:1: ILL: ER of TECO-11 is left out: it opens an input file; here: give it as INPUT on the command line\n-:1:10: ILL: no command begins with {\n
    - f_a>$b>$ {$$ => -:1:1: ILL: F_ of TECO-11 is left out: it replaces, and drops the pages; here: <:Sone$\"S0;' HK ^N\"NSone$' Y> and then -nD Itwo$\n-:1:10: ILL: no command begins with {\n
    - :^UAa>$ {$$ => -:1:1: ILL: :^U of TECO-11 is left out: it appends a text to a register; here: --wide, or Gq, the text by I, and Xq over both\n-:1:9: ILL: no command begins with {\n
    - ::FSa>$b>$ {$$ => -:1:1: ILL: ::FS of TECO-11 is left out: it replaces the text at the pointer; here: --wide, or ::Sone$\"S -nD Itwo$'\n-:1:12: ILL: no command begins with {\n
    - FDa>$ {$$ => -:1:1: ILL: FD of TECO-11 is left out: it deletes the next text; here: --wide, or @FS/text//\n-:1:7: ILL: no command begins with {\n
    - @FD/a>/ {$$ => -:1:1: ILL: FD of TECO-11 is left out: it deletes the next text; here: --wide, or @FS/text//\n-:1:9: ILL: no command begins with {\n
    - @::FS/a/>/ :@eb\"f>\" {$$ => -:1:1: ILL: ::FS of TECO-11 is left out: it replaces the text at the pointer; here: --wide, or ::Sone$\"S -nD Itwo$'\n-:1:12: ILL: EB of TECO-11 is left out: it opens a file to edit it; here: give it as INPUT with --in-place, which keeps no .BAK\n-:1:21: ILL: no command begins with {\n
    - J:fka>$ {$$ => -:1:2: ILL: FK of TECO-11 is left out: it deletes up to a text; here: --wide, or [1 .U1 Stext$ Q1,.K ]1\n-:1:9: ILL: no command begins with {\n
    - 1=== 1:===1\"C2' {$$ => -:1:2: ILL: === of TECO-11 is left out: it prints in hexadecimal; here: --wide, or == in octal\n-:1:7: ILL: === of TECO-11 is left out: it prints in hexadecimal; here: --wide, or == in octal\n-:1:12: IQC: \"C of TECO-11 is left out: it tests for a byte of a name; here: --wide, or \"R, and tests of the other bytes\n-:1:17: ILL: no command begins with {\n
    - 2^QC 3^~q= {$$ => -:1:2: ILL: ^Q of TECO-11 is left out: it gives how many bytes n lines have; here: --wide, or nL for n^QC, and nK for n^QD\n-:1:7: ILL: ^Q of TECO-11 is left out: it gives how many bytes n lines have; here: --wide, or nL for n^QC, and nK for n^QD\n-:1:12: ILL: no command begins with {\n
    - Y :EBfile>$\"U1=' {$$ => -:1:3: ILL: EB of TECO-11 is left out: it opens a file to edit it; here: give it as INPUT with --in-place, which keeps no .BAK\n-:1:18: ILL: no command begins with {\n
    - EQAfile>$ {$$ => -:1:1: ILL: EQ of TECO-11 is left out: it reads a file into a register; here: its text by @^Uq/../\n-:1:11: ILL: no command begins with {\n
    - ^B {$$ => -:1:1: ILL: ^B of TECO-11 is left out: it gives the date; here: leave it out\n-:1:4: ILL: no command begins with {\n
    - ^~b {$$ => -:1:1: ILL: ^B of TECO-11 is left out: it gives the date; here: leave it out\n-:1:5: ILL: no command begins with {\n";

/// A source without a fault, which no check can follow wholly, and the lines of its hints.
pub(super) const UNCHECKED: &str = "
    - J XA MA$$ => -:1:3: hint: not checked: XA puts what no check can see into a register that is called\n
    - MA]A$$ => -:1:3: hint: not checked: ]A puts what no check can see into a register that is called\n
    - @^UA/J XA/MA;$$ => -:1:8: hint: not checked: XA puts what no check can see into a register that is called\n-:1:13: hint: ; is in no iteration of this text, which is SNI\n
    - YMA$$ XA$$ EX$$ => -:1:7: hint: not checked: XA puts what no check can see into a register that is called\n";

/// A source whose strings are clean, and the lines of its hints.
pub(super) const HINTS: &str = "
    - // Nothing is told of a source that reads a page and writes it, nor of requests.
    - Y$$ 2{$$ }$$ 12~$$\nEX$$ =>\x20
    -  =>\x20
    - Y<<<<<<<<<<<<<<<<<<<<<<<<<<<<<<<<<<<<<<<<<<<<<<<<<<<<<<<<<<<<<<<<>>>>>>>>>>>>>>>>>>>>>>>>>>>>>>>>>>>>>>>>>>>>>>>>>>>>>>>>>>>>>>>>EX$$ =>\x20
    - YEX;$$ => -:1:4: hint: EX ends the run before this\n
    - YEX!a!J$$ => -:1:7: hint: EX ends the run before this\n
    - // A jump may have gone past the exit.
    - Y0\"EOa$'EX!a!HTEX$$ =>\x20
    - Y0\"EOb$'EX!a!HTEX!b!Oa$ $$ =>\x20
    - Y0\"EOa$'EXJ!a!HTEX$$ => -:1:11: hint: EX ends the run before this\n
    - Y1;<1;>EX$$ => -:1:3: hint: ; is in no iteration of this text, which is SNI\n
    - YJS^~ED$EX$$ => -:1:3: hint: a caret in a search text is a caret, and no control byte\n
    - Y@FS/^~Q+/x/EX$$ => -:1:2: hint: a caret in a search text is a caret, and no control byte\n
    - YS^ED$S^~+$I^~A$EX$$ =>\x20
    - // A form that is left out, by the numbers that are spelled before it; and where it isn't known what comes before, nothing.
    - Y5Q1=EX$$ => -:1:3: hint: nQ of TECO-11 is left out: it gives the code of byte n of a text; here: --wide, or Gq, and nA where it stands\n
    - Y1,2UAEX$$ => -:1:5: hint: m,nU of TECO-11 is left out: it sets n, and gives m; here: --wide, or nUq, and mUr\n
    - Y^TUAEX$$ => -:1:2: hint: ^T alone of TECO-11 is left out: it reads a byte of the terminal; here: nothing\n
    - Y3VHVEX$$ => -:1:3: hint: nV of TECO-11 is left out: it types lines on each side; here: 1-nT nT\n-:1:5: hint: nV of TECO-11 is left out: it types lines on each side; here: 1-nT nT\n
    - Y2PWEX$$ => -:1:3: hint: nPW of TECO-11 is left out: it writes the page n times; here: n<PW>\n
    - YB^UAx$EX$$ => -:1:3: hint: n^U of TECO-11 is left out: it puts a byte into a register; here: --wide, or nI$ and .-1,.Xq\n
    - Y1,Q1Sx$EX$$ => -:1:6: hint: m,nS of TECO-11 is left out: it looks for a text that begins within a bound; here: :Stext$ and a test of .\n
    - Y^X=EX$$ => -:1:2: hint: ^X alone of TECO-11 is left out: it gives whether searches tell the cases apart; here: a register that says it\n
    - Y5+Q1=-Q1=(5)V0A^T1,2K3$Q1=!a!VEX$$ =>\x20
    - // A search text that no search reads.
    - YS^EQA$FS^E$a$EX$$ => -:1:2: hint: no search reads this text, which is ICE\n-:1:8: hint: no search reads this text, which is ICE\n
    - Y2Oa$!a!EX$$ => -:1:3: hint: nO of TECO-11 is left out: it chooses a tag by a number; here: a test before each jump\n
    - YMAMAMBEX$$ => -:1:2: hint: A is called, and nothing puts a text into it\n-:1:6: hint: B is called, and nothing puts a text into it\n
    - Y@^UA/J/MAEX$$ =>\x20
    - // An empty text by two ESC, and one that isn't.
    - YI$$EX$$ => -:1:2: hint: the text is empty: two ESC end the command string\n
    - Y^UA$$EX$$ => -:1:2: hint: the text is empty: two ESC end the command string\n
    - YI$J$$@I//$$Ia$$EX$$ =>\x20
    - // What is not run.
    - YEX$$1= => -:1:8: hint: this is not run: two ESC end a command string\n
    - YEX$$I$ => -:1:8: hint: this is not run: it ends with one ESC, and wants two\n
    - YEX$$ \n =>\x20
    - // An ESC as a byte of the source: the first one is told, before all else.
    - YHT\x1b\x1bEX\x1b\x1b => -:1:4: hint: a source has $ for this ESC; teco -b takes the bytes of a file as they are\n
    - Y$$\n\tEX;$\x1b => -:2:6: hint: a source has $ for this ESC; teco -b takes the bytes of a file as they are\n-:2:4: hint: EX ends the run before this\n
    - // What the whole lacks.
    - Y$$ => -:1:4: hint: no EX: nothing is written\n
    - EX$$ => -:1:5: hint: no page is read: Y reads the first\n
    - AEX$$PEX$$NaEX$$ =>\x20
    - 0AEX$$ => -:1:7: hint: no page is read: Y reads the first\n
    - 1= => -:1:3: hint: this is not run: two ESC end a command string\n-:1:3: hint: no page is read: Y reads the first\n-:1:3: hint: no EX: nothing is written\n";

/// Bytes and what is told of them: the places are those of the bytes.
pub(super) const BYTES: &str = "
    - Y\nEX>\x1b\x1b => -:2:3: BNI: > has no <\n
    - 0\"NJ\x1b\x1b => -:1:2: UTC: \"N has no '\n";

/// A source in the wide language with a fault, and the lines that tell of it.
pub(super) const WIDE_FAULTS: &str = "
    - Y:X?$$ => -:1:2: IQN: after :X comes a register, A to Z or 0 to 9\n
    - Y1\"?2'$$ => -:1:3: IQC: after \" comes a letter of E F U N G L S T A D R V W C, or = < >\n
    - Y::XA$$ => -:1:2: ILL: X takes no two colons\n
    - Y::FDa$1::===1:^Q=$$ => -:1:2: ILL: FD takes no two colons\n-:1:9: ILL: === takes no two colons\n-:1:15: ILL: ^Q takes no colon\n
    - Y@FKab$$ => -:1:2: UTC: the text of @FK does not end with the byte it begins with\n
    - YFDab => -:1:2: UTC: the text of FD has no ESC\n-:1:6: hint: this is not run: two ESC end a command string\n
    - Y::FSab$$ => -:1:2: UTC: the second text of FS has no ESC; two ESC end the command string\n
    - Y0\"=:XAFRx$' {$$ => -:1:8: ILL: FR of TECO-11 is left out: it replaces what was found or put in last; here: FSone$two$ at the search itself\n-:1:14: ILL: no command begins with {\n
    - // A text that is put where code is.
    - @^UA/0\"=Q?'/MA$$ => -:1:9: IQN: after Q comes a register, A to Z or 0 to 9\n";

/// A source in the wide language that no check can follow wholly, and the lines of its hints.
pub(super) const WIDE_UNCHECKED: &str = "
    - @^UA/1=/:@^UA/2=/MA$$ => -:1:9: hint: not checked: :@^UA/2=/ puts what no check can see into a register that is called\n
    - @^UA/1=/50@^UA//MA$$ => -:1:11: hint: not checked: @^UA// puts what no check can see into a register that is called\n";

/// Bytes of the wide language that are clean, and the hints on them.
pub(super) const WIDE_BYTES: &str = "
    - Y0\"=1='2<:;>:XAEX\x1b\x1b =>\x20
    - YJ<Sfoo\x1b;0L:XAL>HKGAEX\x1b\x1b =>\x20
    - @^UA/0\"=1='/YMAEX\x1b\x1b =>\x20
    - // Its forms are not told as left out; those of neither language are.
    - Y5QA=1,2UA=65^UB\x1b2^QC1\"C'<FDx\x1b:FKy\x1b;::FSa\x1bb\x1b;>1===EX\x1b\x1b =>\x20
    - YFD\x05Q\x1bFK^Ea\x1b3VEX\x1b\x1b => -:1:2: hint: no search reads this text, which is ICE\n-:1:7: hint: a caret in a search text is a caret, and no control byte\n-:1:14: hint: nV of TECO-11 is left out: it types lines on each side; here: 1-nT nT\n
    - Y1,2UAVHS\x1bEX\x1b\x1b => -:1:9: hint: m,nS of TECO-11 is left out: it looks for a text that begins within a bound; here: :Stext$ and a test of .\n
    - Y:;EX\x1b\x1b => -:1:2: hint: ; is in no iteration of this text, which is SNI\n";
