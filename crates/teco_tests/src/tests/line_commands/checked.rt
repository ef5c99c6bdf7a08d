//! What `--check` tells.

pub(crate) const ROWS: &str = "
    - // Commands that are checked are not run, no INPUT is read, and nothing is written; a fault has the name, the line and the column of its own source.
    - teco --check -e YZ=HKEX$$ in => => => => => => in == hi\n
    - teco --check -f lib.teco -e YMAEX$$ none => => => => => => lib.teco == @^UA/0L Ix^=$ /$$\n!!puts in x and a caret\n
    - teco --check -i -p FSi$o$ none in => => => => => => in == hi\n
    - teco --check -f faulty in => => faulty:2:3: IQN: after M comes a register, A to Z or 0 to 9\n => => => 2 => in == hi\n ++ faulty == Y\n  M? !!no register\nEX$$\n
    - teco --check -e YM?$$EX$$ in => => --execute:1:2: IQN: after M comes a register, A to Z or 0 to 9\n => => => 2 => in == hi\n
    - teco --check -f lib.teco -f faulty -o out none => => faulty:2:3: IQN: after M comes a register, A to Z or 0 to 9\n => => => 2 => lib.teco == @^UA/0L Ix^=$ /$$\n!!puts in x and a caret\n ++ faulty == Y\n  M? !!no register\nEX$$\n
    - // Two faults, each in its own source.
    - teco --check -e Y\n3Q?EX$$ -f faulty --explain none => => faulty:2:3: IQN: after M comes a register, A to Z or 0 to 9\n--execute:2:2: IQN: after Q comes a register, A to Z or 0 to 9\n => => => 2 => faulty == Y\n  M? !!no register\nEX$$\n
    - // A block that one source opens and the next one closes.
    - teco --check -f open -e >EX$$ none => => => => => => open == Y<J\n
    - teco --check -p 3M?$ none => => --pages:1:2: IQN: after M comes a register, A to Z or 0 to 9\n => => => 2
    - teco --check -p J<FSi$o;> none => => --pages:1:3: UTC: the second text of FS has no ESC; two ESC end the command string\n => => => 2
    - teco --check -e YXAMAEX$$ none => => --execute:1:2: hint: not checked: XA puts what no check can see into a register that is called\n
    - teco --check -p XAMA>< none => => --pages:1:5: BNI: > has no <\n--pages:1:6: UTC: < has no >\n => => => 2
    - teco --check -b bytes none => => bytes:2:1: IQN: after M comes a register, A to Z or 0 to 9\n => => => 2 => bytes == Y\nM?\x1b\x1bEX\x1b\x1b
    - // A conditional of which a shell took the end.
    - teco --check -e YZ\"GIa$EX$$ none => => --execute:1:3: UTC: \"G has no '; between single quotes of a shell ' is spelled ^`\n => => => 2
    - teco --check -p Z\"GIa$^` none =>
    - teco --check -b bytes none => => bytes:1:3: UTC: \"G has no '\n => => => 2 => bytes == YZ\"GEX\x1b\x1b
    - // A file of bytes that is taken for a source. It is one of two, and the line is that of its own.
    - teco --check -f lib.teco -f macro none => => macro:1:8: hint: a source has $ for this ESC; teco -b takes the bytes of a file as they are\n => => => => lib.teco == @^UA/0L Ix^=$ /$$\n!!puts in x and a caret\n ++ macro == YI5 $ a\x1b\x1bEX\x1b\x1b
    - teco --check -b macro none => => => => => => macro == YI5 $ a\x1b\x1bEX\x1b\x1b
    - // A hint is no fault.
    - teco --check -e Y$$EX$ none => => --execute:1:7: hint: this is not run: it ends with one ESC, and wants two\n
    - teco --check -f wrong -f none in => => => teco: wrong:2:3: a caret before what it cannot stand before\n => => 3 => in == hi\n ++ wrong == HKEX$$\nIa^+$$\n
    - teco --check -f faulty -f none in => => => teco: cannot read none: there is no such file or folder\n => => 1 => in == hi\n ++ faulty == Y\n  M? !!no register\nEX$$\n";
