//! Slips of a first hour, each with the line that it gets: none is silent.
use super::Runs;
use crate::tests::rows::all_hold;
use std::test::*;

const UNFINISHED: &str = "
    - // A text or a block that isn't closed: nothing is touched.
    - teco -i -p J<FSold$new;> f => => => --pages:1:3: UTC: the second text of FS has no ESC; two ESC end the command string\n => => 3 => f == old one\nold two\n
    - teco -i -p J<FSold$new$; f => => => --pages:1:2: UTC: < has no >\n => => 3 => f == old one\nold two\n
    - teco -i -p Ihead f => => => --pages:1:1: UTC: the text of I has no ESC\n => => 3 => f == old one\nold two\n
    - teco -i -p 3\"GD f => => => --pages:1:2: UTC: \"G has no '; between single quotes of a shell ' is spelled ^`\n => => 3 => f == old one\nold two\n
    - teco -i -p D' f => => => --pages:1:2: ILL: ' has no \"\n => => 3 => f == old one\nold two\n
    - teco -i -p J>D f => => => --pages:1:2: BNI: > has no <\n => => 3 => f == old one\nold two\n
    - teco -i -e Y<FSold$new$;EX$$ f => => => --execute:1:2: UTC: < has no >\n => => 3 => f == old one\nold two\n
    - // Double quotes, between which the shell makes nothing of $new, and a number of $$.
    - teco -i -p J<FSold$;> f => => => --pages:1:3: UTC: the second text of FS has no ESC; two ESC end the command string\n => => 3 => f == old one\nold two\n
    - teco -e Y<FSold$;>EX4711 f => => => --execute:1:3: UTC: the second text of FS has no ESC; two ESC end the command string\n => => 3 => f == old one\nold two\n
    - // An empty text before ESC or a second ESC ends the string.
    - teco -i -p J<FSold$$;> f => => => --pages:1:3: UTC: the second text of FS has no ESC; two ESC end the command string\n--pages:1:11: BNI: > has no <\n => => 3 => f == old one\nold two\n
    - // No exit, or no two ESC at the end.
    - teco -e Y<FSold$new$;>$$ f => => => => teco: f: not written, the commands ended without EX\n => 2 => f == old one\nold two\n
    - teco -e Y<FSold$new$;>EX f => => => => teco: f: 16 bytes after the last $$ were not run\n => 2 => f == old one\nold two\n
    - teco -e Y<FSold$new$;>EX$ f => => => => teco: f: 17 bytes after the last $$ were not run\n => 2 => f == old one\nold two\n
    - teco -i -e YIhead$EX$ f => => => => teco: f: 10 bytes after the last $$ were not run\n => 2 => f == old one\nold two\n
    - teco -i -e YHT$$ f => => old one\nold two\n => => teco: f: not written, the commands ended without EX\n => 2 => f == old one\nold two\n
    - teco -f lib f => => => => teco: f: not written, the commands ended without EX\n => 2 => f == old one\nold two\n ++ lib == @^UA/<FSold^=$new^=$;>/$$\n
    - teco -i -e 4D$$ f g => => => => teco: f: --execute:1:2: DTB: delete past the buffer\nteco: g: --execute:1:2: DTB: delete past the buffer\n => 2 => f == old one\nold two\n ++ g == none\n
    - // Dollars where ESC is wanted.
    - teco -b dollars f => => => => teco: f: 19 bytes after the last $$ were not run\n => 2 => f == old one\nold two\n ++ dollars == Y<FSold$new$;>EX$$\n";

const FAILING: &str = "
    - // A search that finds nothing, in one file of two; in a file of commands the line is that of the file.
    - teco -i -p Sold$-3DIold$ f g => => => => teco: g: --pages:1:1: SRH: the search found nothing\n => 2 => f == old one\nold two\n ++ g == none\n
    - teco -i -p SOLD$ f => => => => teco: f: --pages:1:1: SRH: the search found nothing\n => 2 => f == old one\nold two\n
    - teco -i -e YSOLD$IX$EX$$ f => => => => teco: f: --execute:1:2: SRH: the search found nothing\n => 2 => f == old one\nold two\n
    - teco -i -f five f => => => => teco: f: five:4:3: SRH: the search found nothing\n => 2 => f == old one\nold two\n ++ five == Y\nJ\nL\n  Sxyz$ !! not there\nEX$$\n
    - teco -i -p <FSold$new$> f => => => => teco: f: --pages:1:2: SRH: the search found nothing\n => 2 => f == old one\nold two\n
    - teco -i -p S[a-z]+$D f => => => => teco: f: --pages:1:1: SRH: the search found nothing\n => 2 => f == old one\nold two\n
    - teco -i -p S^EZ$D f => => => => teco: f: --pages:1:1: ICE: search text not allowed\n => 2 => f == old one\nold two\n
    - // Reading where -p has read; a place or bytes that aren't there; numbers that a command doesn't take.
    - teco -i -p YJ<FSold$new$;> f => => => => teco: f: --pages:1:1: YCA: page would replace a nonempty buffer\n => 2 => f == old one\nold two\n
    - teco -i -p 99C f => => => => teco: f: --pages:1:3: POP: place outside the buffer\n => 2 => f == old one\nold two\n
    - teco -i -p 99D f => => => => teco: f: --pages:1:3: DTB: delete past the buffer\n => 2 => f == old one\nold two\n
    - teco -i -p 1,2J f => => => => teco: f: --pages:1:4: ARG: wrong argument, or wrong arithmetic\n => 2 => f == old one\nold two\n
    - teco -i -p 1,2,3K f => => => => teco: f: --pages:1:4: ARG: wrong argument, or wrong arithmetic\n => 2 => f == old one\nold two\n
    - teco -i -p J=0U1 f => => => => teco: f: --pages:1:2: NAE: no number before =\n => 2 => f == old one\nold two\n
    - teco -i -p (1+2C f => => => => teco: f: --pages:1:5: MRP: parenthesis open at a command\n => 2 => f == old one\nold two\n
    - // A limit.
    - teco --limit 20 -i -p J<FSold$new$;> many => => => => teco: many: --pages:1:13: LIM: 20 steps are done: --limit N allows more\n => 2 => many == old old old old old old old old\n
    - teco --limit 500 -i -p <> f => => => => teco: f: --pages:1:2: LIM: 500 steps are done: --limit N allows more\n => 2 => f == old one\nold two\n
    - // No command, one of TECO-11, or the spelling of another program.
    - teco -i -p M?$ f => => => --pages:1:1: IQN: after M comes a register, A to Z or 0 to 9\n => => 3 => f == old one\nold two\n
    - teco -i -p Ohere$ f => => => --pages:1:1: TAG: no tag !here! is in this list or one around it\n => => 3 => f == old one\nold two\n
    - teco -i -p ? f => => => --pages:1:1: ILL: ? of TECO-11 is left out: it shows each command as it runs; here: teco-debug\n => => 3 => f == old one\nold two\n
    - teco -i -p FNold$new$ f => => => --pages:1:1: ILL: FN of TECO-11 is left out: it replaces on this page or a later one; here: None$ and then -nD Itwo$\n => => 3 => f == old one\nold two\n
    - teco -i -e ERg$Y<FSold$new$;>EX$$ f => => => --execute:1:1: ILL: ER of TECO-11 is left out: it opens an input file; here: give it as INPUT on the command line\n => => 3 => f == old one\nold two\n
    - teco -i -e EBf$Y<FSold$new$;>EX$$ f => => => --execute:1:1: ILL: EB of TECO-11 is left out: it opens a file to edit it; here: give it as INPUT with --in-place, which keeps no .BAK\n => => 3 => f == old one\nold two\n
    - teco -i -p J<FSold$new$;>q f => => => --pages:1:15: UTC: the text ends inside a command\n => => 3 => f == old one\nold two\n
    - teco -i -e s/old/new/g f => => => --execute:1:1: UTC: the text of s has no ESC\n => => 3 => f == old one\nold two\n
    - teco -i -p %s/old/new/g f => => => --pages:1:4: UTC: the text of o has no ESC\n => => 3 => f == old one\nold two\n
    - teco -i -p :wq f => => => --pages:1:1: ILL: W of TECO-11 is left out: it shows the screen; here: nT, or teco-term\n--pages:1:3: UTC: the text ends inside a command\n => => 3 => f == old one\nold two\n
    - teco -i -p 2^3=$ f => => => teco: --pages:1:2: a caret before what it cannot stand before\n => => 3 => f == old one\nold two\n
    - // Files that aren't there.
    - teco -i -p D none f => => => teco: cannot read none: there is no such file or folder\n => => 1 => f == old one\nold two\n => f == ld one\nold two\n
    - teco -i -f none f => => => teco: cannot read none: there is no such file or folder\n => => 1 => f == old one\nold two\n
    - teco -i -b none f => => => teco: cannot read none: there is no such file or folder\n => => 1 => f == old one\nold two\n";

const MEANT: &str = "
    - // What ends well, though something else was meant, is told by --check or --explain.
    - teco --check -i -e <FSold$new$;>EX$$ f => => --execute:1:18: hint: no page is read: Y reads the first\n => => => => f == old one\nold two\n
    - teco --explain -i -e <FSold$new$;>EX$$ f => => => => EX came before any page was read: the input is copied\nf is unchanged\n => => f == old one\nold two\n
    - teco --explain -i -e Y<FSold$new$;>EX$$ pages => => => => pages is written\n => => pages == old\n\x0cold\n\x0cold\n => pages == new\n\x0cold\n\x0cold\n
    - teco --check -i -p J<FSold$new$;>EX pages => => --pages:1:17: hint: EX ends the run before this\n => => => => pages == old\n\x0cold\n\x0cold\n
    - teco --explain -i -p J<FS^bold$new$;> f => => => => f is unchanged\n => => f == old one\nold two\n
    - teco --explain -i -p J<FSo.d$new$;> f => => => => f is unchanged\n => => f == old one\nold two\n
    - teco --explain -i -p J<FSOLD$new$;> f => => => => f is unchanged\n => => f == old one\nold two\n
    - teco --explain -i -p J<FSold$new\\n$;> f => => => => f is written\n => => f == old one\nold two\n => f == new\\n one\nnew\\n two\n
    - teco --explain -i -e YEX$$HT$$ f => => => => 4 bytes after the last string that ran were not run\nf is unchanged\n => => f == old one\nold two\n
    - teco --explain -o -i -p J<FSold$new$;> f => => => => -i is written\n => => f == old one\nold two\n => -i == new one\nnew two\n ++ f == old one\nold two\n
    - teco --explain -i -p J<FSold$new$;>P pages => => => => pages is written\n => => pages == old\n\x0cold\n\x0cold\n => pages == new\n\x0cold\n\x0cnew\n
    - teco --check -i -f escs f => => escs:1:8: hint: a source has $ for this ESC; teco -b takes the bytes of a file as they are\n => => => => f == old one\nold two\n ++ escs == Y<FSold\x1bnew\x1b;>EX\x1b\x1b\n
    - // Commands on standard input, which tell nothing by themselves.
    - teco --explain -i f => J<FSold$new$;>EX$$\n => => => 19 bytes after the last ESC ESC were not run\nthe commands ended without EX: f is not written\n => 2 => f == old one\nold two\n
    - teco --explain f => Y\x1b\x1b<FSold$new$;>EX => => => 15 bytes after the last ESC ESC were not run\nthe commands ended without EX: f.out is not written\n => 2 => f == old one\nold two\n";

const OPTIONS: &str = "
    - // Options of other programs.
    - teco -pi J<FSold$new$;> f => => => --pages:1:1: UTC: the text ends inside a command\n => => 3 => f == old one\nold two\n
    - teco -n -p J<FSold$new$;> f => => => error: unexpected argument '-n' found\n\n  tip: to pass '-n' as a value, use '-- -n'\n\nUsage: teco [OPTIONS] <INPUT>...\n\nFor more information, try '--help'.\n => => 3 => f == old one\nold two\n
    - teco -i.bak -p J<FSold$new$;> f => => => => => => f == old one\nold two\n => f == new one\nnew two\n ++ f.bak == old one\nold two\n
    - teco -ibak -p J<FSold$new$;> f => => => error: only one of '--pages <STRINGS>', '--bytes <FILE>', and '--file <FILE>' or '--execute <STRINGS>' can be used\n\nUsage: teco [OPTIONS] <INPUT>...\n\nFor more information, try '--help'.\n => => 3 => f == old one\nold two\n
    - teco --ex EX$$ f => => => error: unexpected argument '--ex' found\n\n  tip: a similar argument exists: '--explain'\n\nUsage: teco [OPTIONS] <INPUT>...\n\nFor more information, try '--help'.\n => => 3 => f == old one\nold two\n
    - teco --exec EX$$ f => => => error: unexpected argument '--exec' found\n\n  tip: a similar argument exists: '--execute'\n\nUsage: teco [OPTIONS] <INPUT>...\n\nFor more information, try '--help'.\n => => 3 => f == old one\nold two\n
    - teco --inplace -p D f => => => error: unexpected argument '--inplace' found\n\n  tip: a similar argument exists: '--in-place'\n\nUsage: teco [OPTIONS] <INPUT>...\n\nFor more information, try '--help'.\n => => 3 => f == old one\nold two\n
    - teco s/old/new/ f => => => error: more than one INPUT needs commands from '--execute <STRINGS>', '--pages <STRINGS>', '--file <FILE>' or '--bytes <FILE>'\n\nUsage: teco [OPTIONS] <INPUT>...\n\nFor more information, try '--help'.\n => => 3 => f == old one\nold two\n
    - // No INPUT, or no value.
    - teco -i -p D => => => error: the following required arguments were not provided:\n  <INPUT>\n\nUsage: teco [OPTIONS] <INPUT>...\n\nFor more information, try '--help'.\n => => 3 => f == old one\nold two\n
    - teco f -e => => => error: a value is required for '--execute <STRINGS>' but none was supplied\n\nFor more information, try '--help'.\n => => 3 => f == old one\nold two\n
    - teco -f => => => error: a value is required for '--file <FILE>' but none was supplied\n\nFor more information, try '--help'.\n => => 3 => f == old one\nold two\n
    - // Values that no option takes.
    - teco --limit x -p D f => => => error: invalid value 'x' for '--limit <N>': invalid digit found in string\n\nFor more information, try '--help'.\n => => 3 => f == old one\nold two\n
    - teco --limit -1 -p D f => => => error: invalid value '-1' for '--limit <N>': invalid digit found in string\n\nFor more information, try '--help'.\n => => 3 => f == old one\nold two\n
    - teco --limit 1000000000001 -p D f => => => error: invalid value '1000000000001' for '--limit <N>': 1000000000001 is not in 0..=1000000000000\n\nFor more information, try '--help'.\n => => 3 => f == old one\nold two\n
    - teco --undo 100001 -p D f => => => error: invalid value '100001' for '--undo <N>': 100001 is not in 1..=100000\n\nFor more information, try '--help'.\n => => 3 => f == old one\nold two\n
    - teco --page-lines 0 -p D f => => => error: invalid value '0' for '--page-lines <N>': 0 is not in 1..=1000000000\n\nFor more information, try '--help'.\n => => 3 => f == old one\nold two\n
    - teco --seconds 1s -p D f => => => error: invalid value '1s' for '--seconds <N>': invalid digit found in string\n\nFor more information, try '--help'.\n => => 3 => f == old one\nold two\n
    - // Values of no register.
    - teco -v AB=x -p D f => => => error: invalid value 'AB=x' for '--assign <A=TEXT>': expected A=TEXT or A:=N, where A is a letter or a digit, and N a number from -2147483648 to 2147483647\n\nUsage: teco [OPTIONS] <INPUT>...\n\nFor more information, try '--help'.\n => => 3 => f == old one\nold two\n
    - teco -v A -p D f => => => error: invalid value 'A' for '--assign <A=TEXT>': expected A=TEXT or A:=N, where A is a letter or a digit, and N a number from -2147483648 to 2147483647\n\nUsage: teco [OPTIONS] <INPUT>...\n\nFor more information, try '--help'.\n => => 3 => f == old one\nold two\n
    - teco -v A:=x -p D f => => => error: invalid value 'A:=x' for '--assign <A=TEXT>': expected A=TEXT or A:=N, where A is a letter or a digit, and N a number from -2147483648 to 2147483647\n\nUsage: teco [OPTIONS] <INPUT>...\n\nFor more information, try '--help'.\n => => 3 => f == old one\nold two\n
    - teco -v A:=2147483648 -p D f => => => error: invalid value 'A:=2147483648' for '--assign <A=TEXT>': expected A=TEXT or A:=N, where A is a letter or a digit, and N a number from -2147483648 to 2147483647\n\nUsage: teco [OPTIONS] <INPUT>...\n\nFor more information, try '--help'.\n => => 3 => f == old one\nold two\n
    - teco -v ?=x -p D f => => => error: invalid value '?=x' for '--assign <A=TEXT>': expected A=TEXT or A:=N, where A is a letter or a digit, and N a number from -2147483648 to 2147483647\n\nUsage: teco [OPTIONS] <INPUT>...\n\nFor more information, try '--help'.\n => => 3 => f == old one\nold two\n
    - teco -v -i -p D f => => => error: invalid value '-i' for '--assign <A=TEXT>': expected A=TEXT or A:=N, where A is a letter or a digit, and N a number from -2147483648 to 2147483647\n\nUsage: teco [OPTIONS] <INPUT>...\n\nFor more information, try '--help'.\n => => 3 => f == old one\nold two\n
    - teco -p D f -v => => => error: a value is required for '--assign <A=TEXT>' but none was supplied\n\nFor more information, try '--help'.\n => => 3 => f == old one\nold two\n";

/// The tables. Past the last there are no rows.
fn table(at: usize) -> &'static str {
    match at {
        0 => UNFINISHED,
        1 => FAILING,
        2 => MEANT,
        3 => OPTIONS,
        _ => "",
    }
}

#[test]
fn each_slip_has_its_line(rt: HostRuntime) {
    for at in 0..8 {
        all_hold(&rt, rt.alloc(), &Runs, table(at));
    }
}
