//! The programs of the folder examples, each over inputs with and without pages, line ends and bytes.
use super::holds;
use super::programs::{
    COLUMNS, E, JOIN, NUMBER, PRIMES, REPLACE, REVERSE, SORT, SPLIT, STRIP, SWAP, WRAP,
};
use crate::tests::rows::{Rule, all_hold, cells_of, number_or};
use std::alloc::Global;
use std::test::*;

static PROGRAMS: [&str; 12] = [
    SORT, REVERSE, NUMBER, STRIP, WRAP, SWAP, COLUMNS, JOIN, SPLIT, REPLACE, PRIMES, E,
];

/// The number of a program, and what it types and writes over an input. It ends by its exit.
#[derive(Clone, Copy)]
struct Programs;

impl Rule for Programs {
    fn holds(&self, alloc: Global, row: &str) -> bool {
        let [number, typed, output, input, ..] = cells_of(row);
        let program = PROGRAMS[number_or(number, 0) as usize % PROGRAMS.len()];
        let cells = [program, typed, output, input, "exit", "", "", "", ""];
        holds(alloc, &cells, b"")
    }
}

const ROWS: &str = "
    - // Sorts lines.
    - 0 => => \n\tb\nappl\napple\napple\napple pie\nfig\npear\n => pear\napple\n\x0capple pie\nfig\n\tb\nappl\n\napple
    - 0 => => =>
    - 0 => => a\nb\n => b\x0ca
    - 0 => => \x0c => \x0c
    - // More lines than are merged: they go into heaps.
    - 0 => => \n\n\tm\n#\n$\n-1\n[]\n^,\na\na\tb\na b\nab\nab\nabc\nb\nb\nbegin\nbeginni\nbeginning\nbeginning of line 1\nbeginning of line 12\nbeginning of line 2\nbeginning of line 3\nbeginninga\nbeginningb\nbeginningc\nbeginningd\nbeginninge\nbeginningf\nbeginningg\nbeginningh\nbeginningi\nbeginningj\nbeginningk\nm\nm\nm\t\nn\no\np\nq\nr\ns\nt\ntha\nthan\nthas\nthe\nthen\nthes\nthi\nthin\nthis\ntho\nthon\nthos\nthu\nthun\nthus\nu\nv\nw\nx\ny\nz\n~\n => thu\nthes\nabc\nu\nv\nbeginning\nthen\nz\nbeginningb\nb\ns\nbeginningj\nm\n\n-1\nthin\nab\nbeginninge\nq\nw\nbeginningg\nbeginning of line 3\nbeginninga\nbeginni\np\nbegin\nthis\nbeginningf\nab\nthe\n\x0cthas\nb\nbeginningi\na\nbeginningk\n~\n\tm\ntha\ntho\nx\no\na b\n$\nthan\nbeginning of line 12\nn\nthon\nm\nt\nbeginningc\nbeginningh\nthos\nbeginning of line 1\n[]\nm\t\n\n^,\na\tb\nthun\ny\nbeginning of line 2\nthus\n#\nr\nbeginningd\nthi
    - // Reverses lines.
    - 1 => => four\n\nthree\ntwo\none\n => one\ntwo\n\x0cthree\n\nfour
    - 1 => => =>
    - 1 => => one\n => one
    - 1 => => b\na\n => a\x0cb\n\x0c
    - // Numbers lines.
    - 2 => 4\r\n =>      1\tone\n     2\t\n\x0c     3\ttwo\n     4\tthree => one\n\n\x0ctwo\nthree
    - 2 => 0\r\n => =>
    - 2 => 1\r\n => \x0c     1\t\n => \x0c\n
    - // Strips blanks.
    - 3 => => one\ntwo\n\x0c\n\x0c thr ee => one  \ntwo\t \n\x0c  \n\x0c thr ee \t
    - 3 => => =>
    - 3 => => \x0c =>  \x0c\t
    - 3 => => a\n => a\n
    - // Wraps lines.
    - 4 => => the quick brown fox jumps over the lazy dog and runs away into the deep\ngreen woods\nshort\nxxxxxxxxxxxxxxxxxxxxxxxxxxxxxxxxxxxxxxxxxxxxxxxxxxxxxxxxxxxxxxxxxxxxxxxx\nxxxxxxxx\n\x0cyyyyyyyyyyyyyyyyyyyyyyyyyyyyyyyyyyyyyyyyyyyyyyyyyyyyyyyyyyyyyyyyyyyyyyyy\nzzzzzzzzzzzzzzzzzzzzzzzzzzzzzzzzzzzzzzzzzzzzzzzzzzzzzzzzzzzzzzzzzzzzzzzz\na\n vvvvvvvvvvvvvvvvvvvvvvvvvvvvvvvvvvvvvvvvvvvvvvvvvvvvvvvvvvvvvvvvvvvvvvv\nvv => the quick brown fox jumps over the lazy dog and runs away into the deep green woods\nshort\nxxxxxxxxxxxxxxxxxxxxxxxxxxxxxxxxxxxxxxxxxxxxxxxxxxxxxxxxxxxxxxxxxxxxxxxxxxxxxxxx\n\x0cyyyyyyyyyyyyyyyyyyyyyyyyyyyyyyyyyyyyyyyyyyyyyyyyyyyyyyyyyyyyyyyyyyyyyyyy\nzzzzzzzzzzzzzzzzzzzzzzzzzzzzzzzzzzzzzzzzzzzzzzzzzzzzzzzzzzzzzzzzzzzzzzzz a\n vvvvvvvvvvvvvvvvvvvvvvvvvvvvvvvvvvvvvvvvvvvvvvvvvvvvvvvvvvvvvvvvvvvvvvvvv
    - 4 => => =>
    - 4 => => \n\x0c => \n\x0c
    - // Swaps columns.
    - 5 => => b,a,c\nno comma\nx,\n\x0c,y\n\nq,p => a,b,c\nno comma\n,x\n\x0cy,\n\np,q
    - 5 => => =>
    - 5 => => , => ,
    - 5 => => b,a\n,c\x0cd\nf,e => a,b\nc,\x0cd\ne,f
    - 5 => => bb,a,c\n,,\n,ddd,e,f\n\x0ch,g,i => a,bb,c\n,,\nddd,,e,f\n\x0cg,h,i
    - // Reverses columns.
    - 6 => => c,b,a\nno comma\nx,\n\x0c,y\n\nq,p => a,b,c\nno comma\n,x\n\x0cy,\n\np,q
    - 6 => => =>
    - 6 => => ,,,,,,,,,,,,,,,,,,,,,,,,,,,,,,,,,,,,,,,,,,,,,,,,,,,,,,,,,,,,,,, => ,,,,,,,,,,,,,,,,,,,,,,,,,,,,,,,,,,,,,,,,,,,,,,,,,,,,,,,,,,,,,,,
    - // Joins pages.
    - 7 => => one\ntwo\nthree => one\n\x0ctwo\x0cthree
    - 7 => => =>
    - 7 => => one\ntwo\n => one\n\x0c\x0ctwo\n\x0c
    - // Splits pages.
    - 8 => => \n\n\n\n\n\n\n\n\n\n\n\n\n\n\n\n\n\n\n\n\n\n\n\n\n\n\n\n\n\n\n\n\n\n\n\n\n\n\n\n\n\n\n\n\n\n\n\n\n\n\n\n\n\n\n\n\n\n\na\n\x0cb\n => \n\n\n\n\n\n\n\n\n\n\n\n\n\n\n\n\n\n\n\n\n\n\n\n\n\n\n\n\n\n\n\n\n\n\n\n\n\n\n\n\n\n\n\n\n\n\n\n\n\n\n\n\n\n\n\n\n\n\n\x0ca\nb\n
    - 8 => => =>
    - 8 => => a\nb\nc => a\n\x0cb\x0cc
    - 8 => => \n\n\n\n\n\n\n\n\n\n\n\n\n\n\n\n\n\n\n\n\n\n\n\n\n\n\n\n\n\n\n\n\n\n\n\n\n\n\n\n\n\n\n\n\n\n\n\n\n\n\n\n\n\n\n\n\n\n\n\n => \n\n\n\n\n\n\n\n\n\n\n\n\n\n\n\n\n\n\n\n\n\n\n\n\n\n\n\n\n\n\n\n\n\n\n\n\n\n\n\n\n\n\n\n\n\n\n\n\n\n\n\n\n\n\n\n\n\n\n\n
    - // Replaces, and counts.
    - 9 => 3 replaced\n => The color of\ncolorless\n\x0cpage\n\x0ccolor => The colour of\ncolourless\n\x0cpage\n\x0ccolour
    - 9 => 0 replaced\n => =>
    - 9 => 0 replaced\n => col\x0cour => col\x0cour
    - // Writes primes.
    - 10 => 25\r\n => 2\n3\n5\n7\n11\n13\n17\n19\n23\n29\n31\n37\n41\n43\n47\n53\n59\n61\n67\n71\n73\n79\n83\n89\n97\n =>
    - // Types e.
    - 11 => 2.71828182845904523536028747135266249775724709369995\n => =>";

#[test]
fn programs_do_what_they_say(rt: HostRuntime) {
    all_hold(&rt, rt.alloc(), &Programs, ROWS);
}
