//! What the words of a line say.
use super::arguments::Arguments;
use super::ending::ends_so;
use super::word::OnPages;
use super::{arguments, ending, word, words_of};
use crate::tests::bytes::{has, is};
use crate::tests::rows::{Cells, Rule, all_hold, cells_of, number_or};
use std::alloc::Global;
use std::test::*;
use teco_cli::{
    AssignedValue, Assignment, Commands, Line, LineFault, is_standard_input, is_standard_output,
    line_of, refused_status, suffix_of,
};
use teco_core::NoMemory;

/// Where the commands come from: standard input, the sources of files and of a word, a word that is run on every page, or the bytes of a
/// file.
fn commands_told(alloc: Global, commands: &Commands) -> Result<String, NoMemory> {
    match commands {
        Commands::StandardInput => format!(in alloc; "standard input"),
        Commands::Sources(names, word) => format!(in alloc; "{names:?} {word:?}"),
        Commands::Pages(text) => format!(in alloc; "pages {text}"),
        Commands::Bytes(name) => format!(in alloc; "bytes {name}"),
    }
}

/// What a line says but for its commands and its values: the input, more of them, the output, whether it is in place, prompts, checks,
/// explains and is quiet, the limit, the seconds, the depth, and the lines of a page.
fn rest_told(alloc: Global, line: &Line) -> Result<String, NoMemory> {
    let (input, more, output) = (&line.input, &line.more, &line.output);
    let seconds = line.seconds;
    format!(in alloc;
        "{input} {more:?} {output:?} {:?} {:?} {seconds:?} {:?}",
        [
            line.in_place,
            line.prompt,
            line.check,
            line.explain,
            line.quiet,
            line.no_sync
        ],
        line.limit,
        [line.undo, line.page_lines]
    )
}

/// Whether it is told so, where that is said.
fn is_told(told: Result<String, NoMemory>, cell: &str) -> bool {
    match told {
        Ok(told) => cell.is_empty() || is(&told, cell),
        Err(NoMemory) => false,
    }
}

/// Whether a line keeps the old file by this suffix, or by none, where that is said.
fn keeps_so(line: &Line, cell: &str) -> bool {
    cell.is_empty() || is(suffix_of(line).unwrap_or("none"), cell)
}

/// Whether a line names this file for its session, where that is said.
fn has_session(line: &Line, cell: &str) -> bool {
    let name = match &line.session {
        Some(name) => name.as_str(),
        None => "none",
    };
    cell.is_empty() || is(name, cell)
}

fn says(alloc: Global, line: &Line, cells: &Cells) -> bool {
    cells[3].is_empty()
        && keeps_so(line, cells[4])
        && has_session(line, cells[5])
        && is_told(commands_told(alloc, &line.commands), cells[1])
        && is_told(rest_told(alloc, line), cells[2])
}

/// Whether a line is refused with the status that a cell says, if it does.
fn is_refused(fault: &LineFault, status: &str) -> bool {
    match fault {
        LineFault::Refused(error) => number_or(status, 256) == u64::from(refused_status(error)),
        LineFault::NoMemory => false,
    }
}

/// What the rows of lines tell. Each begins with words, with blanks between them.
#[derive(Clone, Copy)]
enum Lines {
    /// Where the commands come from, and what else they say, if that is said; or the status with which they are refused; the suffix of a file
    /// that is kept, and the file of a session, if these are said;
    Say,
    /// or how a run that they ask for ends.
    End,
}

impl Rule for Lines {
    fn holds(&self, alloc: Global, row: &str) -> bool {
        let cells = cells_of(row);
        match line_of(alloc, words_of(alloc, cells[0])) {
            Ok(line) => match self {
                Lines::Say => says(alloc, &line, &cells),
                Lines::End => ends_so(alloc, &line, &cells),
            },
            Err(fault) => is_refused(&fault, cells[3]),
        }
    }
}

const ROWS: &str = "
    // Where the commands come from.
    teco in => standard input
    teco -e Y$$EX$$ in => [] Some(\"Y$$EX$$\")
    teco in --execute ^EX$$ => [] Some(\"^EX$$\")
    teco --execute=-C$$ in => [] Some(\"-C$$\")
    // A value may begin with a hyphen, as any other.
    teco -e -C$$ in => [] Some(\"-C$$\")
    teco --execute -C$$ in => [] Some(\"-C$$\")
    teco -e -- in => [] Some(\"--\")
    teco -e -f in => [] Some(\"-f\")
    teco -p 0K in => pages 0K
    teco in --pages=0K => pages 0K
    teco in more -p -C => pages -C
    teco -f a in => [\"a\"] None
    teco in -fa => [\"a\"] None
    teco in --file=a => [\"a\"] None
    teco -f - in => [\"-\"] None
    // The files in their order, and then the word, wherever it stands.
    teco -f a -f b in => [\"a\", \"b\"] None
    teco -f b -e EX$$ --file=a in => [\"b\", \"a\"] Some(\"EX$$\")
    teco -e EX$$ -f a in => [\"a\"] Some(\"EX$$\")
    teco -b a in => bytes a
    teco in --bytes=- => bytes -
    // Lines that are refused, or ask for the help or the version.
    teco -e EX$$ -b a in => => => 3
    teco -f a -b a in => => => 3
    teco -p 0K -b a in => => => 3
    teco -b a -b a in => => => 3
    teco -e EX$$ -p 0K in => => => 3
    teco -p 0K -f a in => => => 3
    teco -e EX$$ -e EX$$ in => => => 3
    teco -e EX$$ -o b -i in => => => 3
    teco -e EX$$ --output - --in-place in => => => 3
    teco -e EX$$ -o b in more => => => 3
    teco in more => => => 3
    teco -i in more => => => 3
    teco - => => => 3
    teco /dev/stdin => => => 3
    teco -f - - => => => 3
    teco -f a -f /dev/stdin in /dev/fd/0 => => => 3
    teco -b - - => => => 3
    teco -i -e EX$$ - => => => 3
    teco -i -e EX$$ in /proc/self/fd/0 => => => 3
    teco --limit -1 in => => => 3
    teco -o => => => 3
    teco -- -e EX$$ in => => => 3
    teco --what in => => => 3
    teco --help => => => 0
    teco -V => => => 0
    // What the other options say.
    teco in => => in [] None [false, false, false, false, false, false] None None [None, None]
    teco --limit 5 --output o --prompt in => => in [] Some(\"o\") [false, true, false, false, false, false] Some(5) None [None, None]
    teco in --limit=1000000000000 --explain -o - => => in [] Some(\"-\") [false, false, false, true, false, false] Some(1000000000000) None [None, None]
    teco --seconds 1 in => => in [] None [false, false, false, false, false, false] None Some(1) [None, None]
    teco in --seconds=1000000000000 => => in [] None [false, false, false, false, false, false] None Some(1000000000000) [None, None]
    teco --undo 1 in => => in [] None [false, false, false, false, false, false] None None [Some(1), None]
    teco in --undo=100000 => => in [] None [false, false, false, false, false, false] None None [Some(100000), None]
    teco in -i => => in [] None [true, false, false, false, false, false] None None [None, None]
    teco -i in => => in [] None [true, false, false, false, false, false] None None [None, None]
    teco -b EX --check in => => in [] None [false, false, true, false, false, false] None None [None, None]
    teco --check --prompt in => => => 3
    teco -p 0K in --in-place a b -- -c => => in [\"a\", \"b\", \"-c\"] None [true, false, false, false, false, false] None None [None, None]
    teco -e EX$$ in - => => in [\"-\"] None [false, false, false, false, false, false] None None [None, None]
    teco -e EX$$ - => => - [] None [false, false, false, false, false, false] None None [None, None]
    teco -o -b in => => in [] Some(\"-b\") [false, false, false, false, false, false] None None [None, None]
    teco --page-lines 1 in => => in [] None [false, false, false, false, false, false] None None [None, Some(1)]
    teco in --page-lines=1000000000 => => in [] None [false, false, false, false, false, false] None None [None, Some(1000000000)]
    teco --page-lines 0 in => => => 3
    teco --page-lines 1000000001 in => => => 3
    teco --page-lines -1 in => => => 3
    teco --limit 1000000000001 in => => => 3
    teco --limit -1 in => => => 3
    teco --seconds 0 in => => => 3
    teco --seconds x in => => => 3
    teco --seconds 1000000000001 in => => => 3
    teco --seconds in => => => 3
    teco --undo 0 in => => => 3
    teco --undo 100001 in => => => 3
    teco --undo x in => => => 3
    teco -i=true in => => => 3
    teco in -q => => in [] None [false, false, false, false, true, false] None None [None, None]
    teco --quiet --explain in => => in [] None [false, false, false, true, true, false] None None [None, None]
    // The old file is kept if there is a suffix, which is not empty and has no slash. A value is no option, nor is a word after --.
    teco --in-place=.bak in => => in [] None [true, false, false, false, false, false] None None [None, None] => => .bak
    teco in -i.old => => in [] None [true, false, false, false, false, false] None None [None, None] => => .old
    teco --backup ~ in => => in [] None [true, false, false, false, false, false] None None [None, None] => => ~
    teco --backup -x in => => in [] None [true, false, false, false, false, false] None None [None, None] => => -x
    teco -i --in-place=.bak in => => in [] None [true, false, false, false, false, false] None None [None, None] => => .bak
    teco --in-place=.a -i.b -i in => => in [] None [true, false, false, false, false, false] None None [None, None] => => .b
    teco --in-place=in-place=i.x in => => in [] None [true, false, false, false, false, false] None None [None, None] => => in-place=i.x
    teco -i in => => => => none
    teco in => => => => none
    teco -e EX$$ in -- --in-place=.bak -i.bak => => in [\"--in-place=.bak\", \"-i.bak\"] None [false, false, false, false, false, false] None None [None, None] => => none
    teco -e --in-place=.bak in => [] Some(\"--in-place=.bak\") => => => none
    teco -o -i.bak in => => in [] Some(\"-i.bak\") [false, false, false, false, false, false] None None [None, None] => => none
    teco --in-place= in => => => 3
    teco --in-place=a/b in => => => 3
    teco -o out --in-place=.bak in => => => 3
    teco -e EX$$ -i.bak - => => => 3
    teco -i.bak => => => 3
    // The file of a session is of one INPUT, and neither that nor the output.
    teco --session s in => => => => => s
    teco in -e EX$$ --session=-s => => => => => -s
    teco in => => => => => none
    teco --session s --session t in => => => => => t
    teco --session in in => => => 3
    teco --session s -o s in => => => 3
    teco --session s -e EX$$ in more => => => 3
    teco --session s -p 0K in => => => 3
    teco --session s -v A=b in => => => 3
    teco --session s -e EX$$ --check in => => => 3
    teco --session => => => 3
    // Of a setting that is given again the last one stands; commands are not dropped.
    teco -i -i in => => in [] None [true, false, false, false, false, false] None None [None, None]
    teco --no-sync --no-sync -i in => => in [] None [true, false, false, false, false, true] None None [None, None]
    teco --no-sync=yes in => => => 3
    teco -qq -i --in-place in => => in [] None [true, false, false, false, true, false] None None [None, None]
    teco --limit 5 --limit 10 in => => in [] None [false, false, false, false, false, false] Some(10) None [None, None]
    teco --seconds 1 in --seconds=2 => => in [] None [false, false, false, false, false, false] None Some(2) [None, None]
    teco --undo 1 --undo 2 --page-lines 3 --page-lines 4 in => => in [] None [false, false, false, false, false, false] None None [Some(2), Some(4)]
    teco -o a -ob in => => in [] Some(\"b\") [false, false, false, false, false, false] None None [None, None]
    teco --limit x --limit 5 in => => => 3
    teco --limit 5 --limit x in => => => 3
    teco -p 0K -p 0K in => => => 3
    // What is put into registers is told below; these are refused.
    teco -v A in => => => 3
    teco -v in => => => 3
    teco -v = in => => => 3
    teco -v ?=x in => => => 3
    teco -v AB=x in => => => 3
    teco -v A: in => => => 3
    teco -v A:x=1 in => => => 3
    teco -v A:= in => => => 3
    teco -v A:=- in => => => 3
    teco -v A:=1x in => => => 3
    teco -v A:=2147483648 in => => => 3
    teco -v A:=-2147483649 in => => => 3
    teco -v A=x -v B in => => => 3
    ";

/// What is put into registers: the number of each register, and the bytes of its text or its number.
fn values_told(alloc: Global, values: &[Assignment]) -> Result<String, NoMemory> {
    let mut told = String::new(alloc);
    for assignment in values {
        let register = assignment.register.index();
        let one = match &assignment.value {
            AssignedValue::Text(text) => format!(in alloc; "{register} {text:?} ")?,
            AssignedValue::Number(number) => format!(in alloc; "{register} {number} ")?,
        };
        told.push_str(one.as_str())?;
    }
    Ok(told)
}

/// Words, and what they put into registers.
#[derive(Clone, Copy)]
struct Values;

impl Rule for Values {
    fn holds(&self, alloc: Global, row: &str) -> bool {
        let [words, told, ..] = cells_of(row);
        match line_of(alloc, words_of(alloc, words)) {
            Ok(line) => match values_told(alloc, &line.values) {
                Ok(values) => values.as_str().trim_end() == told,
                Err(NoMemory) => false,
            },
            Err(_) => false,
        }
    }
}

const VALUES: &str = "
    teco in =>
    teco -v A=bc in => 0 [98, 99]
    teco -v z=b in => 25 [98]
    teco -v 0= in => 26 []
    teco in --assign=9=a=b => 35 [97, 61, 98]
    teco -vA=:=1 in => 0 [58, 61, 49]
    teco -v A=x -v A:=-5 -v A=y in => 0 [120] 0 -5 0 [121]
    teco -v B:=0 in => 1 0
    teco -v B:=007 in => 1 7
    teco -v B:=+7 in => 1 7
    teco -v B:=2147483647 in => 1 2147483647
    teco -v B:=-2147483648 in => 1 -2147483648
    teco -e EX$$ -v A=b in => 0 [98]
    ";

/// Names, and whose each is: standard input's, standard output's, or both.
#[derive(Clone, Copy)]
struct Names;

impl Rule for Names {
    fn holds(&self, _alloc: Global, row: &str) -> bool {
        let [name, streams, ..] = cells_of(row);
        is_standard_input(name) == has(streams, "input")
            && is_standard_output(name) == has(streams, "output")
    }
}

const NAMES: &str = "
    /dev/stdin => input
    /dev/fd/0 => input
    /proc/self/fd/0 => input
    - => input output
    /dev/stdout => output
    /dev/fd/1 => output
    /proc/self/fd/1 => output
    ./- => neither
    /dev/stderr => neither
     => neither
    ";

#[test]
fn gives_what_the_words_say_and_says_how_it_ends(rt: HostRuntime) {
    let alloc = rt.alloc();
    all_hold(&rt, alloc, &Lines::Say, ROWS);
    all_hold(&rt, alloc, &Lines::End, ending::ROWS);
    all_hold(&rt, alloc, &Values, VALUES);
    all_hold(&rt, alloc, &Names, NAMES);
    all_hold(&rt, alloc, &OnPages, word::ROWS);
    all_hold(&rt, alloc, &Arguments, arguments::ROWS);
}
