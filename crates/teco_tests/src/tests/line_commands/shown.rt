//! The help, and why a line is faulty, as the parser shows them.

pub(crate) const ROWS: &str = "
    - teco --help => => TECO, a text editor whose command strings are programs, each of which can be undone\n\n\
        Usage: teco [OPTIONS] <INPUT>...\n\n\
        Arguments:\n  \
        <INPUT>     The file to edit, or - for standard input; only --in-place, or --output with its name, changes it\n  \
        [INPUT]...  More files, each edited by itself, in their order\n\n\
        Options:\n  \
        -e, --execute <STRINGS>  The command strings, whose output replaces INPUT.out: $ is ESC, ^J a line end, and !! begins a comment\n  \
        -p, --pages <STRINGS>    The same, run on each page, and then an exit; the output goes to standard output\n  \
        -f, --file <FILE>        A file of the same kind; the commands are those of each FILE in order, and then those of --execute\n  \
        -b, --bytes <FILE>       The file that the commands are read from, as they are\n  \
        -v, --assign <A=TEXT>    Puts TEXT into register A before the first string, or by A:=N the number N; may be repeated\n  \
        -o, --output <FILE>      Where the output goes after an exit, - for standard output; without it INPUT.out, or - if INPUT is - or with --pages\n  \
        -i, --in-place           Writes the output over each INPUT\n      \
        --backup <SUFFIX>    The same, and keeps the old file as INPUT with SUFFIX after its name; --in-place=SUFFIX says so too, and -i.bak\n      \
        --no-sync            Does not wait until each output is on the disk; a crash of the system may leave a part of one\n      \
        --session <FILE>     Keeps what is done in FILE, so that a later run goes on from there, with all that can be undone\n      \
        --check              Prints the faults of the commands, with their places; runs nothing, and reads no INPUT\n      \
        --page-lines <N>     The most lines of a page, at most 1000000000; without it form feeds end pages\n      \
        --limit <N>          The most steps of each command string, at most 1000000000000; without it 1000000, and 1000 for each byte of INPUT if an option gives the commands\n      \
        --seconds <N>        The most seconds that each command string may run, at most 1000000000000; any time without it\n      \
        --undo <N>           The most command strings kept to be undone, at most 100000; all without it\n      \
        --prompt             Prints * where a command string is awaited\n      \
        --explain            Explains each error, and with --prompt what was done, on standard error\n  \
        -q, --quiet              Says nothing on standard error of how a run ends; the status stays\n      \
        --wide               Reads the commands in the wider language of old macros\n  \
        -h, --help               Print help\n  \
        -V, --version            Print version\n\n\
        Commands are read from standard input where no option gives them, and what they print goes to standard\n\
        output. In STRINGS, and in the files of --file, $ is ESC and ^J ends a line; line ends, margins and what\n\
        follows !! are for readers alone. Two ESC end a command string, which is then run; EX writes the output\n\
        and ends the run. Each INPUT is a run of its own; several need an option that gives the commands.\n \
        => => => => in == hi\n
    - // A faulty line says why, and shows the usage; nothing is read, run or written.
    - teco -e EX$$ -b in in => => => error: only one of '--pages <STRINGS>', '--bytes <FILE>', and '--file <FILE>' or '--execute <STRINGS>' can be used\n\nUsage: teco [OPTIONS] <INPUT>...\n\nFor more information, try '--help'.\n => => 3 => in == hi\n
    - teco -e EX$$ -p 0K in => => => error: only one of '--pages <STRINGS>', '--bytes <FILE>', and '--file <FILE>' or '--execute <STRINGS>' can be used\n\nUsage: teco [OPTIONS] <INPUT>...\n\nFor more information, try '--help'.\n => => 3 => in == hi\n
    - teco -e EX$$ -e EX$$ in => => => error: the argument '--execute <STRINGS>' cannot be used multiple times\n\nUsage: teco [OPTIONS] <INPUT>...\n\nFor more information, try '--help'.\n => => 3 => in == hi\n
    - teco -p 0K --pages 0K in => => => error: the argument '--pages <STRINGS>' cannot be used multiple times\n\nUsage: teco [OPTIONS] <INPUT>...\n\nFor more information, try '--help'.\n => => 3 => in == hi\n
    - teco -b in -b in in => => => error: the argument '--bytes <FILE>' cannot be used multiple times\n\nUsage: teco [OPTIONS] <INPUT>...\n\nFor more information, try '--help'.\n => => 3 => in == hi\n
    - teco -e EX$$ -v Ab in => => => error: invalid value 'Ab' for '--assign <A=TEXT>': expected A=TEXT or A:=N, where A is a letter or a digit, and N a number from -2147483648 to 2147483647\n\nUsage: teco [OPTIONS] <INPUT>...\n\nFor more information, try '--help'.\n => => 3 => in == hi\n
    - teco -e EX$$ -i -o out in => => => error: the argument '--output <FILE>' cannot be used with '--in-place'\n\nUsage: teco [OPTIONS] <INPUT>...\n\nFor more information, try '--help'.\n => => 3 => in == hi\n
    - teco -e EX$$ -o out in in => => => error: the argument '--output <FILE>' cannot be used with more than one INPUT\n\nUsage: teco [OPTIONS] <INPUT>...\n\nFor more information, try '--help'.\n => => 3 => in == hi\n
    - teco in in => => => error: more than one INPUT needs commands from '--execute <STRINGS>', '--pages <STRINGS>', '--file <FILE>' or '--bytes <FILE>'\n\nUsage: teco [OPTIONS] <INPUT>...\n\nFor more information, try '--help'.\n => => 3 => in == hi\n
    - teco - => => => error: standard input cannot be both the commands and an INPUT\n\nUsage: teco [OPTIONS] <INPUT>...\n\nFor more information, try '--help'.\n => => 3 => in == hi\n
    - teco -e EX$$ -i in /dev/stdin => => => error: the argument '--in-place' cannot be used with an INPUT that is standard input\n\nUsage: teco [OPTIONS] <INPUT>...\n\nFor more information, try '--help'.\n => => 3 => in == hi\n
    - teco -e EX$$ --in-place= in => => => error: the suffix of '--in-place=<SUFFIX>' cannot be empty or have a '/'\n\nUsage: teco [OPTIONS] <INPUT>...\n\nFor more information, try '--help'.\n => => 3 => in == hi\n
    - teco --check in => => => error: the argument '--check' needs commands from '--execute <STRINGS>', '--pages <STRINGS>', '--file <FILE>' or '--bytes <FILE>'\n\nUsage: teco [OPTIONS] <INPUT>...\n\nFor more information, try '--help'.\n => => 3 => in == hi\n
    - teco --session s -p 0K in => => => error: the argument '--session <FILE>' cannot be used with '--check', '--pages <STRINGS>', '--assign <A=TEXT>' or more than one INPUT\n\nUsage: teco [OPTIONS] <INPUT>...\n\nFor more information, try '--help'.\n => => 3 => in == hi\n
    - teco --session in in => => => error: the FILE of '--session <FILE>' cannot be the INPUT or the output\n\nUsage: teco [OPTIONS] <INPUT>...\n\nFor more information, try '--help'.\n => => 3 => in == hi\n
    - teco => => => error: the following required arguments were not provided:\n  <INPUT>\n\nUsage: teco [OPTIONS] <INPUT>...\n\nFor more information, try '--help'.\n => => 3 => in == hi\n";
