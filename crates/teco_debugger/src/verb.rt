//! The table of commands.
ghost use Rattle.std.specs.Prelude.{◌≡◌, map};
ghost use Rattle.teco_debugger.specs.Commands.{taken, verb_by, verbs};

/// A command that takes nothing.
#[derive(Clone, Copy)]
pub enum Plain {
    End,
    Start,
    Where,
    Registers,
    State,
    /// The places to stop at.
    Breaks,
    /// On to the next place to stop at.
    Continue,
    /// On to the end of the call that is open.
    Finish,
    Typed,
    Help,
    Quit,
}

/// A command that takes a number.
#[derive(Clone, Copy)]
pub enum Counted {
    /// So many steps on.
    Next,
    /// So many steps back.
    Back,
    /// To this step.
    Goto,
    /// So many lines before and after the pointer.
    Text,
    /// So many lines of the source before and after that of the step.
    Around,
    /// So many moves taken back.
    Undo,
    /// On to a step in this line.
    Until,
    /// No longer to the place of this number.
    Delete,
}

/// What a command takes after its word, and which command it is.
#[derive(Clone, Copy)]
pub(crate) enum Takes {
    Nothing(Plain),
    Number(Counted),
    /// A number, or this one if none is given.
    NumberOr(Counted, u64),
    /// A register.
    Register,
    /// A register whose changes are asked for.
    History,
    /// A register, or the word `text`.
    Part,
    /// A place of the string to stop at, or nothing.
    Stop,
    /// A register, the pointer or the length of the buffer, and which way to go.
    Watch,
}

/// One command.
#[derive(Clone, Copy)]
pub struct VerbRow {
    /// Its word.
    pub word: &'static str,
    /// Its letter, which stands for the word.
    pub letter: &'static str,
    pub(crate) takes: Takes,
    /// What the help calls that.
    pub operand: &'static str,
    /// What the help says.
    pub help: &'static str,
}

/// Every command, in the order of the help.
pub const VERBS: [VerbRow; 23] = [
    VerbRow {
        word: "next",
        letter: "n",
        takes: Takes::NumberOr(Counted::Next, 1),
        operand: "[N]",
        help: "N steps on, 1 without N",
    },
    VerbRow {
        word: "back",
        letter: "b",
        takes: Takes::NumberOr(Counted::Back, 1),
        operand: "[N]",
        help: "N steps back, 1 without N",
    },
    VerbRow {
        word: "goto",
        letter: "g",
        takes: Takes::Number(Counted::Goto),
        operand: "N",
        help: "to the step after N steps",
    },
    VerbRow {
        word: "end",
        letter: "e",
        takes: Takes::Nothing(Plain::End),
        operand: "",
        help: "to the end of the string, or to the limit",
    },
    VerbRow {
        word: "start",
        letter: "s",
        takes: Takes::Nothing(Plain::Start),
        operand: "",
        help: "to the beginning",
    },
    VerbRow {
        word: "where",
        letter: "w",
        takes: Takes::Nothing(Plain::Where),
        operand: "",
        help: "the line with its token marked, the open calls and iterations",
    },
    VerbRow {
        word: "list",
        letter: "v",
        takes: Takes::NumberOr(Counted::Around, 5),
        operand: "[N]",
        help: "N lines of the source before and after that of the step, with their numbers; 5 without N",
    },
    VerbRow {
        word: "text",
        letter: "t",
        takes: Takes::NumberOr(Counted::Text, 3),
        operand: "[N]",
        help: "N lines of the buffer before and after the pointer, which is |>; 3 without N",
    },
    VerbRow {
        word: "register",
        letter: "r",
        takes: Takes::Register,
        operand: "R",
        help: "what a register holds",
    },
    VerbRow {
        word: "registers",
        letter: "i",
        takes: Takes::Nothing(Plain::Registers),
        operand: "",
        help: "the registers that hold anything",
    },
    VerbRow {
        word: "state",
        letter: "a",
        takes: Takes::Nothing(Plain::State),
        operand: "",
        help: "pointer, input, output, search and flags",
    },
    VerbRow {
        word: "find",
        letter: "f",
        takes: Takes::Part,
        operand: "R|text",
        help: "back to the step that changed register R, or the buffer, last",
    },
    VerbRow {
        word: "history",
        letter: "p",
        takes: Takes::History,
        operand: "R",
        help: "the last 100 changes of register R up to here, the last first, with the steps before each",
    },
    VerbRow {
        word: "break",
        letter: "k",
        takes: Takes::Stop,
        operand: "[PLACE]",
        help: "notes LINE, LINE:COLUMN, FILE:LINE or FILE:LINE:COLUMN, and if STRING; lists them without one",
    },
    VerbRow {
        word: "delete",
        letter: "x",
        takes: Takes::Number(Counted::Delete),
        operand: "N",
        help: "forgets the place of this number",
    },
    VerbRow {
        word: "continue",
        letter: "c",
        takes: Takes::Nothing(Plain::Continue),
        operand: "",
        help: "on to the next step at one of those places",
    },
    VerbRow {
        word: "finish",
        letter: "o",
        takes: Takes::Nothing(Plain::Finish),
        operand: "",
        help: "on to the step after the end of the call that is open",
    },
    VerbRow {
        word: "typed",
        letter: "y",
        takes: Takes::Nothing(Plain::Typed),
        operand: "",
        help: "what was typed so far",
    },
    VerbRow {
        word: "undo",
        letter: "u",
        takes: Takes::NumberOr(Counted::Undo, 1),
        operand: "[N]",
        help: "takes back the last N moves, 1 without N",
    },
    VerbRow {
        word: "until",
        letter: "l",
        takes: Takes::Number(Counted::Until),
        operand: "LINE",
        help: "on to the next step in that line of the string",
    },
    VerbRow {
        word: "watch",
        letter: "d",
        takes: Takes::Watch,
        operand: "R [back]",
        help: "on, or back, to the nearest step where R differs from here: a register, . or Z",
    },
    VerbRow {
        word: "help",
        letter: "h",
        takes: Takes::Nothing(Plain::Help),
        operand: "",
        help: "this list",
    },
    VerbRow {
        word: "quit",
        letter: "q",
        takes: Takes::Nothing(Plain::Quit),
        operand: "",
        help: "leaves",
    },
];

/// What the first of these rows takes whose word or letter the bytes are.
fn taken_by(rows: &[VerbRow], bytes: &[u8]) -> Option<Takes>
    ensures { result ≡ taken (map verb_by rows.now) bytes.now }
{
    for row in rows {
        if bytes == row.word.as_bytes() || bytes == row.letter.as_bytes() {
            return Some(row.takes);
        }
    }
    None
}

/// What the command takes whose word or letter the bytes are.
pub(crate) fn takes_of(bytes: &[u8]) -> Option<Takes>
    ensures { result ≡ taken verbs bytes.now }
{
    taken_by(&VERBS, bytes)
}
