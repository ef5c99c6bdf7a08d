//! The table of commands.
use crate::command::{
    Arithmetic, Bare, BlockMark, Command, Form, LevelCommand, Modifiers, Name, Quantity,
    RegisterCommand, Row, TextCommand,
};
use teco_core::{ESC, Op};

pub(crate) const NONE: Modifiers = Modifiers {
    at: false,
    colons: 0,
};

const AT: Modifiers = Modifiers {
    at: true,
    colons: 0,
};

const COLON: Modifiers = Modifiers {
    at: false,
    colons: 1,
};

const AT_AND_COLON: Modifiers = Modifiers {
    at: true,
    colons: 1,
};

const ANY: Modifiers = Modifiers {
    at: true,
    colons: 2,
};

// A macro's call can't write a constant, but it can write a constant's value: so the commands are given to the macro of each value.
// After an arrow stands what Wide has in place of what Named has.
macro_rules! commands {
    ($value:ident $($byte:literal)*) => {
        $value! {
            [$($byte)*]
            Three(b'=', b'=', b'='), COLON, Form::Refused => Form::Bare(Bare::Command(Command::PrintHexadecimal));
            Two(b'=', b'='), COLON, Form::Bare(Bare::Command(Command::PrintOctal));
            One(b'='), COLON, Form::Bare(Bare::Command(Command::Print));
            One(b'B'), NONE, Form::Bare(Bare::Quantity(Quantity::Beginning));
            One(b'Z'), NONE, Form::Bare(Bare::Quantity(Quantity::End));
            One(b'.'), NONE, Form::Bare(Bare::Quantity(Quantity::Pointer));
            One(b'H'), NONE, Form::Bare(Bare::Arithmetic(Arithmetic::Whole));
            One(b'+'), NONE, Form::Bare(Bare::Arithmetic(Arithmetic::Operator(Op::Plus)));
            One(b'-'), NONE, Form::Bare(Bare::Arithmetic(Arithmetic::Operator(Op::Minus)));
            One(b'*'), NONE, Form::Bare(Bare::Arithmetic(Arithmetic::Operator(Op::Times)));
            One(b'/'), NONE, Form::Bare(Bare::Arithmetic(Arithmetic::Operator(Op::Over)));
            One(b'&'), NONE, Form::Bare(Bare::Arithmetic(Arithmetic::Operator(Op::And)));
            One(b'#'), NONE, Form::Bare(Bare::Arithmetic(Arithmetic::Operator(Op::Or)));
            One(b'('), NONE, Form::Bare(Bare::Arithmetic(Arithmetic::Open));
            One(b')'), NONE, Form::Bare(Bare::Arithmetic(Arithmetic::Close));
            One(b','), NONE, Form::Bare(Bare::Arithmetic(Arithmetic::Comma));
            Control(b'E'), NONE, Form::Bare(Bare::Quantity(Quantity::FormFeed));
            Control(b'N'), NONE, Form::Bare(Bare::Quantity(Quantity::InputEnd));
            Control(b'Q'), NONE, Form::Refused => Form::Bare(Bare::Level(LevelCommand::Distance));
            Control(b'^'), NONE, Form::Byte;
            One(b'A'), NONE => COLON, Form::Bare(Bare::Level(LevelCommand::Append));
            One(b'\\'), NONE, Form::Bare(Bare::Level(LevelCommand::Decimal));
            One(b'J'), NONE, Form::Bare(Bare::Command(Command::Jump));
            One(b'C'), NONE, Form::Bare(Bare::Command(Command::Forward));
            One(b'R'), NONE, Form::Bare(Bare::Command(Command::Back));
            One(b'L'), NONE, Form::Bare(Bare::Command(Command::Line));
            One(b'D'), NONE, Form::Bare(Bare::Command(Command::Delete));
            One(b'K'), NONE, Form::Bare(Bare::Command(Command::Kill));
            One(b'V'), NONE, Form::Bare(Bare::Command(Command::View));
            Control(b'T'), NONE, Form::Bare(Bare::Command(Command::TypeByte));
            One(b'\t'), NONE, Form::Text(TextCommand::InsertTab, ESC);
            One(b'T'), NONE, Form::Bare(Bare::Command(Command::TypeOut));
            One(b'Y'), NONE => COLON, Form::Bare(Bare::Command(Command::NextPage));
            Two(b'P', b'W'), NONE, Form::Bare(Bare::Command(Command::WritePage));
            One(b'P'), NONE => COLON, Form::Bare(Bare::Command(Command::TurnPages));
            Two(b'E', b'X'), NONE, Form::Bare(Bare::Command(Command::Exit));
            Control(b'X'), NONE, Form::Bare(Bare::Command(Command::CaseMode));
            One(ESC), NONE, Form::Escape;
            One(b'Q'), COLON, Form::Register(RegisterCommand::Number);
            One(b'%'), NONE, Form::Register(RegisterCommand::Increment);
            One(b'U'), NONE, Form::Register(RegisterCommand::Set);
            One(b'X'), NONE => COLON, Form::Register(RegisterCommand::Extract);
            One(b'['), NONE, Form::Register(RegisterCommand::Push);
            One(b']'), NONE, Form::Register(RegisterCommand::Pop);
            One(b'G'), COLON, Form::Register(RegisterCommand::Get);
            Control(b'U'), AT => AT_AND_COLON, Form::SetText;
            One(b'M'), NONE, Form::Register(RegisterCommand::Macro);
            One(b'<'), NONE, Form::Mark(BlockMark::Iterate);
            One(b'>'), NONE, Form::Mark(BlockMark::EndIteration);
            One(b';'), NONE => COLON, Form::Bare(Bare::Command(Command::Leave));
            One(b'"'), NONE, Form::Test => Form::WideTest;
            One(b'|'), NONE, Form::Mark(BlockMark::Otherwise);
            One(b'\''), NONE, Form::Mark(BlockMark::EndTest);
            One(b'!'), NONE, Form::Tag;
            One(b'O'), AT, Form::Text(TextCommand::Go, ESC);
            One(b'I'), AT, Form::Text(TextCommand::Insert, ESC);
            One(b'S'), ANY, Form::Text(TextCommand::Search, ESC);
            One(b'N'), AT_AND_COLON, Form::Text(TextCommand::SearchPages, ESC);
            One(b'_'), AT_AND_COLON, Form::Text(TextCommand::SearchPagesQuietly, ESC);
            Two(b'F', b'S'), AT_AND_COLON => ANY, Form::Replace;
            Two(b'F', b'D'), AT_AND_COLON, Form::Refused => Form::Text(TextCommand::FindAndDelete, ESC);
            Two(b'F', b'K'), AT_AND_COLON, Form::Refused => Form::Text(TextCommand::FindAndKill, ESC);
            Control(b'A'), AT, Form::Text(TextCommand::TypeOut, 1);
        }
    };
}

macro_rules! rows {
    ([] $($name:ident($($letter:expr),*), $allows:expr $(=> $more:expr)?, $form:expr $(=> $other:expr)?;)*) => {
        [$(Row { name: Name::$name($($letter),*), allows: $allows, form: $form }),*]
    };
}

macro_rules! last {
    ($first:expr) => { $first };
    ($first:expr, $last:expr) => { $last };
}

macro_rules! wide_rows {
    ([] $($name:ident($($letter:expr),*), $allows:expr $(=> $more:expr)?, $form:expr $(=> $other:expr)?;)*) => {
        [$(Row {
            name: Name::$name($($letter),*),
            allows: last!($allows $(, $more)?),
            form: last!($form $(, $other)?),
        }),*]
    };
}

/// The number of rows.
const COUNT: usize = 63;

/// Every command but the run of digits. The table is a definition: it says what commands there are. A longer name comes before one
/// that begins it. Rows whose names begin with the same byte stand close together, since they are tried one after another from the
/// first of them on.
pub const ROWS: [Row; COUNT] = commands!(rows);

/// The rows of Wide: the same names, but that some allow a colon more, that there are more tests, and that a name that Named refuses is
/// that of a command.
pub const WIDE_ROWS: [Row; COUNT] = commands!(wide_rows);

// The first row whose name may begin with the byte.
macro_rules! first_row {
    ($byte:literal []) => { 0 };
    ($byte:literal [Control $letter:tt $($rest:tt)*]) => {
        if $byte + 64 == $letter || $byte == b'^' { 0 } else { 1 + first_row!($byte [$($rest)*]) }
    };
    ($byte:literal [$name:ident $letter:tt $($rest:tt)*]) => {
        if $byte == $letter { 0 } else { 1 + first_row!($byte [$($rest)*]) }
    };
}

macro_rules! for_each {
    ($rows:tt $($byte:literal)*) => { [$(first_row!($byte $rows)),*] };
}

macro_rules! first_rows {
    ([$($byte:literal)*] $($name:ident($letter:tt $(, $later:expr)*), $allows:expr $(=> $more:expr)?, $form:expr $(=> $other:expr)?;)*) => {
        for_each! { [$($name $letter)*] $($byte)* }
    };
}

// No name begins with a byte from 128 on.
const PAST_ASCII: [u8; 16] = [ROWS.len() as u8; 16];

/// For each byte, in lines of 16, the first row whose name may begin with it, or the number of rows: of both tables, since their
/// names are the same. A small letter is given as its capital.
pub(crate) const FIRST: [[u8; 16]; 16] = [
    commands!(first_rows 0 1 2 3 4 5 6 7 8 9 10 11 12 13 14 15),
    commands!(first_rows 16 17 18 19 20 21 22 23 24 25 26 27 28 29 30 31),
    commands!(first_rows 32 33 34 35 36 37 38 39 40 41 42 43 44 45 46 47),
    commands!(first_rows 48 49 50 51 52 53 54 55 56 57 58 59 60 61 62 63),
    commands!(first_rows 64 65 66 67 68 69 70 71 72 73 74 75 76 77 78 79),
    commands!(first_rows 80 81 82 83 84 85 86 87 88 89 90 91 92 93 94 95),
    commands!(first_rows 96 65 66 67 68 69 70 71 72 73 74 75 76 77 78 79),
    commands!(first_rows 80 81 82 83 84 85 86 87 88 89 90 123 124 125 126 127),
    PAST_ASCII,
    PAST_ASCII,
    PAST_ASCII,
    PAST_ASCII,
    PAST_ASCII,
    PAST_ASCII,
    PAST_ASCII,
    PAST_ASCII,
];
