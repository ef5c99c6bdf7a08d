//! What a token can instruct, grouped by what follows its name.
use teco_core::Op;

/// Values that take nothing.
#[derive(Clone, Copy)]
pub enum Quantity {
    /// `B`, the place 0.
    Beginning,
    /// `Z`, the length of the buffer.
    End,
    /// `.`, the pointer.
    Pointer,
    /// `^E`, whether a form feed ended the page.
    FormFeed,
    /// `^N`, whether the input is at its end.
    InputEnd,
}

/// What builds arguments.
#[derive(Clone, Copy)]
pub enum Arithmetic {
    /// `H`, the whole buffer as a pair.
    Whole,
    /// `+`, `-`, `*`, `/`, `&` or `#`.
    Operator(Op),
    /// `(`
    Open,
    /// `)`
    Close,
    /// `,`
    Comma,
}

/// A value or a command, as the level of the arguments says.
#[derive(Clone, Copy)]
pub enum LevelCommand {
    /// `A`, the code of a character, or the next page appended.
    Append,
    /// `\`, the number at the pointer, or a number inserted.
    Decimal,
    /// `^Q`, in Wide how far a line is from the pointer.
    Distance,
}

/// Commands that take arguments, and after whose name nothing follows.
#[derive(Clone, Copy)]
pub enum Command {
    /// `J`
    Jump,
    /// `C`
    Forward,
    /// `R`
    Back,
    /// `L`
    Line,
    /// `D`
    Delete,
    /// `K`
    Kill,
    /// `T`
    TypeOut,
    /// `V`
    View,
    /// `^T`
    TypeByte,
    /// `=`
    Print,
    /// `==`
    PrintOctal,
    /// `===`, in Wide
    PrintHexadecimal,
    /// `Y`
    NextPage,
    /// `P`
    TurnPages,
    /// `PW`
    WritePage,
    /// `EX`
    Exit,
    /// `;`
    Leave,
    /// `^X`
    CaseMode,
}

/// Commands after whose name nothing follows, and which are a step of their own.
#[derive(Clone, Copy)]
pub enum Bare {
    Quantity(Quantity),
    Arithmetic(Arithmetic),
    Level(LevelCommand),
    Command(Command),
}

/// Commands on a register.
#[derive(Clone, Copy)]
pub enum RegisterCommand {
    /// `Q`; with a colon, the length of its text.
    Number,
    /// `%`
    Increment,
    /// `U`
    Set,
    /// `X`
    Extract,
    /// `G`; with a colon it types.
    Get,
    /// `M`
    Macro,
    /// `[`
    Push,
    /// `]`
    Pop,
}

/// Commands with one text.
#[derive(Clone, Copy)]
pub enum TextCommand {
    /// `I`
    Insert,
    /// TAB
    InsertTab,
    /// `^A`
    TypeOut,
    /// `S`
    Search,
    /// `N`
    SearchPages,
    /// `_`
    SearchPagesQuietly,
    /// `O`
    Go,
    /// `FD`, in Wide
    FindAndDelete,
    /// `FK`, in Wide
    FindAndKill,
}

/// What opens, divides and ends blocks, but for `"`, which has its test.
#[derive(Clone, Copy)]
pub enum BlockMark {
    /// `<`
    Iterate,
    /// `>`
    EndIteration,
    /// `|`
    Otherwise,
    /// `'`
    EndTest,
}

/// What `"` and a letter or a sign ask of a number.
#[derive(Clone, Copy)]
pub enum Test {
    /// `E`, `F` or `U`
    Zero,
    /// `N`
    NotZero,
    /// `G`
    Above,
    /// `L`, `S` or `T`
    Below,
    /// `A`, the code of an ASCII letter.
    Letter,
    /// `D`, the code of an ASCII digit.
    Digit,
    /// `R`
    LetterOrDigit,
    /// `V`, the code of a lower-case ASCII letter.
    Lower,
    /// `W`, the code of an upper-case ASCII letter.
    Upper,
    /// `C`, the code of a byte of a name: a letter, a digit, `.`, `$` or `_`.
    NameByte,
}

/// What follows a command's name, and so what the command is.
#[derive(Clone, Copy)]
pub enum Form {
    /// Nothing.
    Bare(Bare),
    /// Nothing.
    Mark(BlockMark),
    /// Nothing: ESC between tokens.
    Escape,
    /// The name of a register.
    Register(RegisterCommand),
    /// Any byte.
    Byte,
    /// The letter of a test.
    Test,
    /// The letter of a test, `C` too, or `=`, `<` or `>`.
    WideTest,
    /// A text, up to this byte unless `@` comes before.
    Text(TextCommand, u8),
    /// The name of a tag, up to `!`.
    Tag,
    /// The name of a register and a text.
    SetText,
    /// Two texts.
    Replace,
    /// The name is no command's: it is refused, and nothing shorter is read in its place.
    Refused,
}

/// How a command is called; letters in upper case.
#[derive(Clone, Copy)]
pub enum Name {
    One(u8),
    Two(u8, u8),
    Three(u8, u8, u8),
    /// The control byte of a letter, or a caret and the letter.
    Control(u8),
}

/// What comes before a command, or the most that may: whether `@`, and how many colons.
#[derive(Clone, Copy)]
pub struct Modifiers {
    pub at: bool,
    pub colons: u8,
}

/// A command: its name, the most modifiers that it allows, and what follows the name.
#[derive(Clone, Copy)]
pub struct Row {
    pub name: Name,
    pub allows: Modifiers,
    pub form: Form,
}
