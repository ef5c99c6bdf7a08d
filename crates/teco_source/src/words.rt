//! What each command does, in words: how it is written, two spaces, and what it does.
//!
//! `n` and `m,n` are numbers, `q` is a register, and `$` is ESC.
use teco_scan::{
    Arithmetic, Bare, BlockMark, Command, Item, LevelCommand, Quantity, RegisterCommand, Test,
    TextCommand, TokenKind,
};

fn quantity_words(quantity: Quantity) -> &'static str {
    match quantity {
        Quantity::Beginning => "B  0, the beginning of the text",
        Quantity::End => "Z  the length of the text",
        Quantity::Pointer => ".  the pointer",
        Quantity::FormFeed => "^E  -1 where FF ended the page, else 0",
        Quantity::InputEnd => "^N  -1 where no input is left, else 0",
    }
}

fn arithmetic_words(arithmetic: Arithmetic) -> &'static str {
    match arithmetic {
        Arithmetic::Whole => "H  the pair 0,Z",
        Arithmetic::Operator(_) => "+-*/&#  operators, from left to right",
        Arithmetic::Open => "(  what is in parentheses comes first",
        Arithmetic::Close => ")  the parenthesis ends",
        Arithmetic::Comma => "m,n  a pair of numbers",
    }
}

fn level_words(command: LevelCommand, colons: u8, has_number: bool) -> &'static str {
    match (command, has_number) {
        (LevelCommand::Distance, _) => "n^Q  how many bytes nL would go forward",
        (LevelCommand::Append, false) if colons > 0 =>
            ":A  reads the next page after the text, and gives -1, or 0 where no input is left",
        (LevelCommand::Append, false) => "A  reads the next page after the text",
        (LevelCommand::Append, true) =>
            "nA  the code of the nth byte after the pointer from 0, or -1",
        (LevelCommand::Decimal, false) => "\\  the number at the pointer, which goes after it",
        (LevelCommand::Decimal, true) => "n\\  puts n in, in decimal",
    }
}

fn command_words(command: Command, colons: u8) -> &'static str {
    match command {
        Command::Jump => "nJ  pointer to n; without n to 0",
        Command::Forward => "nC  pointer n bytes forward",
        Command::Back => "nR  pointer n bytes back",
        Command::Line => "nL  pointer to the beginning of the nth line after; 0L of this one",
        Command::Delete => "nD  deletes n bytes after the pointer, or before it",
        Command::Kill => "nK  deletes to the nth line after, or with m,nK between two places",
        Command::TypeOut => "nT  types to the nth line after, or with m,nT between two places",
        Command::View => "V  types the line of the pointer",
        Command::TypeByte => "n^T  prints the byte n",
        Command::Print if colons > 0 => "n:=  prints n in decimal, without CR LF",
        Command::Print => "n=  prints n in decimal, with CR LF",
        Command::PrintOctal if colons > 0 => "n:==  prints n in octal, without CR LF",
        Command::PrintOctal => "n==  prints n in octal, with CR LF",
        Command::PrintHexadecimal if colons > 0 => "n:===  prints n in hexadecimal, without CR LF",
        Command::PrintHexadecimal => "n===  prints n in hexadecimal, with CR LF",
        Command::NextPage if colons > 0 =>
            ":Y  reads the next page into an empty buffer, and gives -1, or 0 where no input is left",
        Command::NextPage => "Y  reads the next page into an empty buffer",
        Command::TurnPages if colons > 0 =>
            "n:P  n times: writes the page and its FF, and reads the next; gives -1, or 0 where no input is left",
        Command::TurnPages => "nP  n times: writes the page and its FF, and reads the next",
        Command::WritePage =>
            "PW  writes the text and FF, or with m,nPW a part without FF; the text stays",
        Command::Exit => "EX  writes the page and the rest, and ends the program",
        Command::Leave if colons > 0 =>
            "n:;  leaves the iteration where n is below 0; without n, where the last search found its text",
        Command::Leave =>
            "n;  leaves the iteration where n is 0 or more; without n, where the last search failed",
        Command::CaseMode => "n^X  0: searches take either case; -1: they don't",
    }
}

fn register_words(command: RegisterCommand, colons: u8) -> &'static str {
    match command {
        RegisterCommand::Number if colons > 0 => ":Qq  the length of the text of q",
        RegisterCommand::Number => "Qq  the number of q",
        RegisterCommand::Increment => "n%q  adds n to the number of q, and gives the sum",
        RegisterCommand::Set => "nUq  makes n the number of q",
        RegisterCommand::Extract if colons > 0 =>
            "n:Xq  appends lines, or with m,n:Xq what is between two places, to the text of q",
        RegisterCommand::Extract =>
            "nXq  makes lines, or with m,nXq what is between two places, the text of q",
        RegisterCommand::Get if colons > 0 => ":Gq  prints the text of q",
        RegisterCommand::Get => "Gq  puts the text of q in",
        RegisterCommand::Macro => "Mq  runs the text of q",
        RegisterCommand::Push => "[q  pushes number and text of q",
        RegisterCommand::Pop => "]q  pops number and text into q",
    }
}

fn insert_words(has_number: bool) -> &'static str {
    if has_number {
        "nI$  puts the byte n in"
    } else {
        "Itext$  puts the text in"
    }
}

fn text_words(command: TextCommand, colons: u8, has_number: bool) -> &'static str {
    match command {
        TextCommand::Insert => insert_words(has_number),
        TextCommand::InsertTab => "^Itext$  puts TAB and the text in",
        TextCommand::TypeOut => "^Atext^A  prints the text",
        TextCommand::Search if colons > 1 =>
            "::Stext$  -1 where the text is at the pointer, which goes after it, else 0",
        TextCommand::Search if colons > 0 =>
            "n:Stext$  looks for the nth match, backward where n is below 0, goes after it, and gives -1 or 0",
        TextCommand::Search =>
            "nStext$  looks for the nth match, backward where n is below 0, and goes after it",
        TextCommand::SearchPages if colons > 0 =>
            "n:Ntext$  looks on from page to page, writes those that it leaves, and gives -1 or 0",
        TextCommand::SearchPages =>
            "nNtext$  looks on from page to page, and writes those that it leaves",
        TextCommand::SearchPagesQuietly if colons > 0 =>
            "n:_text$  looks on from page to page, writes none, and gives -1 or 0",
        TextCommand::SearchPagesQuietly => "n_text$  looks on from page to page, and writes none",
        TextCommand::FindAndDelete if colons > 0 =>
            "n:FDtext$  looks for the nth match, deletes it, and gives -1 or 0",
        TextCommand::FindAndDelete => "nFDtext$  looks for the nth match, and deletes it",
        TextCommand::FindAndKill if colons > 0 =>
            "n:FKtext$  looks for the nth match, deletes what is between its end and the pointer, and gives -1 or 0",
        TextCommand::FindAndKill =>
            "nFKtext$  looks for the nth match, and deletes what is between its end and the pointer",
        TextCommand::Go => "Oname$  goes on after the tag",
    }
}

fn mark_words(mark: BlockMark) -> &'static str {
    match mark {
        BlockMark::Iterate => "n<  does it n times, or again and again without n",
        BlockMark::EndIteration => ">  the iteration ends",
        BlockMark::Otherwise => "|  the second part",
        BlockMark::EndTest => "'  the conditional ends",
    }
}

fn test_words(test: Test) -> &'static str {
    match test {
        Test::Zero => "n\"E  where n is 0",
        Test::NotZero => "n\"N  where n is not 0",
        Test::Above => "n\"G  where n is above 0",
        Test::Below => "n\"L  where n is below 0",
        Test::Letter => "n\"A  where n is the code of a letter",
        Test::Digit => "n\"D  where n is the code of a digit",
        Test::LetterOrDigit => "n\"R  where n is the code of a letter or a digit",
        Test::Lower => "n\"V  where n is the code of a small letter",
        Test::NameByte => "n\"C  where n is the code of a letter, a digit, . $ or _",
        Test::Upper => "n\"W  where n is the code of a capital",
    }
}

fn set_text_words(colons: u8, has_number: bool) -> &'static str {
    match (colons, has_number) {
        (0, false) => "^Uqtext$  makes the text that of q",
        (0, true) => "n^Uq$  makes the byte n the text of q",
        (_, false) => ":^Uqtext$  appends the text to that of q",
        (_, true) => "n:^Uq$  appends the byte n to the text of q",
    }
}

fn replace_words(colons: u8) -> &'static str {
    match colons {
        0 => "nFSone$two$  looks for one, and puts two in its place",
        1 => "n:FSone$two$  looks for one, puts two in its place, and gives -1 or 0",
        _ =>
            "::FSone$two$  puts two in the place of one where that is at the pointer, and gives -1, else 0",
    }
}

fn item_words(item: Item, colons: u8, has_number: bool) -> &'static str {
    match item {
        Item::Digits(_) => "digits  a number",
        Item::Bare(Bare::Quantity(quantity)) => quantity_words(quantity),
        Item::Bare(Bare::Arithmetic(arithmetic)) => arithmetic_words(arithmetic),
        Item::Bare(Bare::Level(command)) => level_words(command, colons, has_number),
        Item::Bare(Bare::Command(command)) => command_words(command, colons),
        Item::Register(command, _) => register_words(command, colons),
        Item::Byte(_) => "^^x  the code of the byte x",
        Item::Text(command, _) => text_words(command, colons, has_number),
        Item::SetText(..) => set_text_words(colons, has_number),
        Item::Replace(..) => replace_words(colons),
    }
}

/// How a token is written and what it does. It has so many colons, and a number before it or none.
pub(crate) fn words_of(kind: TokenKind, colons: u8, has_number: bool) -> &'static str {
    match kind {
        TokenKind::Item(item) => item_words(item, colons, has_number),
        TokenKind::Mark(mark) => mark_words(mark),
        TokenKind::Test(test) => test_words(test),
        TokenKind::Tag(_) => "!name!  a tag, or a comment",
        TokenKind::Escape => "$  drops the numbers before it",
    }
}
