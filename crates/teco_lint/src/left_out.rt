//! What TECO-11 has and this TECO leaves out.
ghost use Rattle.std.specs.Prelude.{◌≡◌, ◌≤◌, length, IfSome};

use crate::forms::Form;
use crate::naming::modifiers_len;
use teco_core::Profile;

/// What follows the name of a command that is left out.
#[derive(Clone, Copy)]
pub(crate) enum Operands {
    Nothing,
    Register,
    Text,
    RegisterAndText,
    TwoTexts,
}

/// A command that is left out.
#[derive(Clone, Copy)]
pub(crate) struct LeftOut {
    /// How it is written, with its colons. A caret and a letter are also the control byte.
    pub(crate) written: &'static str,
    /// What it does in TECO-11.
    pub(crate) does: &'static str,
    /// What to write in its place.
    pub(crate) instead: &'static str,
    pub(crate) takes: Operands,
}

macro_rules! rows {
    ($($takes:ident $written:literal $does:literal $instead:literal;)*) => {
        [$(LeftOut { written: $written, does: $does, instead: $instead, takes: Operands::$takes }),*]
    };
}

/// The commands with `E` that have to do with files and the system. In each table a longer name comes before one that begins it.
static ON_FILES: [LeftOut; 12] = rows! {
    Text "ER" "opens an input file" "give it as INPUT on the command line";
    Text "EW" "opens an output file" "give it by --output on the command line";
    Text "EB" "opens a file to edit it" "give it as INPUT with --in-place, which keeps no .BAK";
    Text "EI" "takes commands from a file" "give it by --file, or paste it with cat";
    Text "EG" "ends, and gives the system a command" "EX, and let the shell go on";
    Text "EN" "looks for files by a pattern" "let the shell give the files as INPUT";
    Text "E_" "looks on and drops the pages" "<:Stext$\"S0;' HK ^N\"NStext$' Y>";
    Nothing "EC" "copies the rest, closes the output, and goes on" "EX, and a run of its own for each file";
    Nothing "EF" "closes the output as it is" "HK <-1-^N; YHK> EX";
    Nothing "EK" "drops the output file" "leave EX out";
    Nothing "EP" "reads from the second input" "two runs";
    Nothing "EA" "writes to the second output" "two runs";
};

/// The other commands with `E`.
static WITH_E: [LeftOut; 13] = rows! {
    Nothing "EY" "reads a page and drops the last" "HKY";
    Nothing "EM" "moves a tape" "nothing";
    Nothing "ED" "sets how searches and Y work" "HKY for Y, and .Uq :Stext$\"UQqJ' where a search may fail";
    Nothing "EE" "sets the byte that stands for ESC" "leave it out";
    Nothing "EH" "sets how much a message says" "--explain on the command line";
    Nothing "EO" "gives the version" "leave it out";
    RegisterAndText "EQ" "reads a file into a register" "its text by @^Uq/../";
    RegisterAndText "E%" "writes a register to a file" "print it by :Gq";
    Nothing "ES" "shows the text after a search" "V after the search";
    Nothing "ET" "sets how bytes are printed" "leave it out";
    Nothing "EU" "shows the case of letters" "leave it out";
    Nothing "EV" "shows the line of the pointer" "V where it is needed";
    Nothing "EZ" "sets how the tape is read" "leave it out";
};

/// The commands with `F`.
static WITH_F: [LeftOut; 9] = rows! {
    TwoTexts "FN" "replaces on this page or a later one" "None$ and then -nD Itwo$";
    TwoTexts "F_" "replaces, and drops the pages" "<:Sone$\"S0;' HK ^N\"NSone$' Y> and then -nD Itwo$";
    TwoTexts "FC" "replaces between two places" ":Sone$, a test of ., and then -nD Itwo$";
    Text "FR" "replaces what was found or put in last" "FSone$two$ at the search itself";
    Text "FB" "looks between two places" ":Stext$ and a test of .";
    Nothing "F<" "goes to the beginning of the iteration" "a tag after <, and Oname$";
    Nothing "F>" "goes to the end of the iteration" "a tag before >, and Oname$";
    Nothing "F'" "goes to the end of the conditional" "a tag after ', and Oname$";
    Nothing "F|" "goes to the second part" "Otwo$, and Oend$' !two! .. !end! in the place of | .. '";
};

/// The commands that the wider language has.
static IN_WIDE: [LeftOut; 15] = rows! {
    TwoTexts "::FS" "replaces the text at the pointer" "--wide, or ::Sone$\"S -nD Itwo$'";
    Text "FK" "deletes up to a text" "--wide, or [1 .U1 Stext$ Q1,.K ]1";
    Text "FD" "deletes the next text" "--wide, or @FS/text//";
    Register ":X" "appends lines to a register" "--wide, or Gq and Xq over both";
    RegisterAndText ":^U" "appends a text to a register" "--wide, or Gq, the text by I, and Xq over both";
    Nothing ":;" "leaves where the last search found its text" "--wide, or \"S0;' after a search with a colon";
    Nothing ":Y" "reads a page, and gives whether it could" "--wide, or ^N before Y";
    Nothing ":P" "writes and reads pages, and gives whether it could" "--wide, or ^N before P";
    Nothing ":A" "appends a page, and gives whether it could" "--wide, or ^N before A";
    Nothing "\"=" "tests for 0" "--wide, or \"E";
    Nothing "\"<" "tests for less than 0" "--wide, or \"L";
    Nothing "\">" "tests for more than 0" "--wide, or \"G";
    Nothing "\"C" "tests for a byte of a name" "--wide, or \"R, and tests of the other bytes";
    Nothing "===" "prints in hexadecimal" "--wide, or == in octal";
    Nothing "^Q" "gives how many bytes n lines have" "--wide, or nL for n^QC, and nK for n^QD";
};

/// The other commands with a colon.
static WITH_COLON: [LeftOut; 7] = rows! {
    Register ":]" "pops, and gives whether it could" "]q where something was pushed";
    Register ":M" "runs a text with the registers of its caller" "Mq, which does so";
    Nothing ":C" "goes on, and gives whether it could" "a test of .-Z before C";
    Nothing ":R" "goes back, and gives whether it could" "a test of . before R";
    Nothing ":J" "goes to a place, and gives whether it could" "a test before J";
    Nothing ":D" "deletes, and gives whether it could" "a test of .-Z before D";
    Nothing ":^T" "prints a byte as it is" "n^T, which does so";
};

/// The others.
static OTHERS: [LeftOut; 14] = rows! {
    Nothing "^B" "gives the date" "leave it out";
    Nothing "^C" "ends, and writes nothing" "Oend$, with !end! after the last EX";
    Nothing "^D" "sets numbers to decimal" "leave it out";
    Nothing "^F" "gives the switches" "leave it out";
    Nothing "^H" "gives the time of day" "leave it out";
    Nothing "^L" "prints a form feed" "12^T";
    Nothing "^O" "sets numbers to octal" "write them in decimal";
    Nothing "^R" "sets the base of numbers" "write them in decimal";
    Nothing "^S" "gives minus the length of what was found or put in last" "note . before and after it";
    Nothing "^Y" "gives the pair of what was found or put in last" "note . before and after it";
    Nothing "^Z" "gives the room of the registers" "leave it out";
    Nothing "^_" "inverts every bit of a number" "-1-n";
    Nothing "?" "shows each command as it runs" "teco-debug";
    Nothing "W" "shows the screen" "nT, or teco-term";
};

/// Forms of commands that are here. The first three are left out of Named alone.
static FORMS: [LeftOut; 8] = rows! {
    Register "nQ" "gives the code of byte n of a text" "--wide, or Gq, and nA where it stands";
    Register "m,nU" "sets n, and gives m" "--wide, or nUq, and mUr";
    RegisterAndText "n^U" "puts a byte into a register" "--wide, or nI$ and .-1,.Xq";
    Nothing "^T alone" "reads a byte of the terminal" "nothing";
    Nothing "nV" "types lines on each side" "1-nT nT";
    Nothing "nPW" "writes the page n times" "n<PW>";
    Text "m,nS" "looks for a text that begins within a bound" ":Stext$ and a test of .";
    Nothing "^X alone" "gives whether searches tell the cases apart" "a register that says it";
};

/// The row of a form.
pub(crate) fn row_of_form(form: Form) -> &'static LeftOut {
    match form {
        Form::NumberAndRegister => &FORMS[0],
        Form::PairAndRegister => &FORMS[1],
        Form::NumberedText => &FORMS[2],
        Form::TypeByteAlone => &FORMS[3],
        Form::NumberedView => &FORMS[4],
        Form::NumberedWrite => &FORMS[5],
        Form::BoundedSearch => &FORMS[6],
        Form::CaseModeAlone => &FORMS[7],
    }
}

/// The most modifiers that a command may have.
const MOST_MODIFIERS: usize = 3;

/// Whether a byte is a letter in either case, where that is a capital; or the byte itself.
fn is_letter(byte: u8, written: u8) -> bool {
    byte.to_ascii_uppercase() == written
}

/// How many of the first bytes are written so, if they are.
fn written_len(bytes: &[u8], written: &[u8]) -> Option<usize>
    ensures { IfSome result (λ to. to ≤ length bytes.now) }
{
    let mut to = 0;
    let mut rest = written;
    while let [mark, after @ ..] = rest {
        rest = after;
        let byte = *bytes.get(to)?;
        if *mark == b'^' && byte != b'^' {
            let [letter, more @ ..] = after else {
                return None;
            };
            if byte.saturating_add(64) != *letter {
                return None;
            }
            rest = more;
        } else if !is_letter(byte, *mark) {
            return None;
        }
        to += 1;
    }
    Some(to)
}

/// The row of the command that the bytes begin with, if the table has it, and the length of its name.
fn row_in(rows: &'static [LeftOut], bytes: &[u8]) -> Option<(&'static LeftOut, usize)>
    ensures { IfSome result (λ found. found.1 ≤ length bytes.now) }
{
    for row in rows {
        if let Some(to) = written_len(bytes, row.written.as_bytes()) {
            return Some((row, to));
        }
    }
    None
}

/// The row of the command that the bytes begin with as it is written there, if it has one, and the length of its name.
fn row_as_written(profile: Profile, bytes: &[u8]) -> Option<(&'static LeftOut, usize)>
    ensures { IfSome result (λ found. found.1 ≤ length bytes.now) }
{
    if profile == Profile::Named
        && let Some(found) = row_in(&IN_WIDE, bytes)
    {
        return Some(found);
    }
    if let Some(found) = row_in(&ON_FILES, bytes) {
        return Some(found);
    }
    if let Some(found) = row_in(&WITH_E, bytes) {
        return Some(found);
    }
    if let Some(found) = row_in(&WITH_F, bytes) {
        return Some(found);
    }
    if let Some(found) = row_in(&WITH_COLON, bytes) {
        return Some(found);
    }
    row_in(&OTHERS, bytes)
}

/// Whether an @ may come before a command with these operands: they have a text.
fn have_text(takes: Operands) -> bool {
    matches!(
        takes,
        Operands::Text | Operands::RegisterAndText | Operands::TwoTexts
    )
}

/// The row of the command that the bytes begin with, if the profile leaves it out, and the length of its modifiers and its name. Where no row
/// has the modifiers of a command, its row is that of the name alone: in TECO-11 most commands take a colon, and give whether they could.
pub(crate) fn row_of(profile: Profile, bytes: &[u8]) -> Option<(&'static LeftOut, usize)>
    ensures { IfSome result (λ found. found.1 ≤ length bytes.now) }
{
    let modifiers = modifiers_len(bytes).min(MOST_MODIFIERS);
    let mut has_at = false;
    for at in 0..=modifiers {
        if let Some((row, len)) = row_as_written(profile, &bytes[at..])
            && (!has_at || have_text(row.takes))
        {
            return Some((row, at + len));
        }
        has_at |= at < bytes.len() && bytes[at] == b'@';
    }
    None
}
