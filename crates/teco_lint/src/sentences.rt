//! Faults and hints in sentences.
use crate::left_out::{LeftOut, row_of, row_of_form};
use crate::naming::{bare_name_of, modifiers_len, name_of};
use crate::passing::part;
use crate::remarks::{FaultIn, Hint, Remark, What};
use memchr::memchr;
use std::fmt::Write;
use teco_check::{MOST_TEXTS, Wrong};
use teco_core::{BLOCK_LIMIT, Code, ESC, NoMemory, Profile};
use teco_messages::{Spot, spell_token, token};
use teco_scan::{Found, Item, Text, TokenKind, token_at};

/// Shows a text, the spelling of bytes, and another text.
fn show_around(out: &mut String, before: &str, bytes: &[u8], after: &str) -> Result<(), NoMemory> {
    out.push_str(before)?;
    spell_token(out, bytes)?;
    out.push_str(after)
}

/// Says which modifier is not taken by the command that comes after them.
fn show_modifiers(out: &mut String, bytes: &[u8], modifiers: usize) -> Result<(), NoMemory> {
    let mut ats = 0;
    for byte in &bytes[..modifiers.min(bytes.len())] {
        if *byte == b'@' {
            ats += 1;
        }
    }
    let colons = modifiers.saturating_sub(ats);
    if ats > 1 || colons > 2 {
        return out.push_str("one @ and two colons at most");
    }
    let refused = match (ats, colons) {
        (0, 1) => " takes no colon",
        (0, _) => " takes no two colons",
        (_, 0) => " takes no @",
        _ => " does not take these modifiers",
    };
    show_around(out, "", bare_name_of(bytes), refused)
}

/// Whether a command could be read but for its modifiers.
fn is_known(profile: Profile, bytes: &[u8]) -> bool {
    !matches!(
        token_at(profile, bytes, 0),
        Found::Fault(Code::Ill) | Found::End
    )
}

/// Says why no command is there.
fn show_no_command(out: &mut String, profile: Profile, bytes: &[u8]) -> Result<(), NoMemory> {
    let modifiers = modifiers_len(bytes);
    if modifiers > 0 && is_known(profile, &bytes[modifiers..]) {
        return show_modifiers(out, bytes, modifiers);
    }
    show_around(out, "no command begins with ", bare_name_of(bytes), "")
}

/// Says which text has no end.
fn show_no_end(out: &mut String, bytes: &[u8]) -> Result<(), NoMemory> {
    let name = name_of(bytes);
    let rest = &bytes[name.len().min(bytes.len())..];
    match bare_name_of(bytes) {
        [b'!'] => out.push_str("the tag has no ! after its name"),
        [b'F' | b'f', b'S' | b's'] if memchr(ESC, rest).is_some() => out.push_str(
            "the second text of FS has no ESC; two ESC end the command string",
        ),
        [1] | [b'^', b'A' | b'a'] => out.push_str("the text of ^A has no ^A"),
        _ if rest.is_empty() => out.push_str("the text ends inside a command"),
        _ if memchr(b'@', name).is_some() => {
            show_around(
                out,
                "the text of ",
                name,
                " does not end with the byte it begins with",
            )
        }
        _ => show_around(out, "the text of ", name, " has no ESC"),
    }
}

/// Says what TECO-11 does here, and what to write in its place.
fn show_left_out(out: &mut String, row: &LeftOut) -> Result<(), NoMemory> {
    let written = row.written;
    let does = row.does;
    let instead = row.instead;
    write!(
        out,
        "{written} of TECO-11 is left out: it {does}; here: {instead}"
    )
}

/// What comes after `"`.
fn tests_of(profile: Profile) -> &'static str {
    match profile {
        Profile::Named => "after \" comes a letter of E F U N G L S T A D R V W",
        Profile::Wide => "after \" comes a letter of E F U N G L S T A D R V W C, or = < >",
    }
}

/// Says why no token can be read.
fn show_unreadable(
    out: &mut String,
    profile: Profile,
    bytes: &[u8],
    code: Code,
) -> Result<(), NoMemory> {
    if let Code::Utc = code {
        return show_no_end(out, bytes);
    }
    if let Some((row, _)) = row_of(profile, bytes) {
        return show_left_out(out, row);
    }
    match code {
        Code::Iqn => show_around(
            out,
            "after ",
            name_of(bytes),
            " comes a register, A to Z or 0 to 9",
        ),
        Code::Iqc => out.push_str(tests_of(profile)),
        _ => show_no_command(out, profile, bytes),
    }
}

/// Says where a block is opened.
fn show_opening(out: &mut String, opening: Option<Spot>) -> Result<(), NoMemory> {
    match opening {
        Some(spot) => write!(out, " at {spot}"),
        None => Ok(()),
    }
}

/// Says what a mark closes or divides, if it is the wrong block.
fn show_stray(
    out: &mut String,
    mark: &[u8],
    opener: Option<&[u8]>,
    opening: Option<Spot>,
) -> Result<(), NoMemory> {
    let (words, block): (&str, &[u8]) = match (mark, opener) {
        ([b'|', ..], Some([b'"', ..])) => ("a second | in the conditional", &[]),
        ([b'>', ..], Some(block)) => ("> closes ", block),
        ([b'\'', ..], Some(block)) => ("' closes ", block),
        (_, Some(block)) => ("| divides ", block),
        ([b'>', ..], None) => ("> has no <", &[]),
        ([b'\'', ..], None) => ("' has no \"", &[]),
        (_, None) => ("| has no \"", &[]),
    };
    show_around(out, words, block, "")?;
    show_opening(out, opening)
}

/// The name of the tag that a jump goes to, where the jump begins the bytes.
fn tag_name(profile: Profile, bytes: &[u8]) -> &[u8] {
    match token_at(profile, bytes, 0) {
        Found::Token(token) => match token.kind {
            TokenKind::Item(Item::Text(_, span)) => part(bytes, span),
            _ => &[],
        },
        _ => &[],
    }
}

/// What opens a block, if one is open.
fn opener(profile: Profile, text: &[u8], place: Option<usize>) -> Option<&[u8]> {
    match place {
        Some(at) => Some(token(profile, text, at, 1)),
        None => None,
    }
}

/// The code of a fault; none of those that a run does not end by.
fn code_of(wrong: Wrong) -> Option<Code> {
    match wrong {
        Wrong::Unreadable(code) | Wrong::Stray(code, _) => Some(code),
        Wrong::Unended => Some(Code::Utc),
        Wrong::TooDeep => Some(Code::Pdo),
        Wrong::NoTag => Some(Code::Tag),
        Wrong::Calls | Wrong::Loads | Wrong::InText => None,
    }
}

/// The place at which the block is opened that a fault belongs to, if it is one of a stray mark.
pub fn opening_of(remark: &Remark) -> Option<usize> {
    match remark.what {
        What::Fault(fault) => match fault.wrong {
            Wrong::Stray(_, Some(at)) => Some(fault.inside.from.saturating_add(at)),
            _ => None,
        },
        _ => None,
    }
}

/// Whether a remark tells of a conditional that isn't closed.
pub fn is_open_conditional(commands: Text<'_>, remark: &Remark) -> bool {
    let What::Fault(fault) = remark.what else {
        return false;
    };
    let text = part(commands.bytes, fault.inside);
    let opening = match fault.wrong {
        Wrong::Unended => Some(fault.at.saturating_sub(fault.inside.from)),
        Wrong::Stray(_, opening) => opening,
        _ => None,
    };
    matches!(opener(commands.profile, text, opening), Some([b'"', ..]))
}

fn show_wrong(
    out: &mut String,
    profile: Profile,
    text: &[u8],
    at: usize,
    wrong: Wrong,
    opening: Option<Spot>,
) -> Result<(), NoMemory> {
    let here = &text[at.min(text.len())..];
    let token = token(profile, text, at, 1);
    match wrong {
        Wrong::Unreadable(code) => show_unreadable(out, profile, here, code),
        Wrong::Stray(_, place) => show_stray(out, here, opener(profile, text, place), opening),
        Wrong::Unended => match here {
            [b'<', ..] => out.push_str("< has no >"),
            _ => show_around(out, "", token, " has no '"),
        },
        Wrong::TooDeep => write!(out, "more than {BLOCK_LIMIT} blocks are open"),
        Wrong::NoTag => show_around(
            out,
            "no tag !",
            tag_name(profile, here),
            "! is in this list or one around it",
        ),
        Wrong::Calls => show_around(out, "", token, " runs a text that is not looked into"),
        Wrong::Loads => show_around(
            out,
            "",
            token,
            " puts what no check can see into a register that is called",
        ),
        Wrong::InText => {
            show_around(out, "", token, " has a text inside ")?;
            write!(out, "{MOST_TEXTS} others")
        }
    }
}

/// Shows a fault: its code, and what is wrong. Of what no check looks into it is a hint that says so.
fn show_fault(
    out: &mut String,
    commands: Text<'_>,
    fault: &FaultIn,
    opening: Option<Spot>,
) -> Result<(), NoMemory> {
    let begun = match code_of(fault.wrong) {
        Some(code) => write!(out, "{code}: "),
        None => out.push_str("hint: not checked: "),
    };
    begun?;
    let at = fault.at.saturating_sub(fault.inside.from);
    let text = part(commands.bytes, fault.inside);
    show_wrong(out, commands.profile, text, at, fault.wrong, opening)
}

/// Shows a hint.
fn show_hint(out: &mut String, hint: Hint) -> Result<(), NoMemory> {
    let words = match hint {
        Hint::NeverSet(name) => {
            return write!(out, "{name} is called, and nothing puts a text into it");
        }
        Hint::LeftOut(form) => return show_left_out(out, row_of_form(form)),
        Hint::WrongSearchText => "no search reads this text, which is ICE",
        Hint::AfterExit => "EX ends the run before this",
        Hint::LeavesNothing => "; is in no iteration of this text, which is SNI",
        Hint::Caret => "a caret in a search text is a caret, and no control byte",
        Hint::NumberBeforeJump => {
            "nO of TECO-11 is left out: it chooses a tag by a number; here: a test before each jump"
        }
        Hint::EmptyText => "the text is empty: two ESC end the command string",
        Hint::NotRun => "this is not run: two ESC end a command string",
        Hint::OneEscape => "this is not run: it ends with one ESC, and wants two",
        Hint::NoExit => "no EX: nothing is written",
        Hint::NoPage => "no page is read: Y reads the first",
    };
    out.push_str(words)
}

/// Shows a remark on commands; `opening` is where the block is opened that it belongs to.
pub fn show_remark(
    out: &mut String,
    commands: Text<'_>,
    remark: &Remark,
    opening: Option<Spot>,
) -> Result<(), NoMemory> {
    match remark.what {
        What::Fault(fault) => show_fault(out, commands, &fault, opening),
        What::Hint(hint) => {
            out.push_str("hint: ")?;
            show_hint(out, hint)
        }
        What::More => out.push_str("hint: more remarks are not told"),
    }
}
