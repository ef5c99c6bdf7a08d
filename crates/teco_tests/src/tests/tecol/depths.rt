//! How many texts in one another a check looks into.
use crate::tests::assert_of;
use crate::tests::bytes::{has, named_text};
use std::alloc::Global;
use std::test::*;
use teco_core::{NoMemory, Profile};
use teco_lint::{check, report};

/// Commands with so many texts in one another, each within as many blocks as may be open, and the last with these commands.
fn nested(alloc: Global, texts: u8, last: &[u8]) -> Result<Vec<u8>, NoMemory> {
    let mut commands = Vec::new(alloc);
    for text in 0..texts {
        commands.extend_from_slice(&[b'<'; 64])?;
        commands.extend_from_slice(&[b'@', 21, b'A', b'a' + text % 26])?;
    }
    commands.extend_from_slice(last)?;
    for text in 0..texts {
        commands.push(b'a' + (texts - 1 - text) % 26)?;
        commands.extend_from_slice(&[b'>'; 64])?;
    }
    commands.extend_from_slice(b"YMAEX\x1b\x1b")?;
    Ok(commands)
}

/// So many texts, the commands of the last, and what is told.
static ROWS: [(u8, &[u8], &str); 5] = [
    (8, b"J", ""),
    (8, b"J{", "-:1:546: ILL: no command begins with {\n"),
    (
        9,
        b"J",
        "-:1:609: hint: not checked: @^UAiJi has a text inside 8 others\n",
    ),
    (
        9,
        b"J{",
        "-:1:609: hint: not checked: @^UAiJ{i has a text inside 8 others\n",
    ),
    (
        26,
        b"J",
        "-:1:609: hint: not checked: @^UAi<<<<<<<<<<<<<<<<<<<<<<<<<<<<<<<<<<<<... (2267 bytes) has a text inside 8 others\n",
    ),
];

/// Whether a row is told so.
fn is_told(alloc: Global, row: &(u8, &[u8], &str)) -> Result<bool, NoMemory> {
    let commands = nested(alloc, row.0, row.1)?;
    let advice = check(alloc, Profile::Named, &commands)?;
    let lines = report(
        alloc,
        "-",
        &commands,
        None,
        named_text(&commands),
        &advice.remarks,
    )?;
    let flags = advice.is_unclean != row.2.is_empty() && advice.is_faulty == has(row.2, "ILL");
    Ok(lines.as_bytes() == row.2.as_bytes() && flags)
}

#[test]
fn texts_in_one_another_are_looked_into(rt: HostRuntime) {
    let alloc = rt.alloc();
    for row in &ROWS {
        assert_of(&rt, row.2, is_told(alloc, row).unwrap_or(false));
    }
}
