//! What a check finds in the commands of a line.
ghost use Rattle.std.specs.Prelude.{◌≡◌, ◌&&◌, IfOk, false, true};
ghost use Rattle.teco_core.specs.Register.{content};
ghost use Rattle.teco_check.specs.Checked.{held};
ghost use Rattle.teco_check.specs.Clean.{IsClean};
ghost use Rattle.teco_check.specs.CleanRuns.{HoldsCode};
ghost use Rattle.teco_lint.specs.Spelling.{is_misspelt, is_misspelt_text};
ghost use Rattle.teco_lint.specs.Faults.{has_fault, is_faulty};
ghost use Rattle.teco_lint.specs.Strings.{is_unclean, is_unclean_text};
ghost use Rattle.teco_driver.specs.Checks.{RunWithoutFault, SaysAlone, SaysFaulty, SaysMisspelt, SaysOf, SaysOfAll, SaysUnclean};
ghost use Rattle.teco_driver.specs.Values.{hold_wrong};

use crate::placing::byte_places;
use crate::{ReadSources, put_values, source_name};
use std::alloc::Global;
use teco_check::REGISTERS;
use teco_cli::{Commands, Line};
use teco_core::{NoMemory, Profile, Reg, Registers};
use teco_lint::{
    Remark, check, check_over, check_text, is_misspelt, is_misspelt_text, register_at, report,
    report_part, tells_fault,
};
use teco_messages::letter;
use teco_scan::{Span, Text};
use teco_source::{ReaderFault, beginnings, commands as commands_of};
use teco_store::{Desk, Editor};

/// What a check tells, and what it found.
#[derive(Drop)]
pub(crate) struct Verdict {
    pub(crate) lines: String,
    /// Whether a text has a fault.
    pub(crate) is_faulty: bool,
    /// Whether one has a fault, or something that no check looks into.
    pub(crate) is_unclean: bool,
    /// Whether the first that is told of one is a fault.
    pub(crate) is_misspelt: bool,
}

/// The lines that tell of a check, those of each source with its name. What is told of the end belongs to the last one.
fn lines_of_parts(
    alloc: Global,
    commands: &Commands,
    parts: &ReadSources,
    bytes: Text<'_>,
    remarks: &[Remark],
) -> Result<String, NoMemory> {
    let mut lines = String::new(alloc);
    let list = parts.list();
    let mut from = 0;
    for (n, part) in list.iter().enumerate() {
        let to = if n + 1 == list.len() {
            usize::MAX
        } else {
            part.to
        };
        let name = source_name(commands, part.at);
        let places = byte_places(alloc, commands, part.source.as_slice())?;
        report_part(
            &mut lines,
            name,
            part.source.as_slice(),
            Some(places.as_slice()),
            bytes,
            Span { from, to },
            remarks,
        )?;
        from = part.to;
    }
    Ok(lines)
}

/// The lines that tell of a check of the commands of a line.
fn lines_of(
    alloc: Global,
    commands: &Commands,
    parts: &ReadSources,
    bytes: Text<'_>,
    remarks: &[Remark],
) -> Result<String, NoMemory> {
    match commands {
        Commands::Bytes(name) => report(alloc, name.as_str(), bytes.bytes, None, bytes, remarks),
        _ => lines_of_parts(alloc, commands, parts, bytes, remarks),
    }
}

/// The faults among the remarks of a check, without the hints and what isn't checked.
fn faults_of(alloc: Global, remarks: &[Remark]) -> Result<Vec<Remark>, NoMemory> {
    let mut faults = Vec::new(alloc);
    for remark in remarks {
        if tells_fault(remark) {
            faults.push(*remark)?;
        }
    }
    Ok(faults)
}

/// The lines that tell of a check of the commands of a line, without the hints if these aren't wanted.
fn lines_by(
    alloc: Global,
    commands: &Commands,
    parts: &ReadSources,
    bytes: Text<'_>,
    remarks: &[Remark],
    hints: bool,
) -> Result<String, NoMemory> {
    if hints {
        return lines_of(alloc, commands, parts, bytes, remarks);
    }
    lines_of(alloc, commands, parts, bytes, &faults_of(alloc, remarks)?)
}

/// The lines that tell of a check of the text that a register has at first, without the hints if these aren't wanted.
fn lines_of_register(
    alloc: Global,
    register: Reg,
    text: Text<'_>,
    remarks: &[Remark],
    hints: bool,
) -> Result<String, NoMemory> {
    let letter = letter(register);
    let name = format!(in alloc; "--assign {letter}")?;
    if hints {
        return report(alloc, name.as_str(), text.bytes, None, text, remarks);
    }
    let faults = faults_of(alloc, remarks)?;
    report(alloc, name.as_str(), text.bytes, None, text, &faults)
}

/// Checks the text that a register has at first, if it holds code.
fn verdict_on_register(
    alloc: Global,
    profile: Profile,
    first: &Registers,
    register: Reg,
    code: &[bool; REGISTERS],
    hints: bool,
) -> Result<Verdict, NoMemory>
    ensures faulty { IfOk result (λ verdict. verdict.is_faulty
        ≡ (held code.now register && has_fault profile code.now (content first.now register).text)) }
    ensures unclean { IfOk result (λ verdict. verdict.is_unclean
        ≡ (held code.now register && is_unclean_text profile code.now (content first.now register).text)) }
    ensures misspelt { IfOk result (λ verdict. verdict.is_misspelt
        ≡ (held code.now register && is_misspelt_text profile code.now (content first.now register).text)) }
    ensures right { IfOk result (λ verdict. verdict.is_unclean ≡ false
        → held code.now register ≡ true → IsClean profile (held code.now) (content first.now register).text) }
{
    if !code[register.index()] {
        return Ok(unchecked(alloc));
    }
    let bytes = first.text(register);
    let mut remarks = Vec::new(alloc);
    let flaws = check_text(alloc, profile, &mut remarks, bytes, code)?;
    let text = Text { profile, bytes };
    Ok(Verdict {
        lines: lines_of_register(alloc, register, text, &remarks, hints)?,
        is_faulty: flaws.is_faulty,
        is_unclean: flaws.is_unclean,
        is_misspelt: is_misspelt_text(alloc, profile, bytes, code),
    })
}

/// Checks the texts that registers of code have at first.
fn verdict_on_registers(
    alloc: Global,
    profile: Profile,
    first: &Registers,
    code: &[bool; REGISTERS],
    hints: bool,
) -> Result<Verdict, NoMemory>
    ensures faulty { IfOk result (λ verdict. verdict.is_faulty ≡ hold_wrong (has_fault profile code.now) code.now first.now) }
    ensures unclean { IfOk result (λ verdict. verdict.is_unclean
        ≡ hold_wrong (is_unclean_text profile code.now) code.now first.now) }
    ensures misspelt { IfOk result (λ verdict. verdict.is_misspelt
        ≡ hold_wrong (is_misspelt_text profile code.now) code.now first.now) }
    ensures right { IfOk result (λ verdict. verdict.is_unclean ≡ false → HoldsCode profile (held code.now) first.now) }
{
    let mut lines = String::new(alloc);
    let mut is_faulty = false;
    let mut is_unclean = false;
    let mut is_misspelt = false;
    'registers: for index in 0..REGISTERS {
        let one = verdict_on_register(alloc, profile, first, register_at(index), code, hints)?;
        lines.push_str(one.lines.as_str())?;
        is_faulty |= one.is_faulty;
        is_unclean |= one.is_unclean;
        is_misspelt |= one.is_misspelt;
    }
    Ok(Verdict {
        lines,
        is_faulty,
        is_unclean,
        is_misspelt,
    })
}

/// Checks all the commands of a line, and the texts that it puts where code is. Hints are told if they are wanted.
fn verdict_on_all(
    alloc: Global,
    line: &Line,
    parts: &ReadSources,
    bytes: &[u8],
    hints: bool,
) -> Result<Verdict, NoMemory>
    ensures faulty { IfOk result (λ verdict. SaysOfAll (is_faulty line.now.profile) (has_fault line.now.profile) line.now bytes.now verdict.is_faulty) }
    ensures unclean { IfOk result (λ verdict. SaysOfAll (is_unclean line.now.profile) (is_unclean_text line.now.profile)
        line.now bytes.now verdict.is_unclean) }
    ensures misspelt { IfOk result (λ verdict. SaysOfAll (is_misspelt line.now.profile) (is_misspelt_text line.now.profile)
        line.now bytes.now verdict.is_misspelt) }
    ensures right { IfOk result (λ verdict. verdict.is_unclean ≡ false → RunWithoutFault line.now bytes.now) }
{
    let mut editor = Editor::new(Vec::new(alloc));
    put_values(alloc, &line.values, &mut editor)?;
    let first = editor.registers();
    let advice = check_over(alloc, line.profile, bytes, first)?;
    let texts = verdict_on_registers(alloc, line.profile, first, &advice.code, hints)?;
    let text = Text {
        profile: line.profile,
        bytes,
    };
    let mut lines = lines_by(alloc, &line.commands, parts, text, &advice.remarks, hints)?;
    lines.push_str(texts.lines.as_str())?;
    Ok(Verdict {
        lines,
        is_faulty: advice.is_faulty | texts.is_faulty,
        is_unclean: advice.is_unclean | texts.is_unclean,
        is_misspelt: is_misspelt(alloc, line.profile, bytes, &advice.code) | texts.is_misspelt,
    })
}

/// Checks strings for every page by themselves, and tells their faults alone.
fn verdict_on_strings(
    alloc: Global,
    profile: Profile,
    name: &str,
    source: &[u8],
    strings: &[u8],
) -> Result<Verdict, NoMemory>
    ensures faulty { IfOk result (λ verdict. SaysOf profile (is_faulty profile) strings.now verdict.is_faulty) }
    ensures unclean { IfOk result (λ verdict. SaysOf profile (is_unclean profile) strings.now verdict.is_unclean) }
    ensures misspelt { IfOk result (λ verdict. SaysOf profile (is_misspelt profile) strings.now verdict.is_misspelt) }
{
    let advice = check(alloc, profile, strings)?;
    let faults = faults_of(alloc, &advice.remarks)?;
    let places = beginnings(alloc, source)?;
    Ok(Verdict {
        lines: report(
            alloc,
            name,
            source,
            Some(places.as_slice()),
            Text {
                profile,
                bytes: strings,
            },
            &faults,
        )?,
        is_faulty: advice.is_faulty,
        is_unclean: advice.is_unclean,
        is_misspelt: is_misspelt(alloc, profile, strings, &advice.code),
    })
}

/// The verdict on commands of which nothing is checked.
fn unchecked(alloc: Global) -> Verdict
    ensures faulty { result.is_faulty ≡ false }
    ensures unclean { result.is_unclean ≡ false }
    ensures misspelt { result.is_misspelt ≡ false }
{
    Verdict {
        lines: String::new(alloc),
        is_faulty: false,
        is_unclean: false,
        is_misspelt: false,
    }
}

/// Checks strings for every page by themselves, where the commands are those.
fn verdict_alone(alloc: Global, profile: Profile, commands: &Commands) -> Result<Verdict, NoMemory>
    ensures faulty { IfOk result (λ verdict. SaysAlone profile (is_faulty profile) commands.now verdict.is_faulty) }
    ensures unclean { IfOk result (λ verdict. SaysAlone profile (is_unclean profile) commands.now verdict.is_unclean) }
    ensures misspelt { IfOk result (λ verdict. SaysAlone profile (is_misspelt profile) commands.now verdict.is_misspelt) }
{
    let Commands::Pages(word) = commands else {
        return Ok(unchecked(alloc));
    };
    let source = word.as_bytes();
    match commands_of(alloc, source) {
        Ok(strings) => verdict_on_strings(
            alloc,
            profile,
            source_name(commands, 0),
            source,
            strings.as_slice(),
        ),
        Err(ReaderFault::Caret(_)) => Ok(unchecked(alloc)),
        Err(ReaderFault::Memory) => Err(NoMemory),
    }
}

/// Checks these commands of a line, and strings for every page by themselves before. What is told of those strings alone is told if they
/// are misspelt, or if no fault is in the whole. Else what is told of the whole is, with hints if they are wanted.
pub(crate) fn verdict_on(
    alloc: Global,
    line: &Line,
    parts: &ReadSources,
    bytes: &[u8],
    hints: bool,
) -> Result<Verdict, NoMemory>
    ensures faulty { IfOk result (λ verdict. SaysFaulty line.now bytes.now verdict.is_faulty) }
    ensures unclean { IfOk result (λ verdict. SaysUnclean line.now bytes.now verdict.is_unclean) }
    ensures misspelt { IfOk result (λ verdict. SaysMisspelt line.now bytes.now verdict.is_misspelt) }
    ensures right { IfOk result (λ verdict. verdict.is_unclean ≡ false → RunWithoutFault line.now bytes.now) }
{
    let alone = verdict_alone(alloc, line.profile, &line.commands)?;
    let all = verdict_on_all(alloc, line, parts, bytes, hints)?;
    let tells_alone = alone.is_misspelt | (alone.is_faulty & !all.is_faulty);
    Ok(Verdict {
        is_faulty: alone.is_faulty | all.is_faulty,
        is_unclean: alone.is_unclean | all.is_unclean,
        is_misspelt: alone.is_misspelt | all.is_misspelt,
        lines: if tells_alone { alone.lines } else { all.lines },
    })
}
