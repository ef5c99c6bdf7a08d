//! The commands, served over a walk.
ghost use Rattle.std.specs.Prelude.{◌≡◌, ◌⊎◌, OnErr, OnOk};
ghost use Rattle.teco_debugger.specs.Commands.{is_leaving};
ghost use Rattle.teco_debugger.specs.Serving.{AsksAndServes, EndsStar, EndsUnread, StopsShowing, Obeys, ServesLines, ServesNext, ShowsIf, stage};

use crate::debugger::Debugger;
use crate::ending::Ending;
use crate::{CommandFault, DebuggerCommand, Plain};
use std::alloc::Global;
use std::io::BufRead;
use teco_core::NoMemory;
use teco_io::{Terminal, TerminalFault};

/// Whether a line asks to leave.
fn is_leaving(asked: &Result<DebuggerCommand, CommandFault>) -> bool
    ensures { result ≡ is_leaving asked.now }
{
    matches!(asked, Ok(DebuggerCommand::Plain(Plain::Quit)))
}

/// Shows these bytes, if commands are typed at a terminal.
fn show_if<T: Terminal>(prompts: bool, bytes: &[u8], term: &mut T) -> Result<(), TerminalFault>
    ensures ok { OnOk result (ShowsIf prompts bytes.now (T.screen term.old) (T.screen term.new)) }
    ensures err { OnErr result (StopsShowing bytes.now (T.screen term.old) (T.screen term.new)) }
{
    if !prompts {
        return Ok(());
    }
    term.put(bytes)
}

/// Ends the line of a star, if one is shown; says how the serving ends.
fn end_star<T: Terminal>(prompts: bool, term: &mut T) -> Ending
    ensures { EndsStar prompts result (T.screen term.old) (T.screen term.new) }
{
    match show_if(prompts, b"\n", term) {
        Ok(()) => Ending::Done,
        Err(TerminalFault) => Ending::ShowFault,
    }
}

/// Answers a line, unless it asks to leave; says how the serving ends, if it does.
fn obey<T: Terminal>(
    alloc: Global,
    debugger: &mut Debugger,
    line: &[u8],
    term: &mut T,
) -> Option<Ending>
    ensures { Obeys line.now result debugger.old debugger.new (T.screen term.old) (T.screen term.new) }
{
    let asked = debugger.asked(line);
    if is_leaving(&asked) {
        return Some(Ending::Done);
    }
    match debugger.answer_to(alloc, &asked, line) {
        Err(NoMemory) => Some(Ending::NoMemory),
        Ok(text) => match term.put(text.as_bytes()) {
            Ok(()) => None,
            Err(TerminalFault) => Some(Ending::ShowFault),
        },
    }
}

/// Reads the next line, and obeys it; says how the serving ends, if it does.
fn read_line<C: BufRead, T: Terminal>(
    alloc: Global,
    debugger: &mut Debugger,
    prompts: bool,
    commands: &mut C,
    term: &mut T,
) -> Option<Ending>
    ensures { let old = stage (C.remaining commands.old) debugger.old (T.screen term.old) in
        let new = stage (C.remaining commands.new) debugger.new (T.screen term.new) in
        ServesNext result old new ⊎ EndsUnread prompts result old new }
{
    let mut line = Vec::new(alloc);
    match commands.read_until(b'\n', &mut line) {
        Ok(0) => Some(end_star(prompts, term)),
        Ok(_) => obey(alloc, debugger, line.as_slice(), term),
        Err(_) => Some(Ending::ReadFault),
    }
}

/// Asks for the next line, reads and obeys it; says how the serving ends, if it does.
fn serve_line<C: BufRead, T: Terminal>(
    alloc: Global,
    debugger: &mut Debugger,
    prompts: bool,
    commands: &mut C,
    term: &mut T,
) -> Option<Ending>
    ensures { let old = stage (C.remaining commands.old) debugger.old (T.screen term.old) in
        let new = stage (C.remaining commands.new) debugger.new (T.screen term.new) in
        AsksAndServes prompts result old new }
{
    match show_if(prompts, b"* ", term) {
        Ok(()) => read_line(alloc, debugger, prompts, commands, term),
        Err(TerminalFault) => Some(Ending::ShowFault),
    }
}

/// Serves commands, a line each, until one is `quit` or none is left.
pub fn serve<C: BufRead, T: Terminal>(
    alloc: Global,
    debugger: &mut Debugger,
    prompts: bool,
    commands: &mut C,
    term: &mut T,
) -> Ending
    ensures { ServesLines prompts (stage (C.remaining commands.old) debugger.old (T.screen term.old))
        (stage (C.remaining commands.new) debugger.new (T.screen term.new)) result }
{
    for _i in 0..u64::MAX {
        if let Some(ending) = serve_line(alloc, debugger, prompts, commands, term) {
            return ending;
        }
    }
    // no run comes to so many lines
    Ending::ReadFault
}
