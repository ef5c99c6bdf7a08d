//! What is told of a line that is refused, and with which status.
ghost use Rattle.std.specs.Prelude.{◌≡◌};
ghost use Rattle.teco_io.specs.Terminal.{Shows};
ghost use Rattle.teco_fs.specs.Console.{console};
ghost use Rattle.teco_fs.specs.Refusing.{IsRefusedBy, ShowsAsked, Tells, TellsText};

use teco_cli::{LineFault, Refusal, RefusedAs, refused_status};
use teco_io::{Terminal, TerminalFault};

/// Tells a text, or, where memory was refused for it, the text for that.
pub fn tell<E: Terminal>(text: &Option<String>, no_memory: &[u8], errors: &mut E)
    ensures { TellsText (Shows (E.screen errors.old) (E.screen errors.new)) no_memory.now text.now }
{
    let _ = match text {
        Some(text) => errors.put(text.as_bytes()),
        None => errors.put(no_memory),
    };
}

/// Tells that there is no memory, by the text for that, and gives the status.
pub fn tell_no_memory<E: Terminal>(no_memory: &[u8], errors: &mut E) -> u8
    ensures status { result ≡ 1 }
    ensures told { Tells (E.screen errors.old) (E.screen errors.new) no_memory.now }
{
    let _ = errors.put(no_memory);
    1
}

/// Shows the help or the version, since that is what was asked for. It is a failure if it can't be shown.
fn answer<T: Terminal, E: Terminal>(
    refusal: &Refusal,
    no_memory: &[u8],
    term: &mut T,
    errors: &mut E,
) -> u8
    ensures { let seen = console T.screen term.old term.new E.screen errors.old errors.new in
        ShowsAsked seen no_memory.now refusal.now.text result }
{
    match &refusal.text {
        Some(text) => match term.put(text.as_bytes()) {
            Ok(()) => 0,
            Err(TerminalFault) => 1,
        },
        None => tell_no_memory(no_memory, errors),
    }
}

/// Tells why there is no line, and gives the status: the help and the version on the terminal, and all else on standard error. Want of
/// memory is told by the text for that.
pub fn refuse<T: Terminal, E: Terminal>(
    fault: &LineFault,
    no_memory: &[u8],
    term: &mut T,
    errors: &mut E,
) -> u8
    ensures { let seen = console T.screen term.old term.new E.screen errors.old errors.new in
        IsRefusedBy seen no_memory.now fault.now result }
{
    match fault {
        LineFault::NoMemory => tell_no_memory(no_memory, errors),
        LineFault::Refused(refusal) => match refusal.refused_as {
            RefusedAs::Help | RefusedAs::Version => answer(refusal, no_memory, term, errors),
            RefusedAs::Faulty | RefusedAs::NoMemory => {
                tell(&refusal.text, no_memory, errors);
                refused_status(refusal)
            }
        },
    }
}
