//! Strings that are tried at a place.
ghost use Rattle.std.specs.Prelude.{◌≡◌, ◌++◌, ◌&&◌, IfOk, codes, is_none, not};
ghost use Rattle.teco_store.specs.State.{state_of};
ghost use Rattle.teco_debugger.specs.Testing.{holds_number, is_met, is_yes, tried};
ghost use Rattle.teco_session.specs.History.{present};
ghost use Rattle.teco_session.specs.Kept.{history_of};

use crate::Walk;
use crate::walk::lacks_memory;
use teco_core::{Code, NoMemory, Reg};
use teco_replay::Quiet;
use teco_session::{Answer, Session};
use teco_store::{Desk, Editor};

/// The most steps of a string that is tried.
const TEST_STEPS: u64 = 10_000;

/// Whether register Z holds another number than 0.
fn holds_number(editor: &Editor) -> bool
    ensures { result ≡ holds_number (state_of editor.now) }
{
    match Reg::of(b'Z') {
        Some(q) => editor.registers().number(q) != 0,
        None => false,
    }
}

/// Whether a string that ended by this code, or none, left another number than 0 in register Z, and is no exit.
fn is_yes(code: Option<Code>, editor: &Editor) -> bool
    ensures { result ≡ (is_none code && (not (state_of editor.now).is_done && holds_number (state_of editor.now))) }
{
    code.is_none() && !editor.done() && holds_number(editor)
}

/// The string with `UZ` behind it.
fn with_number_kept(walk: &Walk, test: &[u8]) -> Result<Vec<u8>, NoMemory>
    ensures { IfOk result (λ string. string.items ≡ test.now ++ codes "UZ") }
{
    let mut string = Vec::from_slice(walk.alloc(), test)?;
    string.extend_from_slice(b"UZ")?;
    Ok(string)
}

/// Whether a string gives a number other than 0 on a session.
fn gives_number(walk: &Walk, session: &mut Session, test: &[u8]) -> Result<bool, NoMemory>
    ensures { IfOk result (λ so. so ≡ is_yes (tried (present (history_of session.old)) test.now)) }
{
    let string = with_number_kept(walk, test)?;
    // This shows that the history has as many strings as are done.
    let _within = session.editor();
    let Answer::Ended(outcome) = session.run(string.as_slice(), TEST_STEPS, &mut Quiet) else {
        return Err(NoMemory);
    };
    if lacks_memory(outcome.code) {
        return Err(NoMemory);
    }
    Ok(is_yes(outcome.code, session.editor()))
}

/// Whether a string gives a number other than 0 after the first `n` steps of the walk's string, if there is one. Both are run apart from
/// the walk.
pub fn is_met(walk: &Walk, n: u64, test: &Option<Vec<u8>>) -> Result<bool, NoMemory>
    ensures { IfOk result (λ so. so ≡ is_met walk.now n test.now) }
{
    match test {
        None => Ok(true),
        Some(test) => {
            let mut session = walk.session_after(n)?;
            gives_number(walk, &mut session, test.as_slice())
        }
    }
}
