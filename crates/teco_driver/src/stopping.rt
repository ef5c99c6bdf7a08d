//! Where and why a string stopped.
ghost use Rattle.std.specs.Prelude.{◌≡◌, ◌++◌, OnOk, option_copied};
ghost use Rattle.std.specs.String.{string_bytes};
ghost use Rattle.teco_driver.specs.Reporting.{call_reported, outer_place, reason_told};
ghost use Rattle.teco_serve.specs.Explaining.{place_had};

use teco_core::{Code, NoMemory, Registers};
use teco_exec::Place;
use teco_messages::{show_place, show_reason};
use teco_serve::{Bounds, limits_after, outcome_of};
use teco_session::{Answered, Session};
use teco_store::Desk;

/// Where a string stood, or its first call that is open: at its beginning, if that isn't known.
pub(crate) fn outer_place(place: Option<&Place>) -> usize
    ensures { result ≡ outer_place (option_copied place.entry) }
{
    let Some(place) = place else {
        return 0;
    };
    match place.calls.last() {
        Some(call) => call.at,
        None => place.at,
    }
}

/// Puts the register whose text ran, if one was called, and the place there.
fn put_call(
    out: &mut String,
    place: Option<&Place>,
    registers: &Registers,
    text: &[u8],
) -> Result<(), NoMemory>
    ensures { OnOk result (string_bytes out.new
        ≡ string_bytes out.old ++ call_reported (option_copied place.entry) registers.now text.now) }
{
    let Some(place) = place else {
        return Ok(());
    };
    match place.calls.first() {
        None => Ok(()),
        Some(_) => {
            out.push_str(" in ")?;
            show_place(out, place, registers, text)
        }
    }
}

/// Where the run of a string last stood, unless memory lacked for that.
pub(crate) fn place_had(answered: &Answered) -> Option<&Place>
    ensures { option_copied result ≡ place_had answered.now.place }
{
    match &answered.place {
        Ok(place) => place.as_ref(),
        Err(NoMemory) => None,
    }
}

/// Puts where in a called text a string stopped, and why; and what is told besides.
pub(crate) fn put_reason(
    out: &mut String,
    text: &[u8],
    answered: &Answered,
    bounds: Bounds,
    session: &Session,
    code: Code,
    advice: &str,
) -> Result<(), NoMemory>
    ensures { OnOk result (string_bytes out.new
        ≡ string_bytes out.old ++ reason_told advice.now text.now answered.now bounds session.now code) }
{
    let registers = session.editor().registers();
    put_call(out, place_had(answered), registers, text)?;
    out.push_str(": ")?;
    let limits = limits_after(bounds, outcome_of(answered.answer));
    show_reason(out, code, Some(limits))?;
    out.push_str(advice)?;
    out.push_str("\n")
}
