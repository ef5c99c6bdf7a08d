//! The calls that make, change and end a session.
ghost use Rattle.std.specs.Prelude.{◌≡◌, ◌≢◌, ◌⊎◌, ◌↔◌, ◌<◌, ◌≤◌, length, IfOk, None, Some};
ghost use Rattle.teco_core.specs.Code.{number_of};
ghost use Rattle.teco_core.specs.declared.code.Code.TheVariants.{Mem};
ghost use Rattle.teco_core.specs.declared.profile.Profile.TheVariants.{Wide};
ghost use Rattle.teco_session.specs.Kept.{new_paged_session};
ghost use Rattle.teco_ffi.specs.Calls.{StaysClosed, Undoes, Redoes, Rewinds, Forgets, begun_session, depth_asked};
ghost use Rattle.teco_ffi.specs.Handle.{SessionGoes};
ghost use Rattle.teco_ffi.specs.Runs.{KeepsGiven, TellsNothing, TellsRun};

use crate::answers::{CLOSED, DEEP, LARGE, NOWHERE};
use crate::handle::Teco;
use std::alloc::Global;
use teco_core::{Code, DEPTH_LIMIT, FILE_LIMIT, Profile};
use teco_ffi::calls::{session_over, undo};
use teco_ffi::runs::Run;

/// Opens a handle in a profile, as `teco_open` does in the profile Named.
fn open_in(
    alloc: Global,
    profile: Profile,
    t: &mut Teco,
    input: &[u8],
    lines: usize,
    depth: usize,
) -> u8
    ensures opened { result ≡ 0 → t.new.value ≡ Some (begun_session profile lines (depth_asked depth) input.now) }
    ensures refused { result ≢ 0 → t.new.value ≡ t.old.value }
    ensures large { (result ≡ LARGE) ↔ (FILE_LIMIT < length input.now) }
    ensures deep { (result ≡ DEEP) ↔ ((length input.now ≤ FILE_LIMIT) × (DEPTH_LIMIT < depth)) }
    ensures else_memory { (result ≡ 0) ⊎ (result ≡ LARGE) ⊎ (result ≡ DEEP) ⊎ (result ≡ number_of Mem) }
{
    if input.len() > FILE_LIMIT {
        return LARGE;
    }
    if depth > DEPTH_LIMIT {
        return DEEP;
    }
    match session_over(alloc, profile, input, lines, depth) {
        Err(_) => Code::Mem.number(),
        Ok(session) => {
            t.open(session);
            0
        }
    }
}

/// Opens a handle: a session over a copy of the input, whose pages end after so many lines too, or after any number where that is 0. It
/// keeps the last `depth` strings, or all of them where that is 0. What was open in it is freed then.
///
/// 0, or the number of MEM where memory is refused, or one that says what is out of its bounds: then nothing changes.
#[unsafe(no_mangle)]
pub extern "C" fn teco_open(
    alloc: Global,
    t: &mut Teco,
    input: &[u8],
    lines: usize,
    depth: usize,
) -> u8
    ensures opened { result ≡ 0 → t.new.value ≡ Some (new_paged_session lines (depth_asked depth) input.now) }
    ensures refused { result ≢ 0 → t.new.value ≡ t.old.value }
    ensures large { (result ≡ LARGE) ↔ (FILE_LIMIT < length input.now) }
    ensures deep { (result ≡ DEEP) ↔ ((length input.now ≤ FILE_LIMIT) × (DEPTH_LIMIT < depth)) }
    ensures else_memory { (result ≡ 0) ⊎ (result ≡ LARGE) ⊎ (result ≡ DEEP) ⊎ (result ≡ number_of Mem) }
{
    open_in(alloc, Profile::Named, t, input, lines, depth)
}

/// Opens a handle as `teco_open` does, with a session whose strings are read in the wide language.
#[unsafe(no_mangle)]
pub extern "C" fn teco_open_wide(
    alloc: Global,
    t: &mut Teco,
    input: &[u8],
    lines: usize,
    depth: usize,
) -> u8
    ensures opened { result ≡ 0 → t.new.value ≡ Some (begun_session Wide lines (depth_asked depth) input.now) }
    ensures refused { result ≢ 0 → t.new.value ≡ t.old.value }
    ensures large { (result ≡ LARGE) ↔ (FILE_LIMIT < length input.now) }
    ensures deep { (result ≡ DEEP) ↔ ((length input.now ≤ FILE_LIMIT) × (DEPTH_LIMIT < depth)) }
    ensures else_memory { (result ≡ 0) ⊎ (result ≡ LARGE) ⊎ (result ≡ DEEP) ⊎ (result ≡ number_of Mem) }
{
    open_in(alloc, Profile::Wide, t, input, lines, depth)
}

/// Closes a handle, and frees what it held. A closed one is let be.
#[unsafe(no_mangle)]
pub extern "C" fn teco_close(alloc: Global, t: &mut Teco)
    ensures { t.new.value ≡ None }
{
    t.close(alloc);
}

/// Goes back by a string: 0, or the number of NTU where there is none. Takes no memory.
#[unsafe(no_mangle)]
pub extern "C" fn teco_undo(t: &mut Teco) -> u8
    ensures open { SessionGoes t.old.value t.new.value (λ old new. Undoes old result new) }
    ensures closed { StaysClosed t.old.value result t.new.value }
{
    let Some(session) = t.session() else {
        return CLOSED;
    };
    undo(session)
}

/// Goes on by a string: 0, or the number of NTR where there is none. Takes no memory.
#[unsafe(no_mangle)]
pub extern "C" fn teco_redo(t: &mut Teco) -> u8
    ensures open { SessionGoes t.old.value t.new.value (λ old new. Redoes old result new) }
    ensures closed { StaysClosed t.old.value result t.new.value }
{
    let Some(session) = t.session() else {
        return CLOSED;
    };
    match session.redo() {
        Ok(()) => 0,
        Err(_) => Code::Ntr.number(),
    }
}

/// Goes back to the state after the first `n` steps of the last string: 0, or the number of NTU where there is none. Takes no memory.
#[unsafe(no_mangle)]
pub extern "C" fn teco_rewind(t: &mut Teco, n: u64) -> u8
    ensures open { SessionGoes t.old.value t.new.value (λ old new. Rewinds n old result new) }
    ensures closed { StaysClosed t.old.value result t.new.value }
{
    let Some(session) = t.session() else {
        return CLOSED;
    };
    match session.rewind(n) {
        Ok(()) => 0,
        Err(_) => Code::Ntu.number(),
    }
}

/// Drops the undone strings, where there are any: 0. Takes no memory.
#[unsafe(no_mangle)]
pub extern "C" fn teco_forget(t: &mut Teco) -> u8
    ensures open { SessionGoes t.old.value t.new.value (λ old new. Forgets old result new) }
    ensures closed { StaysClosed t.old.value result t.new.value }
{
    let Some(session) = t.session() else {
        return CLOSED;
    };
    session.forget();
    0
}

/// Runs a command string as the run says: under its limit, until its stopper asks to stop. Typed bytes go to its room, and where too
/// little of that is left for a put the terminal fails, so that the string ends by TTY after whole steps.
///
/// The number of its code, or 0. The run tells how many bytes were typed, how many steps the string took, and where it stopped. It stopped
/// NOWHERE where it ended well or was not begun; and where memory lacks for the place, though the string was run.
#[unsafe(no_mangle)]
pub extern "C" fn teco_run(t: &mut Teco, text: &[u8], run: &mut Run) -> u8
    ensures open { SessionGoes t.old.value t.new.value
        (λ old new. TellsRun old text.now result run.old run.new new) }
    ensures within { run.new.made ≤ length run.new.room.now }
    ensures inside { (run.new.at ≡ NOWHERE) ⊎ (run.new.at ≤ length text.now) }
    ensures given { KeepsGiven run.old run.new }
    ensures closed { StaysClosed t.old.value result t.new.value }
    ensures nothing { t.old.value ≡ None → TellsNothing run.old run.new }
{
    let Some(session) = t.session() else {
        return run.on_none();
    };
    run.on(session, text)
}
