//! What is watched, and the nearest step at which it differs from here.
ghost use Rattle.std.specs.Prelude.{◌≡◌, IfOk, Some, if◌then◌else◌};
ghost use Rattle.teco_debugger.specs.Walk.{SameString, base, meant};
ghost use Rattle.teco_core.specs.Register.{content};
ghost use Rattle.teco_debugger.specs.Watching.{IsFirstOther, IsLastOther, IsNearestOther, is_same, is_same_content};
ghost use Rattle.teco_store.specs.State.{state_of};

use crate::Walk;
use crate::listing::length_of;
use teco_core::{NoMemory, Reg, Registers};
use teco_exec::meaning_laws;
use teco_store::{Desk, Editor};

/// What is watched.
#[derive(Clone, Copy)]
pub enum Watch {
    /// What a register holds.
    Register(Reg),
    /// The pointer.
    Pointer,
    /// The length of the buffer.
    Length,
}

/// Which way to go over the steps.
#[derive(Clone, Copy)]
pub enum Way {
    On,
    Back,
}

/// Whether a register holds the same.
fn is_same_value(q: Reg, a: &Registers, b: &Registers) -> bool
    ensures { result ≡ is_same_content (content a.now q) (content b.now q) }
{
    a.number(q) == b.number(q) && a.text(q) == b.text(q)
}

/// Whether what is watched is the same in two states.
fn is_same(watch: &Watch, a: &Editor, b: &Editor) -> bool
    ensures { result ≡ is_same watch.now (state_of a.now) (state_of b.now) }
{
    match watch {
        Watch::Register(q) => is_same_value(*q, a.registers(), b.registers()),
        Watch::Pointer => a.pointer() == b.pointer(),
        Watch::Length => length_of(a.halves()) == length_of(b.halves()),
    }
}

/// This step, if it differs there; else what was found before.
fn or_found(same: bool, step: u64, found: Option<u64>) -> Option<u64>
    ensures { result ≡ if same then found else Some step }
{
    if same { found } else { Some(step) }
}

/// The first step after this one, up to the one at which the other walk stands, at which what is watched is not as it is here. The other
/// goes back over them.
fn first_other(walk: &Walk, watch: &Watch, other: &mut Walk) -> Result<Option<u64>, NoMemory>
    requires { SameString walk.now other.old }
    ensures { IfOk result (IsFirstOther watch.now walk.now walk.now.steps other.old.steps) }
{
    let here = walk.steps();
    let mut found = None;
    let mut left = other.steps();
    while left > here {
        other.go(left)?;
        let same = is_same(watch, walk.editor(), other.editor());
        found = or_found(same, left, found);
        left -= 1;
    }
    Ok(found)
}

/// The last step before this one at which what is watched is not as it is here. The other walk goes back over them.
fn last_other(walk: &Walk, watch: &Watch, other: &mut Walk) -> Result<Option<u64>, NoMemory>
    requires { SameString walk.now other.old }
    ensures { IfOk result (IsLastOther watch.now walk.now) }
{
    let mut left = walk.steps();
    while left > 0 {
        left -= 1;
        other.go(left)?;
        let same = is_same(watch, walk.editor(), other.editor());
        if !same {
            return Ok(Some(left));
        }
    }
    Ok(None)
}

/// Another walk over the same string, after its first `n` steps or all that it takes.
fn another(walk: &Walk, n: u64) -> Result<Walk, NoMemory>
    ensures string { IfOk result (SameString walk.now) }
    ensures steps { IfOk result (λ other. other.steps ≡ (meant (base walk.now) walk.now.text n).steps) }
{
    meaning_laws();
    let mut other = walk.anew()?;
    other.go(n)?;
    Ok(other)
}

/// The nearest step, on up to the limit or back, at which what is watched is not as it is here. Takes as much memory again as a walk to
/// the end does.
pub fn nearest_other(
    walk: &Walk,
    watch: &Watch,
    way: Way,
    limit: u64,
) -> Result<Option<u64>, NoMemory>
    ensures { IfOk result (IsNearestOther way watch.now walk.now limit) }
{
    match way {
        Way::On => {
            let mut other = another(walk, limit)?;
            first_other(walk, watch, &mut other)
        }
        Way::Back => {
            let mut other = walk.anew()?;
            last_other(walk, watch, &mut other)
        }
    }
}
