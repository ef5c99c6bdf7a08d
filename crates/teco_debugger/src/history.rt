//! The changes of a register, the last first.
ghost use Rattle.std.specs.List.{flat_map};
ghost use Rattle.std.specs.Prelude.{◌≡◌, ◌++◌, IfOk, OnOk};
ghost use Rattle.std.specs.String.{string_bytes};
ghost use Rattle.teco_debugger.specs.History.{change_shown, change_steps, changes_shown, earlier_shown, history_of_register};
ghost use Rattle.teco_debugger.specs.Walk.{SameString};

use crate::finding::is_for;
use crate::listing::{MOST_SHOWN, show_value};
use crate::moving::ahead;
use crate::{Part, Walk};
use std::alloc::Global;
use std::fmt::Write;
use teco_core::{NoMemory, Reg};
use teco_session::Changes;
use teco_store::Desk;

/// The most changes that are shown.
const MOST_CHANGES: usize = 100;

/// The steps that were done before each of the changes that is for a part, the last first.
fn change_steps(alloc: Global, part: &Part, changes: &Changes) -> Result<Vec<u64>, NoMemory>
    ensures { IfOk result (λ steps. steps.items ≡ change_steps part.now changes.now) }
{
    let mut steps = Vec::new(alloc);
    // A loop, since the changes are read by their places, from the last one on.
    let mut left = changes.len();
    while left > 0 {
        left -= 1;
        if is_for(part, changes.kind(left)) {
            steps.push(changes.step(left))?;
        }
    }
    Ok(steps)
}

/// The same of the changes up to where a walk stands.
fn steps_there(walk: &Walk, part: &Part) -> Result<Vec<u64>, NoMemory>
    ensures { IfOk result (λ steps. steps.items ≡ change_steps part.now walk.now.changes) }
{
    match walk.changes() {
        None => Ok(Vec::new(walk.alloc())),
        Some(changes) => change_steps(walk.alloc(), part, changes),
    }
}

/// Shows what a register held after a change that was made after `n` steps. The other walk goes there.
#[tactic(auto, unfolding(crate::specs::History::change_shown))]
fn show_change(
    out: &mut String,
    walk: &Walk,
    other: &mut Walk,
    q: Reg,
    n: u64,
) -> Result<(), NoMemory>
    requires { SameString walk.now other.old }
    ensures shown { OnOk result (string_bytes out.new ≡ string_bytes out.old ++ change_shown walk.now q n) }
    ensures same { SameString walk.now other.new }
{
    other.go(ahead(n, 1, walk.steps()))?;
    write!(out, "step {n}, ")?;
    show_value(out, other.editor().registers(), q, MOST_SHOWN)
}

/// Shows the changes that were made after so many steps each.
fn show_changes(out: &mut String, walk: &Walk, q: Reg, steps: &[u64]) -> Result<(), NoMemory>
    ensures { OnOk result (string_bytes out.new ≡ string_bytes out.old ++ flat_map (change_shown walk.now q) steps.now) }
{
    let mut other = walk.anew()?;
    for n in steps {
        show_change(out, walk, &mut other, q, *n)?;
    }
    Ok(())
}

/// Shows how many changes come before those that are shown, where any do.
fn show_earlier(out: &mut String, n: usize) -> Result<(), NoMemory>
    ensures { OnOk result (string_bytes out.new ≡ string_bytes out.old ++ earlier_shown n) }
{
    if n == 0 {
        return Ok(());
    }
    writeln!(out, "and {n} before these")
}

/// Shows the last of the changes that were made after so many steps each, and how many more there are.
fn show_listed(out: &mut String, walk: &Walk, q: Reg, steps: &[u64]) -> Result<(), NoMemory>
    ensures { OnOk result (string_bytes out.new ≡ string_bytes out.old ++ changes_shown walk.now q steps.now) }
{
    let most = steps.len().min(MOST_CHANGES);
    show_changes(out, walk, q, &steps[..most])?;
    show_earlier(out, steps.len() - most)
}

/// Shows the changes of a register up to where a walk stands, the last first. The last 100 are shown, and how many more there are.
pub fn show_history(out: &mut String, walk: &Walk, q: Reg) -> Result<(), NoMemory>
    ensures { OnOk result (string_bytes out.new ≡ string_bytes out.old ++ history_of_register walk.now q) }
{
    let steps = steps_there(walk, &Part::Register(q))?;
    if steps.is_empty() {
        return out.push_str("no step before this one changed it\n");
    }
    show_listed(out, walk, q, steps.as_slice())
}
