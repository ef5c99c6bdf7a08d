//! Lists of remarks, in the order of their places.
ghost use Rattle.std.specs.Prelude.{◌≡◌, true, Bool, IfOk, OnOk};
ghost use Rattle.std.specs.List.{list_any};
ghost use Rattle.teco_lint.specs.Told.{IsTold};

use crate::remarks::{Remark, What};
use teco_core::NoMemory;

/// The most remarks that are told.
pub(crate) const MOST_REMARKS: usize = 1000;

/// Puts the remark at the end, unless too many are there.
fn push_remark(remarks: &mut Vec<Remark>, remark: Remark) -> Result<(), NoMemory>
    ensures kept { (test : Remark → Bool) → IsTold test remarks.old.items → OnOk result (IsTold test remarks.new.items) }
    ensures told { (test : Remark → Bool) → test remark ≡ true → OnOk result (IsTold test remarks.new.items) }
{
    let mut told = remark;
    if remarks.len() > MOST_REMARKS {
        return Ok(());
    }
    if remarks.len() == MOST_REMARKS {
        told.what = What::More;
    }
    remarks.push(told)?;
    Ok(())
}

/// Puts the hints from one on at the end, as far as they are before a place. Gives the number of the next one.
fn push_before(
    remarks: &mut Vec<Remark>,
    hints: &[Remark],
    from: usize,
    place: usize,
) -> Result<usize, NoMemory>
    ensures kept { (test : Remark → Bool) → IsTold test remarks.old.items → IfOk result (λ _. IsTold test remarks.new.items) }
{
    let mut next = from;
    while next < hints.len() && hints[next].at < place {
        push_remark(remarks, hints[next])?;
        next += 1;
    }
    Ok(next)
}

/// Puts two lists of remarks at the end, in the order of their places.
pub(crate) fn push_both(
    remarks: &mut Vec<Remark>,
    faults: &[Remark],
    hints: &[Remark],
) -> Result<(), NoMemory>
    ensures kept { (test : Remark → Bool) → IsTold test remarks.old.items → OnOk result (IsTold test remarks.new.items) }
    ensures told { (test : Remark → Bool) → list_any test faults.now ≡ true → OnOk result (IsTold test remarks.new.items) }
{
    let mut next = 0;
    for fault in faults {
        next = push_before(remarks, hints, next, fault.at)?;
        push_remark(remarks, *fault)?;
    }
    push_before(remarks, hints, next, usize::MAX)?;
    Ok(())
}
