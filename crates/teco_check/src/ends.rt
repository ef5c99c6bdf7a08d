//! Where a list ends.
ghost use Rattle.teco_core.specs.declared.profile.Profile.{Profile};
ghost use Rattle.std.specs.Prelude.{◌≡◌, ◌≢◌, ◌≤◌, ℕ, true, false, Bool, List, length, drop, IfOk, IfErr, Option, Some, None, Ok, is_ok};
ghost use Rattle.teco_core.specs.declared.code.Code.{Code};
ghost use Rattle.teco_scan.specs.Scan.{ended};
ghost use Rattle.teco_scan.specs.Tree.{Nodes};
ghost use Rattle.teco_scan.specs.Closes.{close_of};
ghost use Rattle.teco_scan.specs.Lists.{at_mark, at_scan, broken, list_at};
ghost use Rattle.teco_check.specs.Clean.{is_clean};
ghost use Rattle.teco_check.specs.Checked.{is_stray, code_of};
ghost use Rattle.teco_scan.specs.Walk.{OpenList, at_end};
ghost use Rattle.teco_scan.specs.Walk as walked;
ghost use Rattle.teco_check.specs.Walk.{CodeRule, by_check, opened_at, check_walk};
ghost use Rattle.teco_check.specs.Walked.{after_list};

use crate::faults::{Fault, Wrong};
use teco_core::Code;
use teco_scan::{BlockMark, Kind, SkipEnd};

/// The place at which the innermost list was opened, if it is a block's.
fn opened_at(kind: Option<Kind>, opening: usize) -> Option<usize>
    ensures { result ≡ opened_at kind opening }
{
    match kind {
        Some(_) => Some(opening),
        None => None,
    }
}

/// What a closing mark does to the innermost list, where the mark ends at this place.
#[tactic(auto, unfolding(crate::specs::Clean::is_clean))]
pub fn end_of_list(
    kind: Option<Kind>,
    opening: usize,
    mark: BlockMark,
    from: usize,
    to: usize,
) -> Result<SkipEnd, Fault>
    requires { mark ≢ BlockMark.Iterate }
    ensures clean { (p : Profile) (text : List ℕ) (d : ℕ) (code : ℕ → Bool) (may : List ℕ → Bool) (lists : List Nodes)
        → is_clean code may lists (at_mark (list_at p) mark (drop to text) kind d).0 ≡ is_ok result }
    ensures closes { (p : Profile) (text : List ℕ) (d : ℕ)
        → IfOk result (λ stop. (at_mark (list_at p) mark (drop to text) kind d).1 ≡ close_of text (Ok stop)) }
    ensures first { (p : Profile) (code : CodeRule) (text : List ℕ) (start : ℕ) (os : List OpenList) → to ≤ length text
        → walked.at_mark (by_check p code text) (check_walk p code text) text mark kind from (record { kind = kind; opening = opening; start = start }) os (drop to text)
        ≡ after_list p code text kind opening os result }
    ensures place { IfOk result (λ stop. stop.to ≡ to) }
    ensures stray { IfErr result (λ fault. (fault.at ≡ from) × (is_stray fault.wrong ≡ true)) }
    ensures breaks { (p : Profile) (text : List ℕ) (d : ℕ) (code : Code)
        → IfErr result (λ fault. code_of fault.wrong ≡ Some code → (at_mark (list_at p) mark (drop to text) kind d).1 ≡ broken code) }
{
    let innermost = opened_at(kind, opening);
    let whole = SkipEnd { to, divided: false };
    match (mark, kind) {
        (BlockMark::EndIteration, Some(Kind::Iter)) => Ok(whole),
        (BlockMark::EndIteration, _) => Err(Fault {
            at: from,
            wrong: Wrong::Stray(Code::Bni, innermost),
        }),
        (BlockMark::Otherwise, Some(Kind::Then)) => Ok(SkipEnd { to, divided: true }),
        (BlockMark::EndTest, Some(Kind::Then)) => Ok(whole),
        (BlockMark::EndTest, Some(Kind::Else)) => Ok(whole),
        _ => Err(Fault {
            at: from,
            wrong: Wrong::Stray(Code::Ill, innermost),
        }),
    }
}

/// The end of the text ends the text's own list; inside a block it is a fault of the block that is opened at this place.
#[tactic(auto, unfolding(crate::specs::Clean::is_clean))]
pub fn end_of_text(kind: Option<Kind>, opening: usize, to: usize) -> Result<SkipEnd, Fault>
    ensures clean { (p : Profile) (d : ℕ) (code : ℕ → Bool) (may : List ℕ → Bool) (lists : List Nodes)
        → is_clean code may lists (at_scan (list_at p) ended kind d).0 ≡ is_ok result }
    ensures first { (p : Profile) (code : CodeRule) (text : List ℕ) (at start : ℕ) (os : List OpenList)
        → at_end (by_check p code text) kind at (record { kind = kind; opening = opening; start = start })
        ≡ after_list p code text kind opening os result }
    ensures text { is_ok result ≡ true → kind ≡ None }
    ensures place { IfOk result (λ stop. stop.to ≡ to) }
    ensures unended { IfErr result (λ fault. (fault.at ≡ opening) × (fault.wrong ≡ Wrong.Unended)) }
    ensures inside { is_ok result ≡ false → kind ≢ None }
    ensures breaks { (p : Profile) (d : ℕ) (code : Code)
        → IfErr result (λ fault. code_of fault.wrong ≡ Some code → (at_scan (list_at p) ended kind d).1 ≡ broken code) }
{
    match kind {
        None => Ok(SkipEnd { to, divided: false }),
        Some(_) => Err(Fault {
            at: opening,
            wrong: Wrong::Unended,
        }),
    }
}
