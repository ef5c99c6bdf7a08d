//! The calls that give the first fault of a text.
ghost use Rattle.std.specs.Prelude.{◌≡◌, suc, true, List, drop, IfSome, Some, None, is_none};
ghost use Rattle.teco_core.specs.declared.code.Code.{Code};
ghost use Rattle.teco_scan.specs.Lists.{broken, list_at};
ghost use Rattle.teco_check.specs.Clean.{clean_within, IsClean};
ghost use Rattle.teco_check.specs.Walk.{first_within, first_of};
ghost use Rattle.teco_check.specs.Checked.{held, IsFaultHere, code_of};

use crate::faults::{Fault, MOST_TEXTS, REGISTERS, check_text};
use std::alloc::Global;
use teco_core::Profile;

/// The first fault of a text in a profile, if it has one, where these registers hold code. It takes no memory.
///
/// So many texts in one another are looked into; one that is deeper is taken for one with a fault.
pub fn first_fault_within(
    profile: Profile,
    text: &[u8],
    code: &[bool; REGISTERS],
    texts: usize,
) -> Option<Fault>
    ensures first { result ≡ first_within profile texts code.now text.now }
    ensures clean { is_none result ≡ clean_within profile (suc texts) (held code.now) text.now }
    ensures place { IfSome result (λ fault. IsFaultHere profile (drop fault.at text.now) fault.wrong) }
    ensures breaks { (code : Code)
        → IfSome result (λ fault. code_of fault.wrong ≡ Some code → (list_at profile None 0 text.now).1 ≡ broken code) }
{
    check_text(profile, text, code, texts, None)
}

/// The same, where memory is taken for the tags that jumps look for, so that a text of many jumps takes no longer than others of its
/// length. Where memory is refused, each jump searches for its tag.
pub fn first_fault_by_tags(
    alloc: Global,
    profile: Profile,
    text: &[u8],
    code: &[bool; REGISTERS],
    texts: usize,
) -> Option<Fault>
    ensures first { result ≡ first_within profile texts code.now text.now }
    ensures clean { is_none result ≡ clean_within profile (suc texts) (held code.now) text.now }
    ensures place { IfSome result (λ fault. IsFaultHere profile (drop fault.at text.now) fault.wrong) }
    ensures breaks { (code : Code)
        → IfSome result (λ fault. code_of fault.wrong ≡ Some code → (list_at profile None 0 text.now).1 ≡ broken code) }
{
    check_text(profile, text, code, texts, Some(alloc))
}

/// The same without memory, where `MOST_TEXTS` texts in one another are looked into.
///
/// Without a fault a text is clean: no run of it ends by a fault of its own, nor by a jump to nowhere.
pub fn first_fault(profile: Profile, text: &[u8], code: &[bool; REGISTERS]) -> Option<Fault>
    ensures first { result ≡ first_of profile code.now text.now }
    ensures exact { is_none result ≡ clean_within profile (suc MOST_TEXTS) (held code.now) text.now }
    ensures clean { is_none result ≡ true → IsClean profile (held code.now) text.now }
    ensures place { IfSome result (λ fault. IsFaultHere profile (drop fault.at text.now) fault.wrong) }
    ensures breaks { (code : Code)
        → IfSome result (λ fault. code_of fault.wrong ≡ Some code → (list_at profile None 0 text.now).1 ≡ broken code) }
{
    first_fault_within(profile, text, code, MOST_TEXTS)
}
