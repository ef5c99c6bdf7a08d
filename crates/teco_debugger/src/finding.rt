//! Who changed a part of the state last.
ghost use Rattle.std.specs.Prelude.{◌≡◌};
ghost use Rattle.teco_debugger.specs.Finding.{is_for, last_change};

use crate::Part;
use teco_session::Changes;
use teco_store::ChangeKind;

/// Whether a change of this kind is for the part.
pub fn is_for(part: &Part, kind: ChangeKind) -> bool
    ensures { result ≡ is_for part.now kind }
{
    match (part, kind) {
        (Part::Buffer, ChangeKind::Splice { .. }) => true,
        (Part::Register(q), ChangeKind::Number(r) | ChangeKind::Text(r) | ChangeKind::Pop(r)) => {
            r.index() == q.index()
        }
        _ => false,
    }
}

/// The steps that were done before the last of the changes that is for the part, where one is.
pub fn last_change(part: &Part, changes: &Changes) -> Option<u64>
    ensures { result ≡ last_change part.now changes.now }
{
    // A loop, since the changes are read by their places, from the last one on.
    let mut left = changes.len();
    while left > 0 {
        left -= 1;
        if is_for(part, changes.kind(left)) {
            return Some(changes.step(left));
        }
    }
    None
}
