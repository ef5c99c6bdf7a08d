//! Command strings among commands.
ghost use Rattle.std.specs.Prelude.{◌≡◌, ◌+◌, ◌-◌, ◌≤◌, ◌<◌, [], ◌∷◌, length, take, drop, IfSome, IfNone};
ghost use Rattle.teco_lint.specs.Strings.{strings_of};

use teco_scan::pair_end;

/// The place at which the string ends that begins at a place: that of the second ESC of its pair. None if no pair comes.
pub fn string_end(commands: &[u8], from: usize) -> Option<usize>
    requires { from ≤ length commands.now }
    ensures inside { IfSome result (λ at. (from ≤ at) × (at < length commands.now)) }
    ensures cuts { IfSome result (λ at. strings_of (drop from commands.now)
        ≡ take (at - from) (drop from commands.now) ∷ strings_of (drop (at + 1) commands.now)) }
    ensures last { IfNone result (strings_of (drop from commands.now) ≡ drop from commands.now ∷ []) }
{
    match pair_end(&commands[from..], 0) {
        Some(at) => Some(from + at),
        None => None,
    }
}
