//! The moves of a walk.
ghost use Rattle.std.specs.Prelude.{◌≡◌, ◌+◌, ◌-◌, min};

/// The step that is `n` steps on, within a limit.
pub fn ahead(steps: u64, n: u64, limit: u64) -> u64
    ensures { result ≡ min (steps + n) limit }
{
    if n > limit || steps > limit - n {
        return limit;
    }
    steps + n
}

/// The step that is `n` steps back; before the first one comes none.
pub fn behind(steps: u64, n: u64) -> u64
    ensures { result ≡ steps - n }
{
    steps.saturating_sub(n)
}
