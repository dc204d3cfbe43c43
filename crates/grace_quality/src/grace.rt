ghost use Rattle.std.specs.Prelude.{◌≤ℤ◌, ◌<ℤ◌, neg_ℤ, pos};
ghost use Rattle.grace_quality.specs.Graces.{IsLeastGrace};

/// Gives the least grace, in microseconds, under which a gap refutes nothing, of a gap that is less
/// than a millisecond below none. The gap is in nanoseconds.
pub fn least_grace(gap: i128) -> u32
    requires { neg_ℤ (pos 1000000) <ℤ gap }
    ensures { IsLeastGrace gap result }
{
    if gap >= 0 {
        return 0;
    }
    let below = (-gap) as u32;
    (below + 999) / 1000
}
