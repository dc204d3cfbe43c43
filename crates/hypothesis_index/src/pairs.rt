ghost use Rattle.std.specs.Prelude.{◌≡◌, ◌<◌, ◌≤◌};
ghost use Rattle.hypothesis_index.specs.Places.{pair_number, pairs_below};

/// Counts the pairs of different numbers below this one.
pub(crate) fn count_pairs(numbers: u32) -> u32
    requires { numbers ≤ 512 }
    ensures { result ≡ pairs_below numbers }
{
    if numbers == 0 {
        0
    } else {
        numbers * (numbers - 1) / 2
    }
}

/// Gives the pair that has this number, the lesser first.
pub(crate) fn unpair(number: u32) -> (u32, u32)
    requires { number < 130816 }
    ensures rises { result.0 < result.1 }
    ensures same { pair_number result.0 result.1 ≡ number }
{
    let mut high = 1;
    let mut rest = number;
    while rest >= high {
        rest -= high;
        high += 1;
    }
    (rest, high)
}
