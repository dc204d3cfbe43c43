ghost use Rattle.std.specs.Prelude.{◌≡◌, ◌≤◌, ◌<◌, ◌^◌, length, sum_by};
ghost use Rattle.room_picture.specs.Scales.{base_of, decade_part, room_place, room_span};
ghost use Rattle.room_picture.specs.Scales.{steps_to};

use picture_parts::{Span, part_of};

/// The powers of ten that begin a decade, in nanoseconds.
pub(crate) const DECADES: [u64; 11] = [
    1_000,
    10_000,
    100_000,
    1_000_000,
    10_000_000,
    100_000_000,
    1_000_000_000,
    10_000_000_000,
    100_000_000_000,
    1_000_000_000_000,
    10_000_000_000_000,
];

/// Finds how far a time reaches into the decade from a power of ten on, in thousandths of a step.
fn decade_part(n: u128, power: u64) -> u32
    requires { n < 2 ^ 80 }
    ensures value { result ≡ decade_part n power }
    ensures within { result ≤ 3000 }
{
    let power = u128::from(power);
    let first = part_of(1_000, n.saturating_sub(power), power);
    let second = part_of(1_000, n.saturating_sub(2 * power), 3 * power);
    let third = part_of(1_000, n.saturating_sub(5 * power), 5 * power);
    first + (second + third)
}

/// Adds up how far a time reaches into these decades.
fn add_decades(n: u128, powers: &[u64]) -> u32
    requires time { n < 2 ^ 80 }
    requires few { length powers.now ≤ 11 }
    ensures value { result ≡ sum_by (decade_part n) powers.now }
    ensures within { result ≤ 33000 }
{
    let mut steps = 0;
    'powers: for power in powers {
        steps += decade_part(n, *power);
    }
    steps
}

/// Finds how far a time reaches into all decades, in thousandths of a step.
pub(crate) fn steps_to(n: u128) -> u32
    requires { n < 2 ^ 80 }
    ensures value { result ≡ steps_to n }
    ensures within { result ≤ 33000 }
{
    add_decades(n, &DECADES)
}

/// Finds where a scale begins that has to show this time, in thousandths of a step.
pub(crate) fn base_of(least: u128) -> u32
    requires { least < 2 ^ 80 }
    ensures { result ≡ base_of least }
{
    steps_to(least) / 3_000 * 3_000
}

/// Finds the place of a time on the width of a picture that shows times from `least` to `full`, from
/// 2,000, where 0 stands, to 96,000.
#[tactic(auto, unfolding(crate::specs::Scales::room_place))]
pub fn room_place(least: u128, full: u128, n: u128) -> u32
    requires least { least < 2 ^ 80 }
    requires full { full < 2 ^ 80 }
    requires time { n < 2 ^ 80 }
    ensures value { result ≡ room_place least full n }
    ensures within { result ≤ 96000 }
{
    if n == 0 {
        return 2_000;
    }
    let base = base_of(least);
    let steps = u128::from(steps_to(n).saturating_sub(base));
    let all = u128::from(steps_to(full).saturating_sub(base));
    12_000 + part_of(84_000, steps, all)
}

/// Finds the bar from one time to another.
#[tactic(auto, unfolding(crate::specs::Scales::room_span))]
pub(crate) fn room_span(least: u128, full: u128, from: u128, to: u128) -> Span
    requires least { least < 2 ^ 80 }
    requires full { full < 2 ^ 80 }
    requires from { from < 2 ^ 80 }
    requires to { to < 2 ^ 80 }
    ensures { result ≡ room_span least full from to }
{
    let x = room_place(least, full, from);
    Span {
        x,
        width: room_place(least, full, to).saturating_sub(x),
    }
}
