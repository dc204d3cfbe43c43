ghost use Rattle.std.specs.Prelude.{◌≡◌, ◌≤◌, ◌<◌, ◌+◌, ◌^◌};
ghost use Rattle.picture_parts.specs.Places.{column_of, mean_of, part_of, place_of, span_of};
ghost use Rattle.picture_parts.specs.Places.{whole_of};

use crate::Span;

/// Finds where a number lies on a scale of so many steps that ends at `full`.
pub fn part_of(steps: u32, n: u128, full: u128) -> u32
    requires { n < 2 ^ 90 }
    ensures value { result ≡ part_of steps n full }
    ensures within { result ≤ steps }
{
    if full == 0 {
        return 0;
    }
    let steps = u128::from(steps);
    (n * steps / full).min(steps) as u32
}

/// Finds what a part is a share of: all, and at least the part.
pub fn whole_of(part: u128, all: u128) -> u128
    ensures { result ≡ whole_of part all }
{
    part.max(all)
}

/// Finds the place of a number on the width of a picture that ends at `full`.
pub fn place_of(n: u128, full: u128) -> u32
    requires { n < 2 ^ 90 }
    ensures value { result ≡ place_of n full }
    ensures within { result ≤ 100000 }
{
    part_of(100_000, n, full)
}

/// Finds the bar from one number to another on a width that ends at `full`.
pub fn span_of(from: u128, to: u128, full: u128) -> Span
    requires from { from < 2 ^ 90 }
    requires to { to < 2 ^ 90 }
    ensures { result ≡ span_of from to full }
{
    let x = place_of(from, full);
    Span {
        x,
        width: place_of(to, full).saturating_sub(x),
    }
}

/// Finds the column of one of so many, from 0, with a gap behind it.
pub fn column_of(count: usize, number: u128) -> Span
    requires { number < 2 ^ 80 }
    ensures { result ≡ column_of count number }
{
    let span = span_of(number, number + 1, count as u128);
    Span {
        x: span.x,
        width: span.width.saturating_sub(400),
    }
}

/// Finds the mean of a sum over so many, rounded down.
pub fn mean_of(sum: u128, count: u128) -> u128
    ensures value { result ≡ mean_of sum count }
    ensures most { result ≤ sum }
{
    if count == 0 { 0 } else { sum / count }
}
