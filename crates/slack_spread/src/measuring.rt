ghost use Rattle.std.specs.Prelude.{◌≡◌, ◌^◌, ◌-◌, ◌*◌, ◌/◌, ◌<◌, ◌≤◌, count_by, length, nat_eq};
ghost use Rattle.std.specs.Prelude.{slice_index};
ghost use Rattle.slack_spread.specs.Spreads.{IsSpread};

use crate::Spread;

/// Counts the numbers that are 0.
fn count_zeros(numbers: &[u128]) -> u32
    requires { length numbers.now < 2 ^ 32 }
    ensures { result ≡ count_by (λ n. nat_eq n 0) numbers.now }
{
    let mut count = 0;
    'numbers: for number in numbers {
        if *number == 0 {
            count += 1;
        }
    }
    count
}

/// Takes the number so many tenths of the way along a list.
fn along(numbers: &[u128], tenths: usize) -> u128
    requires some { 0 < length numbers.now }
    requires few { length numbers.now < 2 ^ 32 }
    requires within { tenths ≤ 10 }
    ensures { result ≡ slice_index numbers.now ((length numbers.now - 1) * tenths / 10) }
{
    numbers[(numbers.len() - 1) * tenths / 10]
}

/// Measures how numbers are spread, and sorts them.
pub fn measure_spread(numbers: &mut [u128]) -> Spread
    requires { length numbers.old < 2 ^ 32 }
    ensures { IsSpread numbers.old result }
{
    if numbers.is_empty() {
        return Spread {
            count: 0,
            zero: 0,
            least: 0,
            tenth: 0,
            median: 0,
            ninetieth: 0,
            greatest: 0,
        };
    }
    let zero = count_zeros(numbers);
    numbers.sort_unstable();
    Spread {
        count: numbers.len() as u32,
        zero,
        least: along(numbers, 0),
        tenth: along(numbers, 1),
        median: along(numbers, 5),
        ninetieth: along(numbers, 9),
        greatest: along(numbers, 10),
    }
}
