ghost use Rattle.std.specs.Prelude.{◌≡◌, ◌^◌, ◌<◌, length, sum};
ghost use Rattle.trace_rules.specs.Numbers.{AreFigures, IsGreatest, OrZero};

use trace_rules::Figures;

/// Adds numbers up, and finds the greatest; 0 where there is none.
pub(crate) fn sum_and_greatest(numbers: &[u64]) -> (u128, u64)
    requires { length numbers.now < 2 ^ 32 }
    ensures sum { result.0 ≡ sum numbers.now }
    ensures greatest { OrZero IsGreatest numbers.now result.1 }
{
    let mut sum = 0;
    let mut greatest = 0;
    'numbers: for number in numbers {
        sum += u128::from(*number);
        greatest = greatest.max(*number);
    }
    (sum, greatest)
}

/// Measures numbers, whose order it changes. It takes linear time on average.
pub(crate) fn measure(numbers: &mut [u64]) -> Figures
    requires { length numbers.old < 2 ^ 32 }
    ensures { AreFigures numbers.old result }
{
    let count = numbers.len();
    let (sum, greatest) = sum_and_greatest(numbers);
    if count == 0 {
        return Figures {
            count: 0,
            sum: 0,
            median: 0,
            greatest: 0,
        };
    }
    let (_low, median, _high) = numbers.select_nth_unstable((count - 1) / 2);
    Figures {
        count: count as u32,
        sum,
        median: *median,
        greatest,
    }
}
