ghost use Rattle.std.specs.Prelude.{◌≡◌, ◌≤◌, IfSome};
ghost use Rattle.mystery_run.specs.CommandLines.{number_between};

use step_core::plain_number;

/// Reads a number from `low` to `high`, both included, in plain digits.
pub(crate) fn number_between(low: u32, high: u32, word: &str) -> Option<u32>
    ensures read { result ≡ number_between low high word.now }
    ensures low { IfSome result (λ n. low ≤ n) }
    ensures high { IfSome result (λ n. n ≤ high) }
{
    match plain_number(word.as_bytes()) {
        Some(number) if low <= number && number <= high => Some(number),
        _ => None,
    }
}
