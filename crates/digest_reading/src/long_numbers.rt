ghost use Rattle.std.specs.Prelude.{◌≡◌, ◌<◌, ◌^◌, nat_lt, if◌then◌else◌, Some, None, IsTrue};
ghost use Rattle.std.specs.List.{list_all};
ghost use Rattle.std.specs.Char.{is_ascii_digit};
ghost use Rattle.std.specs.Str.Parse.{digits_value};
ghost use Rattle.step_core.specs.PlainDigits.{has_leading_zero, is_plain};
ghost use Rattle.digest_reading.specs.Headers.{long_number};

/// Tells whether all bytes are decimal digits.
fn are_digits(word: &[u8]) -> bool
    ensures { result ≡ list_all is_ascii_digit word.now }
{
    word.iter().all(|byte| byte.is_ascii_digit())
}

/// Tells whether a word of more than one byte begins with 0.
fn has_leading_zero(word: &[u8]) -> bool
    ensures { result ≡ has_leading_zero word.now }
{
    word.len() > 1 && word[0] == b'0'
}

/// Tells whether a word is plain digits: at least one, and no leading 0 except in 0 itself.
fn is_plain(word: &[u8]) -> bool
    ensures { result ≡ is_plain word.now }
{
    !word.is_empty() && !has_leading_zero(word) && are_digits(word)
}

/// Finds the value of decimal digits; none where it is over 64 bits.
fn value_of(digits: &[u8]) -> Option<u64>
    requires { IsTrue (list_all is_ascii_digit digits.now) }
    ensures { result ≡ (if nat_lt (digits_value 10 digits.now) (2 ^ 64)
        then Some (digits_value 10 digits.now) else None) }
{
    let mut value = 0u128;
    for digit in digits {
        value = value * 10 + u128::from(*digit - b'0');
        if value > u128::from(u64::MAX) {
            return None;
        }
    }
    Some(value as u64)
}

/// Reads a number in plain digits, without sign and without a leading 0 except in 0 itself; none
/// where the word has another form or the number is over 18,446,744,073,709,551,615.
#[tactic(auto, using(crate::proofs::LongLemmas::not_plain, crate::proofs::LongLemmas::plain_value))]
pub(crate) fn long_number(word: &[u8]) -> Option<u64>
    ensures { result ≡ long_number word.now }
{
    if !is_plain(word) {
        return None;
    }
    value_of(word)
}
