ghost use Rattle.std.specs.Prelude.{◌≡◌, ◌≤◌, ◌<◌, ◌^◌, length, nat_lt, if◌then◌else◌, Some};
ghost use Rattle.std.specs.Prelude.{None, IsTrue};
ghost use Rattle.std.specs.List.{list_all};
ghost use Rattle.std.specs.Char.{is_ascii_digit, digit_value as digit_value_of};
ghost use Rattle.std.specs.Str.Parse.{digits_value};
ghost use Rattle.step_core.specs.Numbers.{is_mask_digit, mask_number, plain_number};
ghost use Rattle.step_core.specs.PlainDigits.{has_leading_zero, is_plain};

/// The greatest number of digits of a mask.
const MASK_DIGITS: usize = 16;

/// Tells whether all bytes are decimal digits.
fn are_digits(word: &[u8]) -> bool
    ensures { result ≡ list_all is_ascii_digit word.now }
{
    word.iter().all(|byte| byte.is_ascii_digit())
}

/// Tells whether a word of more than one byte begins with 0.
fn has_leading_zero(word: &[u8]) -> bool
    ensures { result ≡ has_leading_zero word.now }
{
    word.len() > 1 && word[0] == b'0'
}

/// Tells whether a word is plain digits: at least one, and no leading 0 except in 0 itself.
fn is_plain(word: &[u8]) -> bool
    ensures { result ≡ is_plain word.now }
{
    !word.is_empty() && !has_leading_zero(word) && are_digits(word)
}

/// Finds the value of decimal digits; none where it is over 32 bits.
fn value_of(digits: &[u8]) -> Option<u32>
    requires { IsTrue (list_all is_ascii_digit digits.now) }
    ensures { result ≡ (if nat_lt (digits_value 10 digits.now) (2 ^ 32)
        then Some (digits_value 10 digits.now) else None) }
{
    let mut value = 0u64;
    for digit in digits {
        value = value * 10 + u64::from(*digit - b'0');
        if value > u64::from(u32::MAX) {
            return None;
        }
    }
    Some(value as u32)
}

/// Reads a number in plain digits, without sign and without a leading 0 except in 0 itself; none
/// where the word has another form or the number is over 4,294,967,295.
#[tactic(auto, using(crate::proofs::PlainLemmas::not_plain, crate::proofs::PlainLemmas::plain_value))]
pub fn plain_number(word: &[u8]) -> Option<u32>
    ensures { result ≡ plain_number word.now }
{
    if !is_plain(word) {
        return None;
    }
    value_of(word)
}

/// Tells whether a byte is a lower-case hexadecimal digit.
fn is_mask_digit(byte: u8) -> bool
    ensures { result ≡ is_mask_digit byte }
{
    byte.is_ascii_digit() || (b'a' <= byte && byte <= b'f')
}

/// Tells whether all bytes are lower-case hexadecimal digits.
fn are_mask_digits(word: &[u8]) -> bool
    ensures { result ≡ list_all is_mask_digit word.now }
{
    word.iter().all(|byte| is_mask_digit(*byte))
}

/// Finds the value of a hexadecimal digit.
fn digit_value(digit: u8) -> u8
    requires { IsTrue (is_mask_digit digit) }
    ensures value { result ≡ digit_value_of digit }
    ensures low { result < 16 }
{
    if digit <= b'9' {
        digit - b'0'
    } else {
        digit - b'a' + 10
    }
}

/// Finds the value of at most 16 hexadecimal digits.
fn mask_value(digits: &[u8]) -> u64
    requires digits { IsTrue (list_all is_mask_digit digits.now) }
    requires few { length digits.now ≤ 16 }
    ensures { result ≡ digits_value 16 digits.now }
{
    let mut value = 0u64;
    for digit in digits {
        value = value * 16 + u64::from(digit_value(*digit));
    }
    value
}

/// Reads a mask, 1 to 16 lower-case hexadecimal digits; none where the word has another form.
pub(crate) fn mask_number(word: &[u8]) -> Option<u64>
    ensures { result ≡ mask_number word.now }
{
    if word.is_empty() || word.len() > MASK_DIGITS || !are_mask_digits(word) {
        return None;
    }
    Some(mask_value(word))
}
