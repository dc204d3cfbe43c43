ghost use Rattle.std.specs.Prelude.{◌≡◌};
ghost use Rattle.std.specs.Char.{is_ascii_digit};
ghost use Rattle.std.specs.List.{list_all};
ghost use Rattle.json.specs.Value.{value_view};
ghost use Rattle.span_text.specs.Numbers.{is_decimal, whole_number, whole_value};
ghost use Rattle.span_text.specs.Numbers.{required_whole, optional_whole};
ghost use Rattle.span_text.specs.Outcomes.{Gives};

use crate::lookup::{given, required};
use crate::{Member, ReadError, Why};
use json::Value;

/// Tells whether all bytes are decimal digits.
fn are_digits(bytes: &[u8]) -> bool
    ensures { result ≡ list_all is_ascii_digit bytes.now }
{
    bytes.iter().all(|byte| byte.is_ascii_digit())
}

/// Tells whether bytes are decimal digits, at least one.
fn is_decimal(bytes: &[u8]) -> bool
    ensures { result ≡ is_decimal bytes.now }
{
    !bytes.is_empty() && are_digits(bytes)
}

/// Reads a text of decimal digits alone; none where the number does not fit 64 bits.
pub fn whole_number(text: &str) -> Option<u64>
    ensures { result ≡ whole_number text.now }
{
    if !is_decimal(text.as_bytes()) {
        return None;
    }
    text.parse::<u64>().ok()
}

/// Takes the whole number that a value is, as a number or as a text of its digits.
pub fn whole_value(value: &Value<'_>) -> Option<u64>
    ensures { result ≡ whole_value (value_view value.now) }
{
    match value {
        Value::Number(text) => whole_number(*text),
        Value::String(text) => whole_number(*text),
        _ => None,
    }
}

/// Finds a whole number that must be there.
pub fn required_whole(value: &Value<'_>, member: Member) -> Result<u64, ReadError>
    ensures { Gives (λ n. n) result (required_whole member (value_view value.now)) }
{
    match whole_value(required(value, member)?) {
        Some(number) => Ok(number),
        None => Err(ReadError::Refused(Why::Bad(member))),
    }
}

/// Finds a whole number that may be absent, and is 0 then.
pub fn optional_whole(value: &Value<'_>, member: Member) -> Result<u64, ReadError>
    ensures { Gives (λ n. n) result (optional_whole member (value_view value.now)) }
{
    match given(value, member) {
        None => Ok(0),
        Some(found) => match whole_value(found) {
            Some(number) => Ok(number),
            None => Err(ReadError::Refused(Why::Bad(member))),
        },
    }
}
