ghost use Rattle.std.specs.Prelude.{◌≡◌, map, IfOk};
ghost use Rattle.std.specs.Char.{is_ascii_hexdigit, to_ascii_lowercase};
ghost use Rattle.std.specs.List.{list_all};
ghost use Rattle.json.specs.Value.{value_view};
ghost use Rattle.span_text.specs.Ids.{is_zero, is_id, id_of, required_id, optional_id};
ghost use Rattle.span_text.specs.Outcomes.{Gives};

use crate::lookup::{given, required_text};
use crate::{Member, ReadError, Why};
use json::Value;
use std::alloc::{AllocError, Global};
use trace_types::Text;

/// Tells whether all bytes are hexadecimal digits.
fn are_hexadecimal(bytes: &[u8]) -> bool
    ensures { result ≡ list_all is_ascii_hexdigit bytes.now }
{
    bytes.iter().all(|byte| byte.is_ascii_hexdigit())
}

/// Tells whether all bytes are the digit 0.
fn are_zeros(bytes: &[u8]) -> bool
    ensures { result ≡ list_all is_zero bytes.now }
{
    bytes.iter().all(|byte| *byte == b'0')
}

/// Tells whether a text is an id of so many digits.
fn is_id(text: &str, least: usize, most: usize) -> bool
    ensures { result ≡ is_id least most text.now }
{
    let bytes = text.as_bytes();
    least <= bytes.len() && bytes.len() <= most && are_hexadecimal(bytes) && !are_zeros(bytes)
}

/// Copies a text in lower case.
fn lower_case(alloc: Global, text: &str) -> Result<Text, AllocError>
    ensures { IfOk result (λ t. t ≡ map to_ascii_lowercase text.now) }
{
    let mut lower = String::from_str(alloc, text)?;
    lower.make_ascii_lowercase();
    Text::new(alloc, lower.as_str())
}

/// Takes an id of so many digits, the text of this member, in lower case.
fn id_of(
    alloc: Global,
    text: &str,
    least: usize,
    most: usize,
    member: Member,
) -> Result<Text, ReadError>
    ensures { Gives (λ t. t) result (id_of least most member text.now) }
{
    if !is_id(text, least, most) {
        return Err(ReadError::Refused(Why::Bad(member)));
    }
    Ok(lower_case(alloc, text)?)
}

/// Finds an id that must be there.
#[tactic(auto, unfolding(crate::specs::Ids::required_id))]
pub fn required_id(
    alloc: Global,
    value: &Value<'_>,
    least: usize,
    most: usize,
    member: Member,
) -> Result<Text, ReadError>
    ensures { Gives (λ t. t) result (required_id least most member (value_view value.now)) }
{
    let text = required_text(value, member)?;
    id_of(alloc, text, least, most, member)
}

/// Finds an id that may be absent; an empty text counts as absent.
pub fn optional_id(
    alloc: Global,
    value: &Value<'_>,
    least: usize,
    most: usize,
    member: Member,
) -> Result<Option<Text>, ReadError>
    ensures { Gives (λ t. t) result (optional_id least most member (value_view value.now)) }
{
    match given(value, member) {
        None => Ok(None),
        Some(found) => match found.as_str() {
            None => Err(ReadError::Refused(Why::Bad(member))),
            Some("") => Ok(None),
            Some(text) => Ok(Some(id_of(alloc, text, least, most, member)?)),
        },
    }
}
