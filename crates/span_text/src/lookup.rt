ghost use Rattle.std.specs.Prelude.{◌≡◌, [], map, option_map};
ghost use Rattle.std.specs.List.{list_all};
ghost use Rattle.json.specs.Find.{as_array};
ghost use Rattle.json.specs.Value.{value_view, items_view};
ghost use Rattle.span_text.specs.Members.{given, required, text_of, required_text, is_object};
ghost use Rattle.span_text.specs.Members.{optional_object};
ghost use Rattle.span_text.specs.Members.{list_of, objects_of, objects, unless_empty, optional_text};
ghost use Rattle.span_text.specs.Outcomes.{Gives};

use crate::{Member, ReadError, Why};
use json::Value;

/// Finds the value of a member. Null counts as absent.
pub fn given<'v, 'a>(value: &'v Value<'a>, member: Member) -> Option<&'v Value<'a>>
    ensures { option_map (λ v. value_view v.now) result ≡ given member (value_view value.now) }
{
    match value.get(member.name()) {
        Some(found) if !found.is_null() => Some(found),
        _ => None,
    }
}

/// Finds the value of a member that must be there.
pub fn required<'v, 'a>(value: &'v Value<'a>, member: Member) -> Result<&'v Value<'a>, ReadError>
    ensures { Gives (λ v. value_view v.now) result (required member (value_view value.now)) }
{
    match given(value, member) {
        Some(found) => Ok(found),
        None => Err(ReadError::Refused(Why::Missing(member))),
    }
}

/// Takes the text that the value of a member is.
fn text_of<'v, 'a>(value: &'v Value<'a>, member: Member) -> Result<&'v str, ReadError>
    ensures { Gives (λ s. s.now) result (text_of member (value_view value.now)) }
{
    match value.as_str() {
        Some(text) => Ok(text),
        None => Err(ReadError::Refused(Why::Bad(member))),
    }
}

/// Finds the text of a member that must be there.
#[tactic(auto, unfolding(crate::specs::Members::required_text))]
pub fn required_text<'v, 'a>(value: &'v Value<'a>, member: Member) -> Result<&'v str, ReadError>
    ensures { Gives (λ s. s.now) result (required_text member (value_view value.now)) }
{
    let found = required(value, member)?;
    text_of(found, member)
}

/// Gives a text that is not empty.
fn unless_empty(text: &str) -> Option<&str>
    ensures { option_map (λ s. s.now) result ≡ unless_empty text.now }
{
    if text.is_empty() { None } else { Some(text) }
}

/// Finds the text of a member; none where it is absent or empty.
pub fn optional_text<'v, 'a>(
    value: &'v Value<'a>,
    member: Member,
) -> Result<Option<&'v str>, ReadError>
    ensures { Gives (option_map (λ s. s.now)) result (optional_text member (value_view value.now)) }
{
    match given(value, member) {
        None => Ok(None),
        Some(found) => {
            let text = text_of(found, member)?;
            Ok(unless_empty(text))
        }
    }
}

/// Tells whether a value is an object.
pub fn is_object(value: &Value<'_>) -> bool
    ensures { result ≡ is_object (value_view value.now) }
{
    matches!(value, Value::Object(_))
}

/// Finds the object that the value of a member is; none where it is absent.
pub fn optional_object<'v, 'a>(
    value: &'v Value<'a>,
    member: Member,
) -> Result<Option<&'v Value<'a>>, ReadError>
    ensures { Gives (option_map (λ v. value_view v.now)) result
        (optional_object member (value_view value.now)) }
{
    match given(value, member) {
        Some(found) if !is_object(found) => Err(ReadError::Refused(Why::Bad(member))),
        found => Ok(found),
    }
}

/// Tells whether all values are objects.
fn are_objects(values: &[Value<'_>]) -> bool
    ensures { result ≡ list_all is_object (map value_view values.now) }
{
    for value in values {
        if !is_object(value) {
            return false;
        }
    }
    true
}

/// Takes the items of an array.
fn items_of<'v, 'a>(value: &'v Value<'a>) -> Option<&'v Vec<Value<'a>>>
    ensures { option_map (λ v. items_view v.now.items) result ≡ as_array (value_view value.now) }
{
    if let Value::Array(items) = value {
        Some(items)
    } else {
        None
    }
}

/// Takes the items of an array, as a slice.
#[tactic(auto, using(crate::proofs::ListLemmas::listed))]
pub fn list_items<'v, 'a>(value: &'v Value<'a>) -> Option<&'v [Value<'a>]>
    ensures { option_map (λ s. map value_view s.now) result
        ≡ option_map list_of (as_array (value_view value.now)) }
{
    match items_of(value) {
        Some(items) => Some(items.as_slice()),
        None => None,
    }
}

/// Takes the objects that the value of a member is a list of.
#[tactic(auto, using(crate::proofs::ListLemmas::listed))]
pub fn objects_of<'v, 'a>(
    value: &'v Value<'a>,
    member: Member,
) -> Result<&'v [Value<'a>], ReadError>
    ensures { Gives (λ s. map value_view s.now) result (objects_of member (value_view value.now)) }
{
    match items_of(value) {
        Some(items) if are_objects(items) => Ok(items.as_slice()),
        _ => Err(ReadError::Refused(Why::Bad(member))),
    }
}

/// Gives no items.
pub fn no_items<'v, 'a>(_value: &'v Value<'a>) -> &'v [Value<'a>]
    ensures { result.now ≡ [] }
{
    &[]
}

/// Finds the objects that the value of a member is a list of; none where it is absent.
pub fn objects<'v, 'a>(value: &'v Value<'a>, member: Member) -> Result<&'v [Value<'a>], ReadError>
    ensures { Gives (λ s. map value_view s.now) result (objects member (value_view value.now)) }
{
    match given(value, member) {
        None => Ok(no_items(value)),
        Some(found) => objects_of(found, member),
    }
}
