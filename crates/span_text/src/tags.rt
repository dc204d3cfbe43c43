ghost use Rattle.std.specs.Prelude.{◌≡◌, map, option_map};
ghost use Rattle.json.specs.Value.{value_view};
ghost use Rattle.span_text.specs.Tags.{full_text, tag_text, keyed_text, tag};

use crate::Member;
use crate::lookup::given;
use json::Value;

/// How the value of a tag is written.
#[derive(Clone, Copy, Debug, PartialEq, Eq)]
pub enum TagForm {
    /// As it is: Jaeger.
    Plain,
    /// In an object that names its kind: OpenTelemetry.
    Kinds,
}

/// Takes the text that a value is, where it is not empty.
fn full_text<'a>(value: &Value<'a>) -> Option<&'a str>
    ensures { option_map (λ s. s.now) result ≡ full_text (value_view value.now) }
{
    match value {
        Value::String(text) if !text.is_empty() => Some(*text),
        _ => None,
    }
}

/// Finds the text of a tag, where it has one that is not empty.
fn tag_text<'a>(form: TagForm, tag: &Value<'a>) -> Option<&'a str>
    ensures { option_map (λ s. s.now) result ≡ tag_text form (value_view tag.now) }
{
    let value = given(tag, Member::Value)?;
    match form {
        TagForm::Plain => full_text(value),
        TagForm::Kinds => full_text(given(value, Member::StringValue)?),
    }
}

/// Finds the text of a tag, where it has this key.
fn keyed_text<'a>(form: TagForm, key: &str, tag: &Value<'a>) -> Option<&'a str>
    ensures { option_map (λ s. s.now) result ≡ keyed_text form key.now (value_view tag.now) }
{
    if given(tag, Member::Key)?.as_str()? == key {
        tag_text(form, tag)
    } else {
        None
    }
}

/// Finds the text of the first tag with this key that has one that is not empty.
pub fn tag<'a>(form: TagForm, key: &str, tags: &[Value<'a>]) -> Option<&'a str>
    ensures { option_map (λ s. s.now) result ≡ tag form key.now (map value_view tags.now) }
{
    for tag in tags {
        if let Some(text) = keyed_text(form, key, tag) {
            return Some(text);
        }
    }
    None
}
