ghost use Rattle.std.specs.Prelude.{◌≡◌, ◌&&◌, true, false, not, IfOk, IfErr, None, Some};
ghost use Rattle.std.specs.Prelude.{option_map, option_and_then};
ghost use Rattle.serde_json.specs.Find.{get, as_str, as_number, as_u64};
ghost use Rattle.serde_json.specs.View.{view};
ghost use Rattle.event_lines.specs.Members.{text_at, is_given, is_text_at, is_whole_number};

use crate::Why;
use serde_json::Value;

/// Finds a required member.
pub(crate) fn member<'v>(value: &'v Value, name: &str) -> Result<&'v Value, Why>
    ensures found { IfOk result (λ m. get name.now (view value.now) ≡ Some (view m.now)) }
    ensures missing { IfErr result (λ why.
        (get name.now (view value.now) ≡ None) × (why ≡ Why.Missing)) }
{
    value.get(name).ok_or(Why::Missing)
}

/// Takes a member that must be a text.
pub(crate) fn as_text(member: &Value) -> Result<&str, Why>
    ensures found { IfOk result (λ s. as_str (view member.now) ≡ Some s.now) }
    ensures none { IfErr result (λ why.
        (as_str (view member.now) ≡ None) × (why ≡ Why.WrongKind)) }
{
    member.as_str().ok_or(Why::WrongKind)
}

/// Finds an optional text; null counts as absent.
pub(crate) fn optional_text<'v>(value: &'v Value, name: &str) -> Result<Option<&'v str>, Why>
    ensures found { IfOk result (λ s.
        (is_given name.now (view value.now) && not (is_text_at name.now (view value.now)) ≡ false)
        × (text_at name.now (view value.now) ≡ option_map (λ t. t.now) s)) }
    ensures none { IfErr result (λ why.
        (is_given name.now (view value.now) && not (is_text_at name.now (view value.now)) ≡ true)
        × (why ≡ Why.WrongKind)) }
{
    match value.get(name) {
        None | Some(Value::Null) => Ok(None),
        Some(member) => Ok(Some(as_text(member)?)),
    }
}

/// Takes a member that must be a whole number; none where it is below 0.
pub(crate) fn as_whole_number(member: &Value) -> Result<Option<u64>, Why>
    ensures found { IfOk result (λ n. (is_whole_number (view member.now) ≡ true)
        × (n ≡ option_and_then as_u64 (as_number (view member.now)))) }
    ensures none { IfErr result (λ why.
        (is_whole_number (view member.now) ≡ false) × (why ≡ Why.WrongKind)) }
{
    match member.as_u64() {
        Some(number) => Ok(Some(number)),
        None if member.as_i64().is_some() => Ok(None),
        None => Err(Why::WrongKind),
    }
}
