ghost use Rattle.std.specs.Prelude.{◌≡◌, ◌&&◌, map, find, option_map};
ghost use Rattle.json.specs.Value.{value_view};
ghost use Rattle.span_text.specs.Outcomes.{Gives};
ghost use Rattle.jaeger_spans.specs.Parents.{is_same_id, is_of_trace, is_child, parent_reference};
ghost use Rattle.jaeger_spans.specs.Parents.{parent_of, parent_at};
ghost use Rattle.jaeger_spans.specs.inner.ParentViews.{parent_view};

use json::Value;
use span_text::{Member, ReadError, given, objects, required_id};
use std::alloc::Global;
use trace_types::Text;

/// The parent of a span.
#[derive(Debug, Drop)]
pub(crate) struct Parent {
    /// Its id.
    pub(crate) id: Text,
    /// The span follows from it, so that it does not wait.
    pub(crate) follows: bool,
}

/// Tells whether two ids are the same, whatever the case of their letters.
fn is_same_id(a: &str, b: &str) -> bool
    ensures { result ≡ is_same_id a.now b.now }
{
    a.eq_ignore_ascii_case(b)
}

/// Tells whether a reference is into this trace.
fn is_of_trace(trace: &str, reference: &Value<'_>) -> bool
    ensures { result ≡ is_of_trace trace.now (value_view reference.now) }
{
    match given(reference, Member::TraceIdOfJaeger) {
        Some(found) => match found.as_str() {
            Some(text) => is_same_id(text, trace),
            None => false,
        },
        None => false,
    }
}

/// Tells whether a reference is to a parent that waits for the span.
fn is_child(reference: &Value<'_>) -> bool
    ensures { result ≡ is_child (value_view reference.now) }
{
    match given(reference, Member::RefType) {
        Some(found) => match found.as_str() {
            Some(text) => text == "CHILD_OF",
            None => false,
        },
        None => false,
    }
}

/// Finds the first reference into this trace to a parent that waits.
fn find_child<'v, 'a>(trace: &str, references: &'v [Value<'a>]) -> Option<&'v Value<'a>>
    ensures { option_map (λ v. value_view v.now) result
        ≡ find (λ r. is_of_trace trace.now r && is_child r) (map value_view references.now) }
{
    for reference in references {
        if is_of_trace(trace, reference) && is_child(reference) {
            return Some(reference);
        }
    }
    None
}

/// Finds the first reference into this trace.
fn find_any<'v, 'a>(trace: &str, references: &'v [Value<'a>]) -> Option<&'v Value<'a>>
    ensures { option_map (λ v. value_view v.now) result
        ≡ find (is_of_trace trace.now) (map value_view references.now) }
{
    for reference in references {
        if is_of_trace(trace, reference) {
            return Some(reference);
        }
    }
    None
}

/// Finds the reference to the parent.
fn parent_reference<'v, 'a>(trace: &str, references: &'v [Value<'a>]) -> Option<&'v Value<'a>>
    ensures { option_map (λ v. value_view v.now) result
        ≡ parent_reference trace.now (map value_view references.now) }
{
    match find_child(trace, references) {
        Some(reference) => Some(reference),
        None => find_any(trace, references),
    }
}

/// Reads the parent that a reference is to.
#[tactic(auto, unfolding(crate::specs::Parents::parent_of))]
fn parent_of(alloc: Global, reference: &Value<'_>) -> Result<Option<Parent>, ReadError>
    ensures { Gives (option_map parent_view) result (parent_of (value_view reference.now)) }
{
    let id = required_id(alloc, reference, 1, 16, Member::SpanIdOfJaeger)?;
    let follows = !is_child(reference);
    Ok(Some(Parent { id, follows }))
}

/// Reads the parent of a span of this trace.
#[tactic(auto, unfolding(crate::specs::Parents::parent_at))]
pub(crate) fn read_parent(
    alloc: Global,
    trace: &str,
    span: &Value<'_>,
) -> Result<Option<Parent>, ReadError>
    ensures { Gives (option_map parent_view) result (parent_at trace.now (value_view span.now)) }
{
    let references = objects(span, Member::References)?;
    match parent_reference(trace, references) {
        Some(reference) => parent_of(alloc, reference),
        None => Ok(None),
    }
}
