ghost use Rattle.std.specs.Prelude.{◌≡◌, ◌↔◌, ◌∷◌, [], IsTrue, Contains, map, IfOk, OnOk, vec_len};
ghost use Rattle.std.specs.Prelude.{length, ◌≤◌};
ghost use Rattle.trace_types.specs.Listing.{ListsExactly};
ghost use Rattle.trace_types.specs.NameOrder.{name_cmp};
ghost use Rattle.trace_types.specs.Parts.{by_text, segments_of};
ghost use Rattle.trace_types.specs.Segments.{name_of};
ghost use Rattle.model_checks.specs.inner.Growing.{AddsDistinct};

use std::alloc::{AllocError, Global};
use trace_types::{NameText, Segment, Trace};

/// Tells whether the name has the lengths of the segment's three texts.
fn has_lengths_of(name: &NameText, segment: &Segment) -> bool
    ensures { name.now ≡ name_of segment.now → IsTrue result }
{
    name.task.as_str().len() == segment.task.as_str().len()
        && name.start.as_str().len() == segment.start_event.as_str().len()
        && name.end.as_str().len() == segment.end_event.as_str().len()
}

/// Tells whether the name is the segment's. Compares lengths first, so most names are told apart
/// without reading their bytes.
pub(crate) fn is_name_of(name: &NameText, segment: &Segment) -> bool
    ensures { IsTrue result ↔ (name.now ≡ name_of segment.now) }
{
    has_lengths_of(name, segment)
        && name.task == segment.task
        && name.start == segment.start_event
        && name.end == segment.end_event
}

/// Tells whether the segment's name is among the names.
fn is_known(names: &[NameText], segment: &Segment) -> bool
    ensures { IsTrue result ↔ Contains names.now (name_of segment.now) }
{
    for name in names {
        if is_name_of(name, segment) {
            return true;
        }
    }
    false
}

/// Copies the segment's name.
fn copy_name(alloc: Global, segment: &Segment) -> Result<NameText, AllocError>
    ensures { IfOk result (λ name. name ≡ name_of segment.now) }
{
    Ok(NameText {
        task: segment.task.copy(alloc)?,
        start: segment.start_event.copy(alloc)?,
        end: segment.end_event.copy(alloc)?,
    })
}

/// Adds the segment's name where it is new.
fn add_name(alloc: Global, names: &mut Vec<NameText>, segment: &Segment) -> Result<(), AllocError>
    ensures { OnOk result
        (AddsDistinct (name_of segment.now ∷ []) names.old.items names.new.items) }
{
    if !is_known(names, segment) {
        names.push(copy_name(alloc, segment)?)?;
    }
    Ok(())
}

/// Adds those names of a trace that are new.
fn add_names(alloc: Global, names: &mut Vec<NameText>, trace: &Trace) -> Result<(), AllocError>
    ensures { OnOk result
        (AddsDistinct (map name_of trace.now.segments) names.old.items names.new.items) }
{
    for segment in trace.segments.items() {
        add_name(alloc, names, segment)?;
    }
    Ok(())
}

/// Lists the names of the traces' segments, each once, in name order.
pub(crate) fn distinct_names(alloc: Global, traces: &[Trace]) -> Result<Vec<NameText>, AllocError>
    ensures lists { IfOk result (λ names. ListsExactly name_cmp
        (Contains (map name_of (segments_of by_text traces.now))) names.items) }
    ensures few { IfOk result (λ names. vec_len names ≤ length (segments_of by_text traces.now)) }
{
    let mut names = Vec::new(alloc);
    for trace in traces {
        add_names(alloc, &mut names, trace)?;
    }
    names.sort_unstable();
    Ok(names)
}
