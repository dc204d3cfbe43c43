ghost use Rattle.std.specs.Prelude.{◌≡◌, ◌↔◌, ℕ, Contains, IfOk, Some};
ghost use Rattle.shared_elements.specs.Elements.{AreElementsOf, Handles, IsElementOf};

use std::alloc::{AllocError, Global};
use trace_types::{NamedSegment, NamedTrace};

/// Gives the element that the task handles in a segment.
fn element_of(segment: &NamedSegment, task: u32) -> Option<u32>
    ensures { (e : ℕ) → (result ≡ Some e) ↔ Handles task e segment.now }
{
    if segment.task == task {
        segment.element
    } else {
        None
    }
}

/// Collects the elements that a task handles, one for each of its segments that has one.
fn collect_elements(alloc: Global, trace: &NamedTrace, task: u32) -> Result<Vec<u32>, AllocError>
    ensures { IfOk result (λ elements. (e : ℕ)
        → Contains elements.items e ↔ IsElementOf trace.now task e) }
{
    let segments = trace.segments.items();
    let mut elements = Vec::new(alloc);
    'segments: for index in 0..segments.len() {
        if let Some(element) = element_of(&segments[index], task) {
            elements.push(element)?;
        }
    }
    Ok(elements)
}

/// Lists the elements that a task handles in a trace, rising, each once. The only error is out of
/// memory.
pub fn list_elements(alloc: Global, trace: &NamedTrace, task: u32) -> Result<Vec<u32>, AllocError>
    ensures { IfOk result (λ elements. AreElementsOf trace.now task elements.items) }
{
    let mut elements = collect_elements(alloc, trace, task)?;
    elements.sort_unstable();
    elements.dedup();
    Ok(elements)
}
