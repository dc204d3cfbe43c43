ghost use Rattle.std.specs.Prelude.{◌≡◌, ◌↔◌, ◌⊎◌, ◌<◌, ℕ, All, Contains, IfOk, Some, length, map, slice_get, true};
ghost use Rattle.std.specs.Borrow.{Bor};
ghost use Rattle.std.specs.List.{flat_map};
ghost use Rattle.refute_tests.specs.Clearing.{HaveNamesBelow};
ghost use Rattle.slow_tail.specs.inner.Marks.{AreMarksOf};
ghost use Rattle.trace_types.specs.NamedSegments.{number_of_name};
ghost use Rattle.trace_types.specs.declared.named_segment.NamedSegment.{NamedSegment};
ghost use Rattle.trace_types.specs.declared.named_trace.NamedTrace.{NamedTrace};

use std::alloc::{AllocError, Global};
use trace_types::{NamedSegment, NamedTrace};

/// Marks the names of segments.
fn mark_segments(marked: &mut [bool], segments: &[NamedSegment])
    requires { All (λ (s : NamedSegment). s.name < length marked.old) segments.now }
    ensures count { length marked.new ≡ length marked.old }
    ensures marks { (n : ℕ) → (slice_get marked.new n ≡ Some true)
        ↔ ((slice_get marked.old n ≡ Some true)
        ⊎ Contains (map number_of_name segments.now) n) }
{
    'segments: for segment in segments {
        marked[segment.name as usize] = true;
    }
}

/// Marks the names that segments of the traces have, of so many names.
pub(crate) fn mark_names(
    alloc: Global,
    names: u32,
    traces: &[&NamedTrace],
) -> Result<Vec<bool>, AllocError>
    requires { All (λ (t : Bor NamedTrace). HaveNamesBelow names t.now) traces.now }
    ensures { IfOk result (λ marked. AreMarksOf names
        (flat_map (λ (t : Bor NamedTrace). t.now.segments) traces.now) marked.items) }
{
    let mut marked = vec![in alloc; false; names as usize]?;
    'traces: for trace in traces {
        mark_segments(&mut marked, trace.segments.items());
    }
    Ok(marked)
}
