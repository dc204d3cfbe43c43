ghost use Rattle.std.specs.Prelude.{◌≡◌, ◌≢◌, ◌<◌, ◌≤◌, ◌+◌, ℕ, All, None, IfOk, IsSome};
ghost use Rattle.std.specs.Bool.{OnFalse, OnTrue};
ghost use Rattle.std.specs.Prelude.{length, position, replicate, slice_index_or};
ghost use Rattle.span_requests.specs.inner.Circles.{AreCallers, AreMarkedWith, HaveEnds};
ghost use Rattle.span_requests.specs.inner.Circles.{leads_to_circle, number_above};

use std::alloc::{AllocError, Global};

/// Goes from a span to its caller, and so on, up to an entry or to a marked span, and marks the
/// spans on the way with the number of this walk. Tells whether callers come to an end: they do not
/// where the walk comes back to its own way.
fn walk_ends(callers: &[Option<u32>], marks: &mut [u32], start: usize, walk: u32) -> bool
    requires callers { AreCallers callers.now }
    requires same { length marks.old ≡ length callers.now }
    requires within { start < length callers.now }
    requires positive { 0 < walk }
    requires fresh { (k : ℕ) → slice_index_or marks.old k 0 ≢ walk }
    requires ends { HaveEnds callers.now marks.old }
    ensures ends { OnTrue result (HaveEnds callers.now marks.new) }
    ensures start { OnTrue result (slice_index_or marks.new start 0 ≢ 0) }
    ensures marks { AreMarkedWith walk marks.old marks.new }
    ensures circle { OnFalse result ((n : ℕ) → IsSome (number_above callers.now n start)) }
{
    let mut at = start;
    'calls: while marks[at] == 0 {
        marks[at] = walk;
        let Some(caller) = callers[at] else {
            return true;
        };
        at = caller as usize;
    }
    marks[at] != walk
}

/// Finds the first of these spans from which callers lead into a circle, with marks to begin with.
fn find_marked(numbers: &[u32], callers: &[Option<u32>], marks: &mut [u32]) -> Option<usize>
    requires callers { AreCallers callers.now }
    requires within { All (λ number. number < length callers.now) numbers.now }
    requires few { length numbers.now < u32.MAX }
    requires marks { marks.old ≡ replicate (length callers.now) 0 }
    ensures { result ≡ position (leads_to_circle callers.now) numbers.now }
{
    for index in 0..numbers.len() {
        let walk = index as u32 + 1;
        if !walk_ends(callers, marks, numbers[index] as usize, walk) {
            return Some(index);
        }
    }
    None
}

/// Finds the first of these spans from which callers lead into a circle. The only error is out of
/// memory.
pub(crate) fn find_circle(
    alloc: Global,
    numbers: &[u32],
    callers: &[Option<u32>],
) -> Result<Option<usize>, AllocError>
    requires callers { AreCallers callers.now }
    requires within { All (λ number. number < length callers.now) numbers.now }
    requires few { length numbers.now < u32.MAX }
    ensures { IfOk result (λ found.
        found ≡ position (leads_to_circle callers.now) numbers.now) }
{
    let mut marks = vec![in alloc; 0u32; callers.len()]?;
    Ok(find_marked(numbers, callers, &mut marks))
}
