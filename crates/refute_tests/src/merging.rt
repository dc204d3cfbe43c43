ghost use Rattle.std.specs.Prelude.{◌≡◌, ℕ, ◌+◌, ◌*◌, ◌<◌, ◌≤◌, ◌&&◌, ◌||◌, ◌==◌, Bool, true};
ghost use Rattle.std.specs.Prelude.{false, length, take, All, slice_index_or};
ghost use Rattle.std.specs.List.{list_any};
ghost use Rattle.hypothesis_index.specs.Places.{pairs_below};
ghost use Rattle.refute_tests.specs.inner.Marks.{EarlyFirst, EarlyStays, early_by, has_mark};
ghost use Rattle.refute_tests.specs.inner.Marks.{is_named, row_marks};
ghost use Rattle.trace_types.specs.declared.named_segment.NamedSegment.{NamedSegment};

use crate::clearing::starts_early;
use crate::marks::{add_mark, add_row};
use trace_types::NamedSegment;

/// Whether a candidate is early for a segment: forward, whether the segment starts before the
/// candidate ends, by more than the grace in nanoseconds, and else whether the candidate starts so
/// before the segment ends.
#[inline(always)]
fn is_early(candidate: &NamedSegment, segment: &NamedSegment, grace: u64, forward: bool) -> bool
    ensures { result ≡ early_by forward grace candidate.now segment.now }
{
    if forward {
        starts_early(candidate, segment, grace)
    } else {
        starts_early(segment, candidate, grace)
    }
}

/// Marks the names of the candidates, from an index on, up to the first that is not early for the
/// segment, and gives its index.
fn mark_early(
    marks: &mut [u64; 32],
    candidates: &[NamedSegment],
    from: usize,
    segment: &NamedSegment,
    grace: u64,
    forward: bool,
) -> usize
    requires from { from ≤ length candidates.now }
    ensures on { from ≤ result }
    ensures within { result ≤ length candidates.now }
    ensures early { (k : ℕ) (d : NamedSegment) → from ≤ k → k < result
        → early_by forward grace (slice_index_or candidates.now k d) segment.now ≡ true }
    ensures late { (d : NamedSegment) → result < length candidates.now
        → early_by forward grace (slice_index_or candidates.now result d) segment.now ≡ false }
    ensures marked { (first : ℕ → ℕ → Bool)
        → ((n c : ℕ) → c < 4 → has_mark marks.old n c
        ≡ (first n c || ((c == 0) && is_named (take from candidates.now) n)))
        → (n c : ℕ) → c < 4 → has_mark marks.new n c
        ≡ (first n c || ((c == 0) && is_named (take result candidates.now) n)) }
{
    for index in from..candidates.len() {
        let candidate = &candidates[index];
        if !is_early(candidate, segment, grace, forward) {
            return index;
        }
        add_mark(marks, candidate.name, 0);
    }
    candidates.len()
}

/// Gives each pair of a row's name and a lesser one the marks of the lesser name, and mark 0 where
/// its segment is early for the row's. The candidates are sorted so that those that are early for
/// a segment come first, and the rows so that what is early for one is early for all that follow.
pub(crate) fn add_rows(
    table: &mut [u64],
    marks: &[u64; 32],
    candidates: &[NamedSegment],
    rows: &[NamedSegment],
    grace: u64,
    forward: bool,
)
    requires first { EarlyFirst forward grace candidates.now }
    requires stays { EarlyStays forward grace rows.now }
    requires room { All (λ (t : NamedSegment). pairs_below t.name + t.name ≤ 16 * length table.old)
        rows.now }
    ensures { (p c : ℕ) → c < 4 → has_mark table.new p c ≡ (has_mark table.old p c
        || list_any (λ t. row_marks forward grace candidates.now marks.now t p c) rows.now) }
{
    let mut marked = *marks;
    let mut count = 0;
    for segment in rows {
        count = mark_early(&mut marked, candidates, count, segment, grace, forward);
        add_row(table, &marked, segment.name);
    }
}
