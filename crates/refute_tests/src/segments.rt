ghost use Rattle.std.specs.Prelude.{◌≡◌, ◌+◌, ◌<◌, ◌||◌, ℕ, length, All, IsTrue, OnOk, IfOk};
ghost use Rattle.std.specs.List.{list_any};
ghost use Rattle.hypothesis_index.specs.Places.{width_of};
ghost use Rattle.hypothesis_index.specs.Refuting.{RefutesNames};
ghost use Rattle.hypothesis_index.specs.declared.relation.Relation.{Relation};
ghost use Rattle.refute_tests.specs.Clearing.{AddsExactly, ClearsExactly, HaveNamesBelow};
ghost use Rattle.refute_tests.specs.inner.Hits.{NamesRise, all_hits, hits, row_start};
ghost use Rattle.trace_types.specs.declared.named_segment.NamedSegment.{NamedSegment};
ghost use Rattle.word_rows.specs.Rows.{below, clears};

use crate::margins::{end_limit, start_limit};
use crate::pairs::{pair_kinds, row_slot, turn_to};
use crate::sorting::sort_by_name;
use crate::words::clear_by_words;
use hypothesis_index::laws::pairs_follow;
use std::alloc::{AllocError, Global};
use trace_types::{NamedSegment, NamedTrace};
use word_rows::laws::below_wider;
use word_rows::{Row, RowMaker};

/// Clears what a segment refutes with those before it, which have lesser names.
fn clear_below(
    maker: &mut RowMaker,
    grace: u64,
    before: &[NamedSegment],
    segment: &NamedSegment,
) -> Result<(), AllocError>
    requires rising { NamesRise before.now }
    requires less { All (λ (s : NamedSegment). s.name < segment.now.name) before.now }
    requires no_later { IsTrue (below (row_start segment.now.name + 1) maker.old) }
    ensures cleared { OnOk result ((i b : ℕ) → clears maker.new i b
        ≡ (clears maker.old i b || list_any (λ s. hits grace s segment.now i b) before.now)) }
    ensures no_later { OnOk result
        (IsTrue (below (row_start (segment.now.name + 1) + 1) maker.new)) }
    ensures fits { OnOk result ((n : ℕ) → segment.now.name < n
        → IsTrue (below (width_of n) maker.old) → IsTrue (below (width_of n) maker.new)) }
{
    // For the proof alone.
    below_wider();
    pairs_follow();
    let Some(first) = before.first() else {
        return Ok(());
    };
    let row = row_slot(segment.name);
    let end_limit = end_limit(segment, grace);
    let start_limit = start_limit(segment, grace);
    let mut word = row / 16;
    let mut mask = 0;
    for other in before {
        let slot = row + other.name;
        mask = turn_to(maker, word, mask, slot / 16)?;
        word = slot / 16;
        mask |= pair_kinds(other, end_limit, start_limit) << (4 * (slot % 16));
    }
    maker.clear_mask(word, mask)?;
    Ok(())
}

/// Clears what each segment refutes with those before it, pair by pair. In the row so far only
/// words of tasks were begun.
pub(crate) fn clear_by_pairs(
    maker: &mut RowMaker,
    grace: u64,
    segments: &[NamedSegment],
) -> Result<(), AllocError>
    requires rising { NamesRise segments.now }
    requires tasks_alone { IsTrue (below 126 maker.old) }
    ensures cleared { OnOk result ((i b : ℕ) → clears maker.new i b
        ≡ (clears maker.old i b || all_hits grace segments.now (length segments.now) i b)) }
    ensures fits { OnOk result ((n : ℕ) → All (λ (s : NamedSegment). s.name < n) segments.now
        → IsTrue (below (width_of n) maker.new)) }
{
    // For the proof alone.
    below_wider();
    pairs_follow();
    for (index, segment) in segments.iter().enumerate() {
        let (before, _) = segments.split_at(index);
        clear_below(maker, grace, before, segment)?;
    }
    Ok(())
}

/// Whether there are so many segments, and so few names between theirs, that sixteen pairs at a
/// time are faster than one.
fn are_dense(segments: &[NamedSegment]) -> bool {
    match segments.last() {
        Some(last) => segments.len() >= 96 && last.name as usize / 3 < segments.len(),
        None => false,
    }
}

/// Clears what each segment refutes with those before it. In the row so far only words of tasks
/// were begun.
fn clear_rows(
    alloc: Global,
    maker: &mut RowMaker,
    grace: u64,
    segments: &[NamedSegment],
) -> Result<(), AllocError>
    requires rising { NamesRise segments.now }
    requires tasks_alone { IsTrue (below 126 maker.old) }
    ensures cleared { OnOk result ((i b : ℕ) → clears maker.new i b
        ≡ (clears maker.old i b || all_hits grace segments.now (length segments.now) i b)) }
    ensures fits { OnOk result ((n : ℕ) → All (λ (s : NamedSegment). s.name < n) segments.now
        → IsTrue (below (width_of n) maker.new)) }
{
    if are_dense(segments) {
        clear_by_words(alloc, maker, grace, segments)
    } else {
        clear_by_pairs(maker, grace, segments)
    }
}

/// Clears the places of exactly those relations between names that the trace refutes. In the row so
/// far only words of tasks were begun. The segments are sorted in the room: what it held is dropped,
/// and its memory serves again. The only error is that memory ran out.
pub fn clear_segments(
    alloc: Global,
    room: &mut Vec<NamedSegment>,
    maker: &mut RowMaker,
    trace: &NamedTrace,
) -> Result<(), AllocError>
    requires { IsTrue (below 126 maker.old) }
    ensures cleared { OnOk result (AddsExactly maker.old (λ r. RefutesNames r trace.now) maker.new) }
    ensures fits { OnOk result ((names : ℕ) → HaveNamesBelow names trace.now
        → IsTrue (below (width_of names) maker.new)) }
{
    sort_by_name(trace, room)?;
    clear_rows(alloc, maker, trace.grace, room.as_slice())?;
    Ok(())
}

/// The row that clears the places of exactly those relations between names that the trace refutes.
/// The only error is that memory ran out.
pub fn segment_row(alloc: Global, trace: &NamedTrace) -> Result<Row, AllocError>
    ensures exact { IfOk result (λ row. ClearsExactly row (λ r. RefutesNames r trace.now)) }
    ensures fits { IfOk result (λ row. (names : ℕ) → HaveNamesBelow names trace.now
        → IsTrue (below (width_of names) row)) }
{
    let mut maker = RowMaker::new(alloc);
    clear_segments(alloc, &mut Vec::new(alloc), &mut maker, trace)?;
    let row = maker.finish()?;
    Ok(row)
}
