ghost use Rattle.std.specs.Prelude.{◌≡◌, ℕ, ◌<◌, ◌||◌, length, All, IsTrue, OnOk};
ghost use Rattle.hypothesis_index.specs.Places.{width_of};
ghost use Rattle.refute_tests.specs.inner.Hits.{NamesRise, all_hits};
ghost use Rattle.trace_types.specs.declared.named_segment.NamedSegment.{NamedSegment};
ghost use Rattle.word_rows.specs.Rows.{below, clears};

use crate::sorting::{by_end, by_start, turn_ends, turn_starts};
use crate::tables::{backward_table, clear_tables, forward_table};
use hypothesis_index::laws::pairs_follow;
use hypothesis_index::width;
use std::alloc::{AllocError, Global};
use trace_types::NamedSegment;
use word_rows::RowMaker;
use word_rows::laws::below_wider;

/// Clears what each segment refutes with those before it, sixteen pairs at a time: each table has a
/// row of pairs for each name, with the lesser names that are early for it, and what both tables
/// say of a pair are its kinds. In the row so far only words of tasks were begun.
pub(crate) fn clear_by_words(
    alloc: Global,
    maker: &mut RowMaker,
    grace: u64,
    segments: &[NamedSegment],
) -> Result<(), AllocError>
    requires rising { NamesRise segments.now }
    requires tasks_alone { IsTrue (below 126 maker.old) }
    ensures cleared { OnOk result ((i b : ℕ) → clears maker.new i b
        ≡ (clears maker.old i b || all_hits grace segments.now (length segments.now) i b)) }
    ensures fits { OnOk result ((n : ℕ) → All (λ (s : NamedSegment). s.name < n) segments.now
        → IsTrue (below (width_of n) maker.new)) }
{
    // For the proof alone.
    below_wider();
    pairs_follow();
    let Some(last) = segments.last() else {
        return Ok(());
    };
    let words = (width(last.name + 1) - 126) as usize;
    let starts = by_start(alloc, segments)?;
    let ends = by_end(alloc, segments)?;
    let backward = backward_table(alloc, words, starts.as_slice(), ends.as_slice(), grace)?;
    let starts = turn_starts(starts);
    let ends = turn_ends(ends);
    let forward = forward_table(alloc, words, ends.as_slice(), starts.as_slice(), grace)?;
    clear_tables(maker, forward.as_slice(), backward.as_slice())?;
    Ok(())
}
