ghost use Rattle.std.specs.Prelude.{◌≡◌, ℕ, ◌+◌, ◌*◌, ◌<◌, ◌≤◌, ◌&&◌, ◌||◌, ◌==◌, true, false};
ghost use Rattle.std.specs.Prelude.{length, All, IfOk, OnOk, IsTrue};
ghost use Rattle.std.specs.List.{list_any};
ghost use Rattle.hypothesis_index.specs.Places.{pairs_below};
ghost use Rattle.refute_tests.specs.inner.Marks.{EarlyFirst, EarlyStays, backward_marks};
ghost use Rattle.refute_tests.specs.inner.Marks.{forward_marks, has_mark, is_named, kinds_word};
ghost use Rattle.refute_tests.specs.inner.Marks.{row_marks, table_clears};
ghost use Rattle.refute_tests.specs.inner.Sorting.{EndsFall, EndsRise, StartsFall, StartsRise};
ghost use Rattle.trace_types.specs.declared.named_segment.NamedSegment.{NamedSegment};
ghost use Rattle.word_rows.specs.Rows.{below, clears};
ghost use Rattle.word_rows.specs.Words.{AreWords};

use crate::marks::add_mark;
use crate::merging::add_rows;
use std::alloc::{AllocError, Global};
use trace_types::NamedSegment;
use word_rows::RowMaker;
use word_rows::laws::below_wider;

/// Gives mark 3 to each name that a segment has.
fn named_marks(segments: &[NamedSegment]) -> [u64; 32]
    ensures { (n c : ℕ) → c < 4
        → has_mark result n c ≡ ((c == 3) && is_named segments.now n) }
{
    let mut marks = [0; 32];
    for segment in segments {
        add_mark(&mut marks, segment.name, 3);
    }
    marks
}

/// Makes a table of so many words with the marks of these rows.
fn rows_table(
    alloc: Global,
    words: usize,
    marks: &[u64; 32],
    candidates: &[NamedSegment],
    rows: &[NamedSegment],
    grace: u64,
    forward: bool,
) -> Result<Vec<u64>, AllocError>
    requires first { EarlyFirst forward grace candidates.now }
    requires stays { EarlyStays forward grace rows.now }
    requires room { All (λ (t : NamedSegment). pairs_below t.name + t.name ≤ 16 * words) rows.now }
    ensures len { IfOk result (λ table. length table.items ≡ words) }
    ensures marked { IfOk result (λ table. (p c : ℕ) → c < 4 → has_mark table.items p c
        ≡ list_any (λ t. row_marks forward grace candidates.now marks.now t p c) rows.now) }
{
    let mut table = Vec::from_elem(alloc, 0, words)?;
    add_rows(
        table.as_mut_slice(),
        marks,
        candidates,
        rows,
        grace,
        forward,
    );
    Ok(table)
}

/// Makes the table whose mark 0 says of a pair that the lesser name starts early for the greater,
/// so that the greater does not happen before it.
pub(crate) fn backward_table(
    alloc: Global,
    words: usize,
    starts: &[NamedSegment],
    ends: &[NamedSegment],
    grace: u64,
) -> Result<Vec<u64>, AllocError>
    requires starts { StartsRise starts.now }
    requires ends { EndsRise ends.now }
    requires room { All (λ (t : NamedSegment). pairs_below t.name + t.name ≤ 16 * words) ends.now }
    ensures len { IfOk result (λ table. length table.items ≡ words) }
    ensures marked { IfOk result (λ table. (p c : ℕ) → c < 4 → has_mark table.items p c
        ≡ list_any (λ t. backward_marks grace starts.now t p c) ends.now) }
{
    let table = rows_table(alloc, words, &[0; 32], starts, ends, grace, false)?;
    Ok(table)
}

/// Makes the table whose mark 3 says of a pair that both names are there, and whose mark 0 says
/// that the greater name starts early for the lesser.
pub(crate) fn forward_table(
    alloc: Global,
    words: usize,
    ends: &[NamedSegment],
    starts: &[NamedSegment],
    grace: u64,
) -> Result<Vec<u64>, AllocError>
    requires ends { EndsFall ends.now }
    requires starts { StartsFall starts.now }
    requires room { All (λ (t : NamedSegment).
        pairs_below t.name + t.name ≤ 16 * words) starts.now }
    ensures len { IfOk result (λ table. length table.items ≡ words) }
    ensures marked { IfOk result (λ table. (p c : ℕ) → c < 4 → has_mark table.items p c
        ≡ list_any (λ t. forward_marks grace ends.now t p c) starts.now) }
{
    let marks = named_marks(ends);
    let table = rows_table(alloc, words, &marks, ends, starts, grace, true)?;
    Ok(table)
}

/// Makes the kinds of sixteen pairs from their forward and their backward marks.
#[inline(always)]
fn kinds_of_word(forward: u64, backward: u64) -> u64
    ensures { result ≡ kinds_word forward backward }
{
    forward | backward << 1 | (forward & backward) << 2
}

/// Clears what the tables refute, whose words have 64 bits. In the row so far only words of tasks
/// were begun.
pub(crate) fn clear_tables(
    maker: &mut RowMaker,
    forward: &[u64],
    backward: &[u64],
) -> Result<(), AllocError>
    requires same { length backward.now ≡ length forward.now }
    requires few { length forward.now ≤ 8176 }
    requires tasks_alone { IsTrue (below 126 maker.old) }
    ensures bound { AreWords forward.now }
    ensures cleared { OnOk result ((i b : ℕ) → clears maker.new i b
        ≡ (clears maker.old i b || table_clears forward.now backward.now i b)) }
    ensures fits { OnOk result (IsTrue (below (126 + length forward.now) maker.new)) }
{
    // For the proof alone.
    below_wider();
    for index in 0..forward.len() {
        let kinds = kinds_of_word(forward[index], backward[index]);
        maker.clear_mask(126 + index as u32, kinds)?;
    }
    Ok(())
}
