ghost use Rattle.std.specs.Prelude.{◌≡◌, ◌+◌, ◌<◌, ◌≤◌, ℕ, IsTrue, IfOk, OnOk};
ghost use Rattle.hypothesis_index.specs.Places.{pairs_below};
ghost use Rattle.refute_tests.specs.Clearing.{starts_early};
ghost use Rattle.refute_tests.specs.inner.Hits.{IsEndLimit, IsStartLimit, clears_with, kinds_of};
ghost use Rattle.trace_types.specs.declared.named_segment.NamedSegment.{NamedSegment};
ghost use Rattle.word_rows.specs.Rows.{below};

use hypothesis_index::laws::pairs_follow;
use hypothesis_index::{Relation, place};
use std::alloc::AllocError;
use trace_types::NamedSegment;
use word_rows::RowMaker;
use word_rows::laws::below_wider;

/// Makes the four bits of a pair of names, of which those are 1 that two segments refute: that the
/// lesser happens before the greater, the reverse, that they are exclusive, that they are apart.
fn kinds(forward: bool, backward: bool) -> u64
    ensures { result ≡ kinds_of forward backward }
{
    8 + u64::from(forward) + 2 * u64::from(backward) + 4 * u64::from(forward && backward)
}

/// Makes the four bits of the pair of this segment and one of a greater name that has these limits.
#[inline(always)]
pub(crate) fn pair_kinds(other: &NamedSegment, end_limit: i64, start_limit: i64) -> u64
    ensures { (grace : ℕ) (segment : NamedSegment)
        → IsEndLimit end_limit grace segment → IsStartLimit start_limit grace segment
        → result
        ≡ kinds_of (starts_early grace segment other.now) (starts_early grace other.now segment) }
{
    kinds(end_limit < other.end, other.start < start_limit)
}

/// Gives the slot that the pairs of a greater name count from: that of a pair is this one plus the
/// lesser name. A slot is four bits; word 0 begins with slot 0, and each word has sixteen.
pub(crate) fn row_slot(greater: u32) -> u32
    requires some { 0 < greater }
    requires small { greater < 512 }
    ensures first { result ≡ 2016 + pairs_below greater }
    ensures room { result + greater ≤ 132832 }
{
    // For the proof alone.
    pairs_follow();
    let place = place(Relation::Before {
        first: 0,
        second: greater,
    });
    16 * place.word + place.bit / 4
}

/// Clears the mask of the open word where the next word is another, and gives the mask with which
/// the next word begins.
#[inline(always)]
pub(crate) fn turn_to(
    maker: &mut RowMaker,
    word: u32,
    mask: u64,
    next: u32,
) -> Result<u64, AllocError>
    requires rises { word ≤ next }
    requires no_later { IsTrue (below (word + 1) maker.old) }
    ensures same { IfOk result (λ rest. (i b : ℕ)
        → clears_with maker.new next rest i b ≡ clears_with maker.old word mask i b) }
    ensures no_later { OnOk result (IsTrue (below (next + 1) maker.new)) }
{
    // For the proof alone.
    below_wider();
    if next == word {
        return Ok(mask);
    }
    maker.clear_mask(word, mask)?;
    Ok(0)
}
