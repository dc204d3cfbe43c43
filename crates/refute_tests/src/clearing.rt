ghost use Rattle.std.specs.Prelude.{◌≡◌, ◌+◌, ◌&&◌, ◌||◌, ℕ, IsTrue, OnOk};
ghost use Rattle.hypothesis_index.specs.Places.{IsRelation, place_of};
ghost use Rattle.refute_tests.specs.Clearing.{is_at, starts_early};
ghost use Rattle.word_rows.specs.Rows.{below, clears};

use hypothesis_index::{Relation, place};
use std::alloc::AllocError;
use trace_types::NamedSegment;
use word_rows::RowMaker;

/// Whether the second segment starts before the first ends, by more than the grace in nanoseconds.
pub fn starts_early(first: &NamedSegment, second: &NamedSegment, grace: u64) -> bool
    ensures { result ≡ starts_early grace second.now first.now }
{
    second.start.saturating_add_unsigned(grace) < first.end
}

/// Clears the place of a relation that is refuted, no later word having been begun. The only error
/// is that memory ran out.
pub fn clear_if(maker: &mut RowMaker, refuted: bool, relation: Relation) -> Result<(), AllocError>
    requires relation { IsRelation relation }
    requires no_later { IsTrue (below ((place_of relation).word + 1) maker.old) }
    ensures cleared { OnOk result ((i b : ℕ)
        → clears maker.new i b ≡ (clears maker.old i b || (refuted && is_at relation i b))) }
    ensures no_later { OnOk result (IsTrue (below ((place_of relation).word + 1) maker.new)) }
{
    if refuted {
        let place = place(relation);
        maker.clear(place.word, place.bit)?;
    }
    Ok(())
}
