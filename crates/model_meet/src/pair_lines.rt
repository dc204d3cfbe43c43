ghost use Rattle.std.specs.Prelude.{◌≡◌, ◌≢◌, ◌↔◌, ◌<◌, ℕ, List, IsTrue};
ghost use Rattle.std.specs.declared.cmp.Ordering.{Ordering};
ghost use Rattle.std.specs.declared.cmp.Ordering.TheVariants.{Less};
ghost use Rattle.model_meet.specs.RelationBits.{HasExclusion, HasOrder};
ghost use Rattle.refute_tests.specs.Survivors.{AreSurvivors};
ghost use Rattle.trace_types.specs.Parts.{by_number};
ghost use Rattle.trace_types.specs.Relations.{ExcludesUnordered, HappensBefore};
ghost use Rattle.trace_types.specs.declared.named_trace.NamedTrace.{NamedTrace};

use crate::Model;
use trace_types::laws::relations_are_symmetric;
use trace_types::{NamedSegment, NamedTrace};

/// The lines of the model that two names have.
#[derive(Clone, Copy)]
pub(crate) struct PairLines {
    /// The first happens before the second.
    pub before: bool,
    /// The second happens before the first.
    pub after: bool,
    /// They are mutually exclusive with no fixed order.
    pub exclusive: bool,
}

/// That two names have no line.
const NO_LINES: PairLines = PairLines {
    before: false,
    after: false,
    exclusive: false,
};

/// Tells which lines two names have. It reads one bit where no trace has both, and four at most.
pub(crate) fn lines_between(model: &Model<'_>, a: u32, b: u32) -> PairLines
    requires differ { a ≢ b }
    requires first { a < model.now.names }
    requires second { b < model.now.names }
    ensures before { IsTrue result.before ↔ HasOrder model.now.words a b }
    ensures after { IsTrue result.after ↔ HasOrder model.now.words b a }
    ensures exclusive { IsTrue result.exclusive ↔ HasExclusion model.now.words a b }
    ensures before_told { (traces : List NamedTrace) → AreSurvivors traces model.now.words
        → IsTrue result.before ↔ HappensBefore by_number traces a b }
    ensures after_told { (traces : List NamedTrace) → AreSurvivors traces model.now.words
        → IsTrue result.after ↔ HappensBefore by_number traces b a }
    ensures exclusive_told { (traces : List NamedTrace) (cmp : ℕ → ℕ → Ordering)
        → AreSurvivors traces model.now.words → cmp a b ≡ Less
        → IsTrue result.exclusive ↔ ExcludesUnordered by_number cmp traces a b }
{
    // For the proof alone.
    relations_are_symmetric::<NamedTrace, NamedSegment, u32, u32, u32>();
    if !model.together(a, b) {
        return NO_LINES;
    }
    let not_before = model.is_order_refuted(a, b);
    let not_after = model.is_order_refuted(b, a);
    let unordered = not_before && not_after;
    PairLines {
        before: !not_before,
        after: !not_after,
        exclusive: unordered && model.exclusive(a, b),
    }
}
