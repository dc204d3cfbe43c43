//! Laws over the definitions alone: each function does nothing, and its contract is the law.
ghost use Rattle.std.specs.Prelude.{◌≡◌, List};
ghost use Rattle.trace_types.specs.Batch.{PlainTrace};
ghost use Rattle.machine_quality.specs.Told.{AreTold, NamedClock};

use trace_quality::laws::{a_trace_has_its_facts_in_one_way, a_trace_tells_its_clocks_in_one_way};

/// Traces tell of the clocks of their machines in one way.
pub fn traces_tell_their_clocks_in_one_way()
    ensures { (traces : List PlainTrace) (a b : List NamedClock) → AreTold traces a
        → AreTold traces b → a ≡ b }
{
    a_trace_has_its_facts_in_one_way();
    a_trace_tells_its_clocks_in_one_way();
}
