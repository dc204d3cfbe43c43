//! Laws over the definitions alone: each function does nothing, and its contract is the law.
ghost use Rattle.std.specs.Prelude.{◌≡◌, ◌<◌, ◌≤◌, ℕ, List, Option, length};
ghost use Rattle.trace_types.specs.declared.event.Event.{Event};
ghost use Rattle.trace_types.specs.Batch.{PlainTrace, traces_of};
ghost use Rattle.clock_offsets.specs.declared.machine_clock.MachineClock.{MachineClock};
ghost use Rattle.segment_cut.specs.declared.trace_fault.TraceFault.{TraceFault};
ghost use Rattle.trace_quality.specs.Clocks.{AreTraceClocks};
ghost use Rattle.trace_quality.specs.Facts.{IsFacts};
ghost use Rattle.trace_quality.specs.declared.trace_facts.TraceFacts.{TraceFacts};

use clock_offsets::laws::a_trace_has_its_clocks_in_one_way;
use segment_cut::laws::a_trace_has_one_verdict;

/// A trace tells of the clocks of its machines in one way.
pub fn a_trace_tells_its_clocks_in_one_way()
    ensures { (events : List Event) (fault : Option TraceFault) (a b : List MachineClock)
        → AreTraceClocks events fault a → AreTraceClocks events fault b → a ≡ b }
{
    a_trace_has_its_clocks_in_one_way();
}

/// A batch has no more traces than events.
pub fn traces_are_few()
    ensures { (batch : List Event) → length (traces_of batch) ≤ length batch }
{}

/// A trace has its facts in one way.
pub fn a_trace_has_its_facts_in_one_way()
    ensures { (t : PlainTrace) (f g : TraceFacts) → IsFacts t f → IsFacts t g → f ≡ g }
{
    a_trace_has_one_verdict();
    a_trace_has_its_clocks_in_one_way();
}
