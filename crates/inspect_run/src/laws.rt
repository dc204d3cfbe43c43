//! Laws over the definitions alone: each function does nothing, and its contract is the law.
ghost use Rattle.std.specs.Prelude.{◌≡◌, ℕ, List};
ghost use Rattle.trace_types.specs.Batch.{PlainTrace};
ghost use Rattle.inspect_run.specs.TraceRows.{AreTraceRows};

use machine_quality::laws::traces_tell_their_clocks_in_one_way;
use trace_quality::laws::a_trace_has_its_facts_in_one_way;

/// States that traces fix the rows on them.
pub fn traces_have_their_rows_in_one_way()
    ensures { (traces : List PlainTrace) (rows others : List ℕ) → AreTraceRows traces rows
        → AreTraceRows traces others → rows ≡ others }
{
    a_trace_has_its_facts_in_one_way();
    traces_tell_their_clocks_in_one_way();
}
