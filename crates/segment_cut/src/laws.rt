//! Laws over the definitions alone: each function does nothing, and its contract is the law.
ghost use Rattle.std.specs.Prelude.{◌≡◌, ℕ, ℤ, List, Option};
ghost use Rattle.trace_types.specs.declared.event.Event.{Event};
ghost use Rattle.trace_types.specs.declared.trace.Trace.{Trace};
ghost use Rattle.segment_cut.specs.declared.trace_fault.TraceFault.{TraceFault};
ghost use Rattle.segment_cut.specs.AdjustedTimes.{AreAdjustedTimes};
ghost use Rattle.segment_cut.specs.Cutting.{IsValid, IsCut};
ghost use Rattle.segment_cut.specs.Elements.{HasElement, element_in};
ghost use Rattle.segment_cut.specs.Faults.{IsTraceFault};
ghost use Rattle.segment_cut.specs.Scaling.{AreOfOneMachine, AreTimelyMicroseconds};
ghost use Rattle.segment_cut.specs.Scaling.{AreThousandfold, IsTraceThousandfold};

use clock_offsets::laws::a_machine_has_one_offset;

/// States that a trace of one machine is cut alike where each time becomes a thousand times what it
/// was: names, order and elements stay, and starts, ends and the latency are a thousand times what
/// they were. Where the times are those of microseconds up to the year 2100, it stays valid.
pub fn a_trace_in_thousandfold_times_is_cut_alike()
    ensures alike { (request : List ℕ) (events scaled : List Event) (t u : Trace)
        → AreOfOneMachine events → AreThousandfold events scaled → IsCut request events t
        → IsCut request scaled u → IsTraceThousandfold t u }
    ensures valid { (events scaled : List Event) (times scaled_times : List ℤ)
        → AreOfOneMachine events → AreTimelyMicroseconds events → AreThousandfold events scaled
        → AreAdjustedTimes events times → AreAdjustedTimes scaled scaled_times
        → IsValid events times → IsValid scaled scaled_times }
{
    a_machine_has_one_offset();
}

/// States that a name has one element, or none, and that `element_in` computes it.
pub fn a_name_has_one_element()
    ensures given { (name : List ℕ) → HasElement name (element_in name) }
    ensures one { (name : List ℕ) (a b : Option (List ℕ)) → HasElement name a → HasElement name b
        → a ≡ b }
{}

/// States that a trace has one verdict: its events are cut in one way, or they have one fault, and
/// never both.
pub fn a_trace_has_one_verdict()
    ensures trace { (request : List ℕ) (events : List Event) (t u : Trace) → IsCut request events t
        → IsCut request events u → t ≡ u }
    ensures fault { (events : List Event) (f g : TraceFault) → IsTraceFault events f
        → IsTraceFault events g → f ≡ g }
    ensures not_both { (request : List ℕ) (events : List Event) (t : Trace) (f : TraceFault)
        → IsCut request events t → IsTraceFault events f → ⊥ }
{
    a_machine_has_one_offset();
}
