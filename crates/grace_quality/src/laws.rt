//! Laws over the definitions alone: each function does nothing, and its contract is the law.
ghost use Rattle.std.specs.Prelude.{◌≡◌, ◌↔◌, ◌<◌, ℕ, All, Bool, List, false, pos};
ghost use Rattle.evidence_rules.specs.Meetings.{AreMeetingFigures, distance};
ghost use Rattle.evidence_rules.specs.declared.between.Between.{Between};
ghost use Rattle.evidence_rules.specs.declared.meeting.Meeting.{Meeting};
ghost use Rattle.grace_quality.specs.GraceLaws.{ExclusionsSurviveUnder, OrdersSurviveUnder};
ghost use Rattle.grace_quality.specs.Graces.{refutes_under};
ghost use Rattle.trace_types.specs.Parts.{Parts};

/// No meeting refutes under a grace exactly where the least gap of all meetings does not.
pub fn the_least_gap_tells_all()
    ensures order { (meetings : List Meeting) (f : Between) (micros : ℕ) → AreMeetingFigures meetings f
        → 0 < f.traces
        → All (λ (m : Meeting). refutes_under micros m.gap ≡ false) meetings
        ↔ (refutes_under micros f.least ≡ false) }
    ensures exclusion { (meetings : List Meeting) (f : Between) (micros : ℕ)
        → AreMeetingFigures meetings f → 0 < f.traces
        → All (λ (m : Meeting). refutes_under micros (distance m) ≡ false) meetings
        ↔ (refutes_under micros f.nearest ≡ false) }
{}

/// What is told of a grace is what the model has under it: were all traces judged with this grace,
/// an order of two names that meet, or that they are mutually exclusive, would survive exactly
/// where their figures do not refute under it.
pub fn relations_survive_under_a_grace<A, S, N, T, E>()
    ensures orders { (p : Parts A S N T E) (same : N → N → Bool) → OrdersSurviveUnder p same }
    ensures exclusions { (p : Parts A S N T E) (same : N → N → Bool)
        → ExclusionsSurviveUnder p same }
{}
