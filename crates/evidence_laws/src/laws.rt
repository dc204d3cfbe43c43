//! Laws over the definitions alone: each function does nothing, and its contract is the law.
ghost use Rattle.std.specs.Prelude.{Bool};
ghost use Rattle.evidence_laws.specs.ModelLaws.{ExclusionsAreTold, OrdersAreTold, PipesAreTold};
ghost use Rattle.evidence_laws.specs.FirstLaws.{FirstEarlyIsFirst, FirstBothIsFirst};
ghost use Rattle.trace_types.specs.Parts.{Parts};

/// The figures of two names tell that the one happens before the other, or that they are mutually
/// exclusive with no fixed order, exactly where the model has it; those of two tasks likewise tell
/// a pipeline.
pub fn relations_are_those_of_the_model<A, S, N, T, E>()
    ensures orders { (p : Parts A S N T E) (same : N → N → Bool) → OrdersAreTold p same }
    ensures exclusions { (p : Parts A S N T E) (same : N → N → Bool) → ExclusionsAreTold p same }
    ensures pipes { (p : Parts A S N T E) → PipesAreTold p }
{}

/// Where traces refute an order or an exclusion of two names, the figures name the first that does.
pub fn the_first_trace_refutes<A, S, N, T, E>()
    ensures orders { (p : Parts A S N T E) (same : N → N → Bool) → FirstEarlyIsFirst p same }
    ensures exclusions { (p : Parts A S N T E) (same : N → N → Bool) → FirstBothIsFirst p same }
{}
