//! A law over the definitions alone: the function does nothing, and its contract is the law.
ghost use Rattle.slow_tail.specs.SlowLaws.{PathsAddUp};
ghost use Rattle.trace_types.specs.Parts.{Parts};

/// On the critical paths of slow traces and of the rest together a name is as often, and for as
/// long, as on those of all traces.
pub fn paths_add_up<A, S, N, T, E>()
    ensures { (p : Parts A S N T E) → PathsAddUp p }
{}
