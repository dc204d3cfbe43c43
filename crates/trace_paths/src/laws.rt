//! Laws over the definitions alone: each function does nothing, and its contract is the law.
ghost use Rattle.std.specs.Prelude.{ℕ, List};
ghost use Rattle.model_meet.specs.RelationBits.{KeepsExclusion};
ghost use Rattle.trace_paths.specs.PathLaws.{BitsTellPaths, PathsAreOne};
ghost use Rattle.trace_rules.specs.TraceGraphs.{ExcludesIn};
ghost use Rattle.trace_types.specs.Parts.{Parts, by_number};

use trace_graph::laws::{a_trace_has_one_graph, bits_tell_graphs};
use trace_types::laws::a_list_is_told_in_one_way;

/// A path by the bits of words is the critical path by what survives in the traces of which they
/// tell.
pub fn bits_tell_paths()
    ensures { BitsTellPaths }
{
    bits_tell_graphs();
}

/// Traces have one list of critical paths by what survives in a list of traces.
pub fn paths_are_one<A, S, N, T, E>()
    ensures { (p : Parts A S N T E) (kept : List A) → PathsAreOne p (ExcludesIn p kept) }
{
    a_trace_has_one_graph::<A, S, N, T, E>();
}

/// Traces have one list of critical paths by the bits of words.
pub fn paths_by_bits_are_one()
    ensures { (words : List ℕ) → PathsAreOne by_number (KeepsExclusion words) }
{
    a_list_is_told_in_one_way::<u32>();
}
