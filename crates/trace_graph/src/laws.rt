//! Laws over the definitions alone: each function does nothing, and its contract is the law.
ghost use Rattle.std.specs.Prelude.{ℕ, List, Contains};
ghost use Rattle.trace_rules.specs.TraceGraphs.{ExcludesIn, IsDependency};
ghost use Rattle.trace_types.specs.Parts.{Parts};
ghost use Rattle.trace_graph.specs.BitGraphs.{BitsTellGraphs};
ghost use Rattle.trace_graph.specs.RenamedGraphs.{RenamedGraphIsTheSame};
ghost use Rattle.trace_graph.specs.GraphLaws.{DoNotOverlap, HasOneGraph};

use trace_types::laws::{a_list_is_told_in_one_way, renamed_traces_leave_alike};

/// Of two segments of a trace of the list between which an edge leads, one ends no later than the
/// other's start plus the trace's grace.
pub fn dependencies_do_not_overlap<A, S, N, T, E>()
    ensures { (p : Parts A S N T E) (traces : List A) (trace : A) (i j : ℕ) → Contains traces trace
        → (edge : IsDependency p (ExcludesIn p traces) trace i j)
        → DoNotOverlap p trace edge.s edge.t }
{}

/// A graph by the bits of words is the graph by what survives in the traces of which they tell.
pub fn bits_tell_graphs()
    ensures { BitsTellGraphs }
{}

/// A graph of a trace is one of the same trace under other names, where names and tasks are matched
/// one to one.
pub fn renamed_graph_is_the_same<A, S, N, T, E, B, X, M, U, F>()
    ensures { (p : Parts A S N T E) (q : Parts B X M U F) → RenamedGraphIsTheSame p q }
{
    renamed_traces_leave_alike::<A, S, N, T, E, B, X, M, U, F>();
}

/// A trace has one order of vertices and one graph by what survives in a list of traces.
pub fn a_trace_has_one_graph<A, S, N, T, E>()
    ensures { (p : Parts A S N T E) (traces : List A) → HasOneGraph p (ExcludesIn p traces) }
{
    a_list_is_told_in_one_way::<u32>();
}
