//! Laws over the definitions alone: each function does nothing, and its contract is the law.
ghost use Rattle.trace_types.specs.Parts.{Parts};
ghost use Rattle.digest_graphs.specs.DigestGraphs.{GraphsAreThoseOfAll};

use digest_facts::laws::exclusions_are_those_of_all;

/// States that under a digest of past traces and traces at hand the graph of a trace is its graph
/// under all of them.
pub fn graphs_are_those_of_all<A, S, N, T, E>()
    ensures { (p : Parts A S N T E) → GraphsAreThoseOfAll p }
{
    exclusions_are_those_of_all::<A, S, N, T, E>();
}
