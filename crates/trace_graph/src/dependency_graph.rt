ghost use Rattle.std.specs.Prelude.{IfOk};
ghost use Rattle.model_meet.specs.RelationBits.{KeepsExclusion};
ghost use Rattle.refute_tests.specs.Clearing.{HaveNamesBelow};
ghost use Rattle.trace_rules.specs.TraceGraphs.{HasVertices, IsTraceGraph};
ghost use Rattle.trace_types.specs.Parts.{by_number};

use crate::OrderedGraph;
use crate::ordering::sort_keys;
use crate::pair_test::PairTest;
use crate::successors::list_successors;
use crate::vertices::{durations_of, indices_of, names_of};
use model_meet::{Exclusions, Model};
use std::alloc::{AllocError, Global};
use trace_types::NamedTrace;
use weighted_dag::{Dag, NumberList};

/// Makes the graph of a trace whose names are below the model's: a vertex for each segment, in the
/// order of their starts, ends and indices, and an edge to each later segment whose name is
/// mutually exclusive with its own (Chow et al., "The Mystery Machine", OSDI 2014, section 3.4). The
/// words' bits alone decide it, so it is exact also for words that no traces leave. The only error
/// is that memory ran out.
pub fn graph(alloc: Global, trace: &NamedTrace, model: &Model) -> Result<OrderedGraph, AllocError>
    requires { HaveNamesBelow model.now.names trace.now }
    ensures graph { IfOk result (λ g. IsTraceGraph by_number (KeepsExclusion model.now.words)
        trace.now g.order g.dag) }
    ensures vertices { IfOk result (λ g. HasVertices by_number trace.now g.order g.dag) }
{
    make_graph(alloc, trace, model)
}

/// Makes the graph of a trace as `graph` does, from the listed exclusions of the model. It takes a
/// third of the time, once the exclusions are listed.
pub fn graph_by(
    alloc: Global,
    trace: &NamedTrace,
    exclusions: &Exclusions,
) -> Result<OrderedGraph, AllocError>
    requires { HaveNamesBelow exclusions.now.names trace.now }
    ensures graph { IfOk result (λ g. IsTraceGraph by_number (KeepsExclusion exclusions.now.words)
        trace.now g.order g.dag) }
    ensures vertices { IfOk result (λ g. HasVertices by_number trace.now g.order g.dag) }
{
    make_graph(alloc, trace, exclusions.rows())
}

/// Makes the graph of a trace by a test of pairs.
fn make_graph<P: PairTest>(
    alloc: Global,
    trace: &NamedTrace,
    pairs: P,
) -> Result<OrderedGraph, AllocError>
    requires { HaveNamesBelow (P.model pairs).names trace.now }
    ensures graph { IfOk result (λ g. IsTraceGraph by_number (KeepsExclusion (P.model pairs).words)
        trace.now g.order g.dag) }
    ensures vertices { IfOk result (λ g. HasVertices by_number trace.now g.order g.dag) }
{
    let segments = trace.segments.items();
    let keys = sort_keys(alloc, segments)?;
    let names = names_of(alloc, segments, keys.as_slice())?;
    let weights = durations_of(alloc, keys.as_slice())?;
    let successors = list_successors(alloc, pairs, names.as_slice())?;
    let order = indices_of(alloc, keys.as_slice())?;
    Ok(OrderedGraph {
        order: NumberList::of(order),
        dag: Dag::of(weights, successors),
    })
}
