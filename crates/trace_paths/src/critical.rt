ghost use Rattle.std.specs.Prelude.{◌<◌, ℕ, All, IfOk, length};
ghost use Rattle.std.specs.List.{AllZip};
ghost use Rattle.refute_tests.specs.Clearing.{HaveNamesBelow};
ghost use Rattle.trace_rules.specs.TraceGraphs.{HasVertices};
ghost use Rattle.trace_rules.specs.CriticalPaths.{StandsFor};
ghost use Rattle.trace_paths.specs.NumberedPaths.{IsNamedPath, IsPathUnder};
ghost use Rattle.trace_paths.specs.inner.GraphPaths.{IsPathIn};
ghost use Rattle.trace_types.specs.Parts.{by_number};

use critical_path::critical;
use model_meet::{Exclusions, Model};
use std::alloc::{AllocError, Global};
use trace_graph::{OrderedGraph, graph, graph_by};
use trace_types::{NamedSegment, NamedSegmentList, NamedTrace};

/// Lists the segments for which the vertices of a chain stand.
fn segments_on(
    alloc: Global,
    segments: &[NamedSegment],
    order: &[u32],
    chain: &[u32],
) -> Result<Vec<NamedSegment>, AllocError>
    requires vertices { All (λ v. v < length order.now) chain.now }
    requires indices { All (λ i. i < length segments.now) order.now }
    ensures { IfOk result (λ path. AllZip (StandsFor segments.now order.now) chain.now path.items) }
{
    let mut path = Vec::with_capacity(alloc, chain.len())?;
    'chain: for vertex in chain {
        let index = order[*vertex as usize];
        path.push(segments[index as usize])?;
    }
    Ok(path)
}

/// Finds the segments of a trace on the first longest chain of its graph.
fn path_in(
    alloc: Global,
    trace: &NamedTrace,
    graph: &OrderedGraph,
) -> Result<NamedSegmentList, AllocError>
    requires { HasVertices by_number trace.now graph.now.order graph.now.dag }
    ensures path { IfOk result (IsPathIn trace.now.segments graph.now.order graph.now.dag) }
    ensures named { IfOk result (λ path. (names : ℕ) → HaveNamesBelow names trace.now
        → IsNamedPath names path) }
{
    let chain = critical(alloc, &graph.dag)?;
    let path = segments_on(
        alloc,
        trace.segments.items(),
        graph.order.items(),
        chain.vertices.items(),
    )?;
    Ok(NamedSegmentList::of(path))
}

/// Finds the critical path of a trace whose names are below the model's: the segments on the first
/// longest chain of its graph, in order (Chow et al., "The Mystery Machine", OSDI 2014, section
/// 3.4). The words' bits alone decide it. It takes one pass over the graph. The only error is that
/// memory ran out.
pub fn critical_path(
    alloc: Global,
    trace: &NamedTrace,
    model: &Model,
) -> Result<NamedSegmentList, AllocError>
    requires { HaveNamesBelow model.now.names trace.now }
    ensures { IfOk result (IsPathUnder model.now trace.now) }
{
    let graph = graph(alloc, trace, model)?;
    path_in(alloc, trace, &graph)
}

/// Finds the critical path of a trace as `critical_path` does, from the listed exclusions of the
/// model.
pub(crate) fn critical_path_by(
    alloc: Global,
    trace: &NamedTrace,
    exclusions: &Exclusions,
) -> Result<NamedSegmentList, AllocError>
    requires { HaveNamesBelow exclusions.now.names trace.now }
    ensures { IfOk result (IsPathUnder exclusions.now trace.now) }
{
    let graph = graph_by(alloc, trace, exclusions)?;
    path_in(alloc, trace, &graph)
}
