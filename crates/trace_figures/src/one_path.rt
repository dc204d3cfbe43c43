ghost use Rattle.std.specs.Prelude.{◌<◌, ℕ, All, IfOk, length};
ghost use Rattle.std.specs.List.{AllZip};
ghost use Rattle.refute_tests.specs.Clearing.{HaveNamesBelow};
ghost use Rattle.trace_paths.specs.NumberedPaths.{IsNamedPath};
ghost use Rattle.trace_paths.specs.inner.GraphPaths.{IsPathIn};
ghost use Rattle.trace_rules.specs.CriticalPaths.{StandsFor};
ghost use Rattle.trace_rules.specs.TraceGraphs.{HasVertices};
ghost use Rattle.trace_types.specs.Parts.{by_number};

use critical_path::critical;
use std::alloc::{AllocError, Global};
use trace_graph::OrderedGraph;
use trace_types::{NamedSegment, NamedSegmentList, NamedTrace};

/// Lists the segments for which the vertices of a chain stand.
fn segments_on(
    alloc: Global,
    segments: &[NamedSegment],
    order: &[u32],
    chain: &[u32],
) -> Result<Vec<NamedSegment>, AllocError>
    requires vertices { All (λ v. v < length order.now) chain.now }
    requires indices { All (λ i. i < length segments.now) order.now }
    ensures { IfOk result (λ path. AllZip (StandsFor segments.now order.now) chain.now path.items) }
{
    let mut path = Vec::with_capacity(alloc, chain.len())?;
    'chain: for vertex in chain {
        let index = order[*vertex as usize];
        path.push(segments[index as usize])?;
    }
    Ok(path)
}

/// Finds the segments of a trace on the first longest chain of its graph.
pub(crate) fn path_in(
    alloc: Global,
    trace: &NamedTrace,
    graph: &OrderedGraph,
) -> Result<NamedSegmentList, AllocError>
    requires { HasVertices by_number trace.now graph.now.order graph.now.dag }
    ensures path { IfOk result (IsPathIn trace.now.segments graph.now.order graph.now.dag) }
    ensures named { IfOk result (λ path. (names : ℕ) → HaveNamesBelow names trace.now
        → IsNamedPath names path) }
{
    let chain = critical(alloc, &graph.dag)?;
    let path = segments_on(
        alloc,
        trace.segments.items(),
        graph.order.items(),
        chain.vertices.items(),
    )?;
    Ok(NamedSegmentList::of(path))
}
