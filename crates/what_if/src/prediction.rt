ghost use Rattle.std.specs.Prelude.{◌≡◌, ◌*◌, ◌/◌, All, IfOk};
ghost use Rattle.what_if.specs.Forecasts.{AreChanged, HasSegments, IsForecast, changed_time};
ghost use Rattle.what_if.specs.ForecastLaws.{IsNoGreater};

use crate::Change;
use std::alloc::{AllocError, Global};
use trace_graph::OrderedGraph;
use trace_rules::Forecast;
use trace_types::{NamedSegment, NamedTrace};
use weighted_dag::longest_length;

/// Takes the part of a time that a change leaves, rounded down.
fn part_of(time: u64, change: &Change) -> u64
    requires { IsNoGreater change.now }
    ensures { result ≡ time * change.now.num / change.now.den }
{
    let product = u128::from(time) * u128::from(change.num);
    (product / u128::from(change.den)) as u64
}

/// Tells how long a segment of a name would take that takes so long now.
fn time_with(changes: &[Change], name: u32, time: u64) -> u64
    requires { All IsNoGreater changes.now }
    ensures { result ≡ changed_time changes.now name time }
{
    'changes: for change in changes {
        if change.name == name {
            return part_of(time, change);
        }
    }
    time
}

/// Lists the weights of the vertices with the changes.
fn change_weights(
    alloc: Global,
    segments: &[NamedSegment],
    graph: &OrderedGraph,
    changes: &[Change],
) -> Result<Vec<u64>, AllocError>
    requires graph { HasSegments segments.now graph.now.order graph.now.dag }
    requires changes { All IsNoGreater changes.now }
    ensures { IfOk result (λ weights. AreChanged segments.now graph.now.order changes.now
        graph.now.dag.weights weights.items) }
{
    let old = graph.dag.weights();
    let order = graph.order.items();
    let mut weights = Vec::with_capacity(alloc, old.len())?;
    'vertices: for vertex in 0..old.len() {
        let segment = segments[order[vertex] as usize];
        weights.push(time_with(changes, segment.name, old[vertex]))?;
    }
    Ok(weights)
}

/// Predicts the length of a trace's critical path with changes, by the trace's graph. It takes two
/// passes over the edges. The only error is that memory ran out.
pub fn predict(
    alloc: Global,
    trace: &NamedTrace,
    graph: &OrderedGraph,
    changes: &[Change],
) -> Result<Forecast, AllocError>
    requires graph { HasSegments trace.now.segments graph.now.order graph.now.dag }
    requires changes { All IsNoGreater changes.now }
    ensures { IfOk result (IsForecast trace.now.segments graph.now.order graph.now.dag
        changes.now) }
{
    let weights = change_weights(alloc, trace.segments.items(), graph, changes)?;
    let before = longest_length(alloc, &graph.dag, graph.dag.weights())?;
    let after = longest_length(alloc, &graph.dag, &weights)?;
    Ok(Forecast { before, after })
}
