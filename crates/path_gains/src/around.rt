ghost use Rattle.std.specs.Prelude.{◌≡◌, ℕ, ◌+◌, ◌<◌, ◌≤◌, map, Contains, IfOk, length, slice_index};
ghost use Rattle.path_gains.specs.inner.Around.{AreLengths, IsAroundBelow, IsRaisedOver};
ghost use Rattle.path_gains.specs.inner.Spans.{HaveRoom, shown_at};
ghost use Rattle.weighted_dag.specs.Chains.{AllAreShorter};
ghost use Rattle.weighted_dag.specs.Graphs.{order_of};

use crate::spans::{into_numbers, raise_span, zero_blocks};
use std::alloc::{AllocError, Global};
use weighted_dag::{Dag, Length};

/// Raises the numbers of the vertices that are jumped over from before `low` to each of the indices:
/// to the length that leads there and goes on from the index.
fn raise_over<L: Length>(blocks: &mut [L], indices: &[u32], from: &[L], low: usize, until: L)
    requires room { HaveRoom (length from.now) (length blocks.old) }
    requires within { (y : ℕ) → Contains indices.now y → y < length from.now }
    requires fits { (y : ℕ) → Contains indices.now y
        → L.value until + slice_index (map L.value from.now) y < L.limit }
    ensures { (v : ℕ) → v < length from.now
        → IsRaisedOver indices.now (map L.value from.now) low (L.value until) v
        (shown_at (length from.now) (map L.value blocks.old) v)
        (shown_at (length from.now) (map L.value blocks.new) v) }
{
    'indices: for index in indices {
        let index = *index as usize;
        raise_span(blocks, from.len(), low, index, until.plus(from[index]));
    }
}

/// Raises the numbers of all vertices to the lengths of the chains without them of which this vertex
/// is the last before them, the first after them, or the start of the edge that jumps over them.
fn add_chains_at<L: Length>(blocks: &mut [L], dag: &Dag, into: &[L], from: &[L], vertex: usize)
    requires room { HaveRoom (order_of dag.now) (length blocks.old) }
    requires into { length into.now ≡ order_of dag.now }
    requires from { length from.now ≡ order_of dag.now }
    requires lengths { AreLengths dag.now (map L.value into.now) (map L.value from.now) }
    requires fits { AllAreShorter dag.now L.limit }
    requires vertex { vertex < order_of dag.now }
    ensures { (v : ℕ) → v < order_of dag.now
        → IsAroundBelow dag.now (map L.value into.now) (map L.value from.now) vertex v
        (shown_at (order_of dag.now) (map L.value blocks.old) v)
        → IsAroundBelow dag.now (map L.value into.now) (map L.value from.now) (vertex + 1) v
        (shown_at (order_of dag.now) (map L.value blocks.new) v) }
{
    let weights = dag.weights();
    let until = into[vertex].plus(L::of(weights[vertex]));
    raise_span(blocks, from.len(), 0, vertex, from[vertex]);
    raise_span(blocks, from.len(), vertex + 1, from.len(), until);
    raise_over(
        blocks,
        dag.successors(vertex as u32),
        from,
        vertex + 1,
        until,
    );
}

/// Computes for each vertex the greatest length of a chain without it, in one pass over the edges.
/// Each of these chains ends before the vertex, begins after it, or jumps over it along an edge.
pub(crate) fn lengths_around<L: Length + Drop>(
    alloc: Global,
    dag: &Dag,
    into: &[L],
    from: &[L],
) -> Result<Vec<L>, AllocError>
    requires into { length into.now ≡ order_of dag.now }
    requires from { length from.now ≡ order_of dag.now }
    requires lengths { AreLengths dag.now (map L.value into.now) (map L.value from.now) }
    requires fits { AllAreShorter dag.now L.limit }
    ensures count { IfOk result (λ around. length around.items ≡ order_of dag.now) }
    ensures around { IfOk result (λ around. (v : ℕ) → v < order_of dag.now
        → IsAroundBelow dag.now (map L.value into.now) (map L.value from.now) (order_of dag.now) v
        (slice_index (map L.value around.items) v)) }
{
    let weights = dag.weights();
    let count = weights.len();
    let mut blocks = zero_blocks::<L>(alloc, count)?;
    'vertices: for vertex in 0..count {
        add_chains_at(&mut blocks, dag, into, from, vertex);
    }
    Ok(into_numbers(blocks, count))
}
