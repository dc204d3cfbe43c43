ghost use Rattle.std.specs.Prelude.{◌≡◌, ◌≢◌, ℕ, ◌+◌, ◌*◌, ◌<◌, ◌≤◌, ◌↔◌, ◌⊎◌, [], length};
ghost use Rattle.std.specs.Prelude.{IfOk, OnOk};
ghost use Rattle.weighted_dag.specs.Graphs.{IsGraph, order_of, successors_of, IsEdge};
ghost use Rattle.weighted_dag.specs.Chains.{IsLongestLength};
ghost use Rattle.weighted_dag.specs.Reductions.{IsReachable, HasDetour, IsKeptEdge};
ghost use Rattle.weighted_dag.specs.inner.BitSets.{words_for, set_at};
ghost use Rattle.weighted_dag.specs.inner.ReductionSteps.{IsReducedAt, IsReachOf, AreReachSets};

use crate::bit_set::BitSet;
use crate::dag::Dag;
use std::alloc::{AllocError, Global};

/// Computes the transitive reduction: the graph that keeps an edge exactly where no path of two or
/// more edges leads from its start to its end.
///
/// It goes from the last vertex to the first. The sets of reachable vertices stand in one block, a
/// bit for each pair of vertices, and each edge costs at most one union of two sets.
pub fn reduce(alloc: Global, dag: &Dag) -> Result<Dag, AllocError>
    ensures weights { IfOk result (λ reduced. reduced.weights ≡ dag.now.weights) }
    ensures edges { IfOk result
        (λ reduced. (a b : ℕ) → IsEdge reduced a b ↔ IsKeptEdge dag.now a b) }
    ensures dropped { IfOk result
        (λ reduced. (a b : ℕ) → IsEdge dag.now a b → IsEdge reduced a b ⊎ HasDetour dag.now a b) }
    ensures reachability { IfOk result
        (λ reduced. (a b : ℕ) → IsReachable reduced a b ↔ IsReachable dag.now a b) }
    ensures longest { IfOk result
        (λ reduced. (n : ℕ) → IsLongestLength reduced n ↔ IsLongestLength dag.now n) }
{
    let weights = dag.weights();
    let count = weights.len();
    let mut reduced = Dag::new(alloc, Vec::from_slice(alloc, weights)?)?;
    let mut set = BitSet::empty(alloc, count)?;
    let mut reached = Vec::with_capacity(alloc, count * set.words().len())?;
    'vertices: for vertex in (0..count).rev() {
        keep_edges(dag, vertex as u32, &reached, &mut set, &mut reduced)?;
        reached.extend_from_slice(set.words())?;
    }
    Ok(reduced)
}

/// Adds the edges of one vertex that are kept, and leaves in `set` the vertices that can be reached
/// from it. `reached` has these sets of the later vertices, that of the last vertex first.
fn keep_edges(
    dag: &Dag,
    vertex: u32,
    reached: &[u64],
    set: &mut BitSet,
    reduced: &mut Dag,
) -> Result<(), AllocError>
    requires vertex { vertex < order_of dag.now }
    requires reached { AreReachSets dag.now (vertex + 1) reached.now }
    requires room { length set.old ≡ words_for (order_of dag.now) }
    requires form { IsGraph reduced.old }
    requires none { successors_of reduced.old vertex ≡ [] }
    requires weights { reduced.old.weights ≡ dag.now.weights }
    ensures set { OnOk result (IsReachOf dag.now vertex set.new) }
    ensures room { length set.new ≡ length set.old }
    ensures edges { OnOk result (IsReducedAt dag.now reduced.new vertex) }
    ensures others { (a : ℕ) → a ≢ vertex → successors_of reduced.new a ≡ successors_of reduced.old a }
    ensures same_weights { reduced.new.weights ≡ dag.now.weights }
    ensures form { IsGraph reduced.new }
{
    let count = dag.weights().len();
    set.clear();
    'successors: for successor in dag.successors(vertex) {
        if !set.contains(*successor) {
            reduced.edge(vertex, *successor)?;
            set.insert(*successor);
            let size = set.words().len();
            set.unite(set_of(reached, size, count - 1 - *successor as usize));
        }
    }
    Ok(())
}

/// Returns the set with this index, of sets of so many words each.
fn set_of(sets: &[u64], size: usize, index: usize) -> &[u64]
    requires { index * size + size ≤ length sets.now }
    ensures { result.now ≡ set_at size sets.now index }
{
    let start = index * size;
    &sets[start..start + size]
}
