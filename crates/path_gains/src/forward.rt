ghost use Rattle.std.specs.Prelude.{◌≡◌, ℕ, ◌<◌, map, All, EachIndex, length, slice_index, IfOk};
ghost use Rattle.weighted_dag.specs.Graphs.{IsGraph, order_of};
ghost use Rattle.weighted_dag.specs.Chains.{AllAreShorter};
ghost use Rattle.slack.specs.inner.Passes.{IsLongestInto, RaisesAt};

use std::alloc::{AllocError, Global};
use weighted_dag::{Dag, Length};

/// Computes for each vertex the greatest length of what leads to it, in one pass from the first
/// vertex to the last.
pub(crate) fn lengths_into<L: Length + Drop>(alloc: Global, dag: &Dag) -> Result<Vec<L>, AllocError>
    requires fits { AllAreShorter dag.now L.limit }
    ensures entries { IfOk result (λ lengths. length lengths.items ≡ order_of dag.now) }
    ensures longest { IfOk result
        (λ lengths. EachIndex dag.now.weights
        (λ v. IsLongestInto dag.now v (slice_index (map L.value lengths.items) v))) }
{
    let weights = dag.weights();
    let mut lengths = vec![in alloc; L::of(0); weights.len()]?;
    'vertices: for vertex in 0..weights.len() {
        let through = lengths[vertex].plus(L::of(weights[vertex]));
        raise_each(&mut lengths, dag.successors(vertex as u32), through);
    }
    Ok(lengths)
}

/// Raises the numbers at these indices to the least value that they may have.
fn raise_each<L: Length>(numbers: &mut [L], indices: &[u32], least: L)
    requires { All (λ i. i < length numbers.old) indices.now }
    ensures { (k : ℕ)
        → RaisesAt indices.now (L.value least)
        (map L.value numbers.old) (map L.value numbers.new) k }
{
    'indices: for index in indices {
        let at = *index as usize;
        numbers[at] = numbers[at].or_greater(least);
    }
}
