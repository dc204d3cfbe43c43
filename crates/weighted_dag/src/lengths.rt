ghost use Rattle.std.specs.Prelude.{◌≡◌, ℕ, ◌^◌, ◌<◌, ◌≤◌, ◌⊎◌, map, All, Contains, EachIndex};
ghost use Rattle.std.specs.Prelude.{length, slice_index, IfOk};
ghost use Rattle.weighted_dag.specs.Graphs.{IsGraph, order_of, with_weights};
ghost use Rattle.weighted_dag.specs.Chains.{AllAreShorter, IsLongestFrom, IsLongestLength};

use crate::dag::Dag;
use crate::length::Length;
use std::alloc::{AllocError, Global};

/// The lengths of a graph's longest chains.
#[derive(Drop)]
pub struct Lengths<L> {
    /// For each vertex the greatest length of a chain that begins with it.
    pub from: Vec<L>,
    /// The longest length of the graph.
    pub longest: L,
}

/// Computes the lengths of the longest chains, in one pass from the last vertex to the first.
/// Each chain's length fits `L`; `Dag::total` tells it.
pub fn lengths_from<L: Length + Drop>(alloc: Global, dag: &Dag) -> Result<Lengths<L>, AllocError>
    requires fits { AllAreShorter dag.now L.limit }
    ensures entries { IfOk result (λ lengths. length lengths.from.items ≡ order_of dag.now) }
    ensures from { IfOk result
        (λ lengths. EachIndex dag.now.weights
        (λ v. IsLongestFrom dag.now v (slice_index (map L.value lengths.from.items) v))) }
    ensures longest { IfOk result (λ lengths. IsLongestLength dag.now (L.value lengths.longest)) }
    ensures form { IsGraph dag.now }
{
    lengths_over(alloc, dag, dag.weights())
}

/// Computes the longest length over the edges of a graph with these weights, by index: its own
/// weights, or others.
pub fn longest_length(alloc: Global, dag: &Dag, weights: &[u64]) -> Result<u128, AllocError>
    requires { length weights.now ≡ order_of dag.now }
    ensures { IfOk result (λ n. IsLongestLength (with_weights dag.now weights.now) n) }
{
    if dag.total_with(weights) < 1 << 64 {
        let lengths = lengths_over::<u64>(alloc, dag, weights)?;
        Ok(lengths.longest.to_u128())
    } else {
        let lengths = lengths_over::<u128>(alloc, dag, weights)?;
        Ok(lengths.longest)
    }
}

/// Computes the lengths of the longest chains over the edges of a graph with these weights.
fn lengths_over<L: Length + Drop>(
    alloc: Global,
    dag: &Dag,
    weights: &[u64],
) -> Result<Lengths<L>, AllocError>
    requires entries { length weights.now ≡ order_of dag.now }
    requires fits { AllAreShorter (with_weights dag.now weights.now) L.limit }
    ensures entries { IfOk result (λ lengths. length lengths.from.items ≡ order_of dag.now) }
    ensures from { IfOk result
        (λ lengths. EachIndex weights.now
        (λ v. IsLongestFrom (with_weights dag.now weights.now) v
        (slice_index (map L.value lengths.from.items) v))) }
    ensures longest { IfOk result
        (λ lengths. IsLongestLength (with_weights dag.now weights.now) (L.value lengths.longest)) }
{
    let count = dag.weights().len();
    let mut from = vec![in alloc; L::of(0); count]?;
    let mut longest = L::of(0);
    'vertices: for vertex in (0..count).rev() {
        let after = greatest_at(&from, dag.successors(vertex as u32));
        let length = L::of(weights[vertex]).plus(after);
        from[vertex] = length;
        longest = longest.or_greater(length);
    }
    Ok(Lengths { from, longest })
}

/// Finds the greatest of the numbers at these indices; 0 where there is no index.
fn greatest_at<L: Length>(numbers: &[L], indices: &[u32]) -> L
    requires { All (λ i. i < length numbers.now) indices.now }
    ensures upper { All (λ i. slice_index (map L.value numbers.now) i ≤ L.value result) indices.now }
    ensures reached { (L.value result ≡ 0)
        ⊎ ((i : ℕ) × Contains indices.now i
        × (slice_index (map L.value numbers.now) i ≡ L.value result)) }
{
    let mut greatest = L::of(0);
    'indices: for index in indices {
        greatest = greatest.or_greater(numbers[*index as usize]);
    }
    greatest
}
