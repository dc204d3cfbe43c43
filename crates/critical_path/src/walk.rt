ghost use Rattle.std.specs.Prelude.{◌≡◌, ◌≢◌, ℕ, ◌^◌, ◌<◌, ◌⊎◌, map, All, EachIndex, length};
ghost use Rattle.std.specs.Prelude.{slice_index, IfOk, IfSome, IfNone};
ghost use Rattle.std.specs.List.Sorted.{IsStrictlyIncreasing};
ghost use Rattle.weighted_dag.specs.Graphs.{order_of};
ghost use Rattle.weighted_dag.specs.Chains.{IsLongestFrom, IsLongestLength};
ghost use Rattle.critical_path.specs.inner.Walks.{IsFirstIndexOf, IsFirstLongest};

use std::alloc::{AllocError, Global};
use weighted_dag::{Dag, Length};

/// Walks along the first longest chain, by the greatest lengths of the chains that begin with each
/// vertex.
pub(crate) fn walk<L: Length>(
    alloc: Global,
    dag: &Dag,
    lengths: &[L],
    longest: L,
) -> Result<Vec<u32>, AllocError>
    requires entries { length lengths.now ≡ order_of dag.now }
    requires from { EachIndex dag.now.weights
        (λ v. IsLongestFrom dag.now v (slice_index (map L.value lengths.now) v)) }
    requires longest { IsLongestLength dag.now (L.value longest) }
    ensures { IfOk result (λ vertices. IsFirstLongest dag.now (L.value longest) vertices.items) }
{
    let weights = dag.weights();
    let mut vertices = Vec::with_capacity(alloc, weights.len())?;
    let mut left = longest;
    let mut next = first_start(lengths, longest);
    'chain: while let Some(vertex) = next {
        vertices.push(vertex)?;
        left = left.minus(L::of(weights[vertex as usize]));
        next = first_with(dag.successors(vertex), lengths, left);
    }
    Ok(vertices)
}

/// Finds the first vertex from which the length is `longest`; none where that is 0.
fn first_start<L: Length>(lengths: &[L], longest: L) -> Option<u32>
    requires { length lengths.now < 2 ^ 32 }
    ensures positive { IfSome result (λ _. 0 < L.value longest) }
    ensures within { IfSome result (λ v. v < length lengths.now) }
    ensures is { IfSome result (λ v. slice_index (map L.value lengths.now) v ≡ L.value longest) }
    ensures first { IfSome result
        (λ v. (x : ℕ) → x < v → slice_index (map L.value lengths.now) x ≢ L.value longest) }
    ensures none { IfNone result
        ((L.value longest ≡ 0) ⊎ All (λ n. n ≢ L.value longest) (map L.value lengths.now)) }
{
    if longest.is(L::of(0)) {
        return None;
    }
    'starts: for (vertex, length) in lengths.iter().enumerate() {
        if length.is(longest) {
            return Some(vertex as u32);
        }
    }
    None
}

/// Finds the first of the rising indices at which the length is `left`; none where that is 0.
fn first_with<L: Length>(indices: &[u32], lengths: &[L], left: L) -> Option<u32>
    requires within { All (λ i. i < length lengths.now) indices.now }
    requires rising { IsStrictlyIncreasing indices.now }
    ensures positive { IfSome result (λ _. 0 < L.value left) }
    ensures first { IfSome result
        (IsFirstIndexOf (map L.value lengths.now) indices.now (L.value left)) }
    ensures none { IfNone result
        ((L.value left ≡ 0)
        ⊎ All (λ i. slice_index (map L.value lengths.now) i ≢ L.value left) indices.now) }
{
    if left.is(L::of(0)) {
        return None;
    }
    'indices: for index in indices {
        if lengths[*index as usize].is(left) {
            return Some(*index);
        }
    }
    None
}
