ghost use Rattle.std.specs.Prelude.{◌≡◌, ℕ, ◌+◌, ◌-◌, ◌/◌, ◌<◌, ◌≤◌, IfOk, length, max};
ghost use Rattle.std.specs.Prelude.{slice_index_or};
ghost use Rattle.path_gains.specs.Gains.{IsGain};
ghost use Rattle.path_gains.specs.declared.gain.Gain.{Gain};
ghost use Rattle.weighted_dag.specs.Chains.{AllAreShorter};
ghost use Rattle.weighted_dag.specs.Graphs.{order_of};

use crate::Gain;
use crate::around::lengths_around;
use crate::forward::lengths_into;
use std::alloc::{AllocError, Global};
use weighted_dag::{Dag, Length, Lengths, lengths_from};

/// Computes for each vertex, by its number, how much the longest length of the graph loses once
/// that vertex alone weighs nothing, and once it weighs half. It takes one pass over the edges from
/// the last vertex to the first, and two from the first to the last. The only error is that memory
/// ran out.
pub fn gains(alloc: Global, dag: &Dag) -> Result<Vec<Gain>, AllocError>
    ensures entries { IfOk result (λ gains. length gains.items ≡ order_of dag.now) }
    ensures gains { IfOk result (λ gains. (v : ℕ) (d : Gain) → v < order_of dag.now
        → IsGain dag.now v (slice_index_or gains.items v d)) }
{
    if dag.total() < 1 << 64 {
        measure::<u64>(alloc, dag)
    } else {
        measure::<u128>(alloc, dag)
    }
}

/// Tells what the longest length loses once a vertex weighs less by `lost`, from the greatest length
/// of the chains around the vertex and that of the chains through it.
fn loss_of<L: Length>(longest: L, around: L, through: L, lost: u64) -> u128
    requires around { L.value around ≤ L.value longest }
    requires through { L.value through ≤ L.value longest }
    requires lost { lost ≤ L.value through }
    ensures { result ≡ L.value longest - max (L.value around) (L.value through - lost) }
{
    let after = around.or_greater(through.minus(L::of(lost)));
    longest.minus(after).to_u128()
}

/// Tells what a vertex gains, from the longest length of the graph, the greatest length around the
/// vertex, that of what leads to it, that from it, and its weight.
fn gain_at<L: Length>(longest: L, around: L, into: L, from: L, weight: u64) -> Gain
    requires fits { L.value into + L.value from < L.limit }
    requires around { L.value around ≤ L.value longest }
    requires through { L.value into + L.value from ≤ L.value longest }
    requires weight { weight ≤ L.value into + L.value from }
    ensures none { result.none
        ≡ L.value longest - max (L.value around) (L.value into + L.value from - weight) }
    ensures half { result.half ≡ L.value longest
        - max (L.value around) (L.value into + L.value from - (weight - weight / 2)) }
{
    let through = into.plus(from);
    Gain {
        none: loss_of(longest, around, through, weight),
        half: loss_of(longest, around, through, weight - weight / 2),
    }
}

/// Computes the gains of all vertices from lengths of the type `L`.
fn measure<L: Length + Drop>(alloc: Global, dag: &Dag) -> Result<Vec<Gain>, AllocError>
    requires fits { AllAreShorter dag.now L.limit }
    ensures entries { IfOk result (λ gains. length gains.items ≡ order_of dag.now) }
    ensures gains { IfOk result (λ gains. (v : ℕ) (d : Gain) → v < order_of dag.now
        → IsGain dag.now v (slice_index_or gains.items v d)) }
{
    let Lengths { from, longest } = lengths_from::<L>(alloc, dag)?;
    let into = lengths_into::<L>(alloc, dag)?;
    let around = lengths_around(alloc, dag, &into, &from)?;
    let weights = dag.weights();
    let mut gains = Vec::with_capacity(alloc, weights.len())?;
    'vertices: for vertex in 0..weights.len() {
        let gain = gain_at(
            longest,
            around[vertex],
            into[vertex],
            from[vertex],
            weights[vertex],
        );
        gains.push(gain)?;
    }
    Ok(gains)
}
