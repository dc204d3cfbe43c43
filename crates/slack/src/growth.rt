ghost use Rattle.std.specs.Prelude.{◌≡◌, ◌+◌, EachIndex, length, slice_index, IfOk};
ghost use Rattle.weighted_dag.specs.Graphs.{order_of};
ghost use Rattle.weighted_dag.specs.Chains.{AllAreShorter, IsLongestLength};
ghost use Rattle.weighted_dag.specs.Slacks.{IsSlack, KeepsLongest};

use crate::forward::lengths_into;
use std::alloc::{AllocError, Global};
use weighted_dag::{Dag, Length, Lengths, lengths_from};

/// The longest length of a graph and the slack of each vertex.
#[derive(Drop)]
pub struct SlackTable {
    /// The longest length.
    pub longest: u128,
    /// The slack of each vertex, by its number.
    pub slacks: Vec<u128>,
}

/// Computes the slack of each vertex, by its number: the greatest amount by which its weight can
/// rise so that the longest length of the graph stays (M. Chow et al., "The Mystery Machine",
/// OSDI 2014, section 3.4).
pub fn slacks(alloc: Global, dag: &Dag) -> Result<Vec<u128>, AllocError>
    ensures entries { IfOk result (λ slacks. length slacks.items ≡ order_of dag.now) }
    ensures slack { IfOk result
        (λ slacks. EachIndex dag.now.weights
        (λ v. IsSlack dag.now v (slice_index slacks.items v))) }
    ensures one_more_moves { IfOk result
        (λ slacks. EachIndex dag.now.weights
        (λ v. ¬ KeepsLongest dag.now v (slice_index slacks.items v + 1))) }
{
    let table = longest_and_slacks(alloc, dag)?;
    Ok(table.slacks)
}

/// Computes the longest length together with all slacks, in one pass over the edges from the last
/// vertex to the first and one from the first to the last.
pub fn longest_and_slacks(alloc: Global, dag: &Dag) -> Result<SlackTable, AllocError>
    ensures longest { IfOk result (λ table. IsLongestLength dag.now table.longest) }
    ensures entries { IfOk result (λ table. length table.slacks.items ≡ order_of dag.now) }
    ensures slack { IfOk result
        (λ table. EachIndex dag.now.weights
        (λ v. IsSlack dag.now v (slice_index table.slacks.items v))) }
    ensures one_more_moves { IfOk result
        (λ table. EachIndex dag.now.weights
        (λ v. ¬ KeepsLongest dag.now v (slice_index table.slacks.items v + 1))) }
{
    if dag.total() < 1 << 64 {
        measure::<u64>(alloc, dag)
    } else {
        measure::<u128>(alloc, dag)
    }
}

/// Computes the longest length and all slacks from lengths of the type `L`.
fn measure<L: Length + Drop>(alloc: Global, dag: &Dag) -> Result<SlackTable, AllocError>
    requires fits { AllAreShorter dag.now L.limit }
    ensures longest { IfOk result (λ table. IsLongestLength dag.now table.longest) }
    ensures entries { IfOk result (λ table. length table.slacks.items ≡ order_of dag.now) }
    ensures slack { IfOk result
        (λ table. EachIndex dag.now.weights
        (λ v. IsSlack dag.now v (slice_index table.slacks.items v))) }
    ensures one_more_moves { IfOk result
        (λ table. EachIndex dag.now.weights
        (λ v. ¬ KeepsLongest dag.now v (slice_index table.slacks.items v + 1))) }
{
    let Lengths { from, longest } = lengths_from::<L>(alloc, dag)?;
    let into = lengths_into::<L>(alloc, dag)?;
    let mut slacks = Vec::with_capacity(alloc, into.len())?;
    'vertices: for vertex in 0..into.len() {
        let through = into[vertex].plus(from[vertex]);
        let slack = longest.minus(through);
        slacks.push(slack.to_u128())?;
    }
    Ok(SlackTable {
        longest: longest.to_u128(),
        slacks,
    })
}
