ghost use Rattle.std.specs.Prelude.{◌≡◌, IfOk};
ghost use Rattle.weighted_dag.specs.Chains.{AllAreShorter, IsChain, chain_length, NoneIsLonger};
ghost use Rattle.weighted_dag.specs.Chains.{NoLongestIsBefore};
ghost use Rattle.critical_path.specs.inner.Walks.{IsFirstLongest};

use crate::chain::Chain;
use crate::walk::walk;
use std::alloc::{AllocError, Global};
use weighted_dag::{Dag, Length, NumberList, lengths_from};

/// Finds the critical path of a graph and its length: of its longest chains the first in
/// lexicographic order, where a prefix comes before the list. So a graph without weights above 0
/// has the empty chain.
///
/// The critical path is that of M. Chow et al., "The Mystery Machine", OSDI 2014, section 3.4; the
/// order among equal chains is this project's own. It takes one pass over the edges.
pub fn critical(alloc: Global, dag: &Dag) -> Result<Chain, AllocError>
    ensures chain { IfOk result (λ c. IsChain dag.now c.vertices) }
    ensures longest { IfOk result (λ c. NoneIsLonger dag.now (chain_length dag.now c.vertices)) }
    ensures first { IfOk result (λ c. NoLongestIsBefore dag.now c.vertices) }
    ensures length { IfOk result (λ c. c.length ≡ chain_length dag.now c.vertices) }
{
    if dag.total() < 1 << 64 {
        first_longest::<u64>(alloc, dag)
    } else {
        first_longest::<u128>(alloc, dag)
    }
}

/// Finds the first longest chain by lengths of the type `L`.
fn first_longest<L: Length + Drop>(alloc: Global, dag: &Dag) -> Result<Chain, AllocError>
    requires fits { AllAreShorter dag.now L.limit }
    ensures { IfOk result (λ c. IsFirstLongest dag.now c.length c.vertices) }
{
    let lengths = lengths_from::<L>(alloc, dag)?;
    let vertices = walk(alloc, dag, &lengths.from, lengths.longest)?;
    Ok(Chain {
        vertices: NumberList::of(vertices),
        length: lengths.longest.to_u128(),
    })
}
