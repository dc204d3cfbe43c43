use std::alloc::{AllocError, Global};
use weighted_dag::Dag;

/// The pairs of vertices between which an edge may lead, those of fewer vertices first.
const PAIRS: [(u32, u32); 6] = [(0, 1), (0, 2), (1, 2), (0, 3), (1, 3), (2, 3)];

/// How many vertices, sets of edges and lists of weights up to 2 the small graphs have.
pub(crate) const SMALL: [(u32, u32, u32); 5] = [
    (0, 1, 1),
    (1, 1, 3),
    (2, 2, 9),
    (3, 8, 27),
    (4, 64, 81),
];

/// Lists the pairs whose bits are set in the number.
pub(crate) fn edges_of(alloc: Global, number: u32) -> Result<Vec<(u32, u32)>, AllocError> {
    let mut edges = Vec::with_capacity(alloc, PAIRS.len())?;
    let mut rest = number;
    for pair in PAIRS {
        if rest % 2 == 1 {
            edges.push(pair)?;
        }
        rest /= 2;
    }
    Ok(edges)
}

/// Lists so many weights from 0 to 2, the digits of the number to the base 3.
pub(crate) fn weights_of(alloc: Global, count: u32, number: u32) -> Result<Vec<u64>, AllocError> {
    let mut weights = Vec::with_capacity(alloc, count as usize)?;
    let mut rest = number;
    for _ in 0..count {
        weights.push(u64::from(rest % 3))?;
        rest /= 3;
    }
    Ok(weights)
}

/// Makes the graph with these weights and those of the edges that it can take, in their order.
pub(crate) fn graph(
    alloc: Global,
    weights: &[u64],
    edges: &[(u32, u32)],
) -> Result<Dag, AllocError> {
    let count = weights.len().min(100_000);
    let mut dag = Dag::new(alloc, Vec::from_slice(alloc, &weights[..count])?)?;
    for (from, to) in edges {
        let (from, to) = (*from, *to);
        if from < to
            && (to as usize) < dag.weights().len()
            && dag.successors(from).iter().all(|s| *s < to)
        {
            dag.edge(from, to)?;
        }
    }
    Ok(dag)
}

/// Lists the edges of a graph, by their ends.
pub(crate) fn edges_in(alloc: Global, dag: &Dag) -> Result<Vec<(u32, u32)>, AllocError> {
    let mut edges = Vec::new(alloc);
    for from in 0..dag.weights().len() {
        for to in dag.successors(from as u32) {
            edges.push((from as u32, *to))?;
        }
    }
    Ok(edges)
}

/// Lists the numbers below 4 whose bits are set in the number.
fn members(alloc: Global, number: u32) -> Result<Vec<u32>, AllocError> {
    let mut list = Vec::with_capacity(alloc, 4)?;
    for vertex in 0..4 {
        if (number >> vertex) & 1 == 1 {
            list.push(vertex)?;
        }
    }
    Ok(list)
}

/// Tells whether an edge leads from each member of the list to the next.
fn is_path(edges: &[(u32, u32)], list: &[u32]) -> bool {
    let mut before = None;
    for vertex in list {
        if let Some(from) = before
            && !edges.contains(&(from, *vertex))
        {
            return false;
        }
        before = Some(*vertex);
    }
    true
}

/// Lists all chains of the graph, of which each is a set of vertices in rising order.
pub(crate) fn chains(
    alloc: Global,
    count: usize,
    edges: &[(u32, u32)],
) -> Result<Vec<Vec<u32>>, AllocError> {
    let mut all = Vec::with_capacity(alloc, 16)?;
    for number in 0..16 {
        let list = members(alloc, number)?;
        if list.iter().all(|v| (*v as usize) < count) && is_path(edges, &list) {
            all.push(list)?;
        }
    }
    Ok(all)
}

/// Lists the edges of the reduced graph, straight from the definition, in the order given.
pub(crate) fn kept_edges(
    alloc: Global,
    edges: &[(u32, u32)],
    chains: &[Vec<u32>],
) -> Result<Vec<(u32, u32)>, AllocError> {
    let mut kept = Vec::with_capacity(alloc, edges.len())?;
    for (from, to) in edges {
        let has_detour = chains.iter().any(|c| c.len() > 2
            && c.first() == Some(from)
            && c.last() == Some(to));
        if !has_detour {
            kept.push((*from, *to))?;
        }
    }
    Ok(kept)
}

/// Adds the weights of the vertices.
fn length(weights: &[u64], list: &[u32]) -> u128 {
    let mut sum: u128 = 0;
    for vertex in list {
        sum = sum.wrapping_add(u128::from(weights.get(*vertex as usize).copied().unwrap_or(0)));
    }
    sum
}

/// Finds the first of the longest chains, straight from the definition.
pub(crate) fn first_longest<'a>(weights: &[u64], chains: &'a [Vec<u32>]) -> &'a [u32] {
    let mut best: &[u32] = &[];
    for chain in chains {
        let here = length(weights, chain);
        let most = length(weights, best);
        if here > most || here == most && chain.as_slice() < best {
            best = chain;
        }
    }
    best
}

/// Computes the slack of a vertex, straight from the definition: the greatest growth up to 9 with
/// which the longest length stays.
pub(crate) fn slack(
    alloc: Global,
    weights: &[u64],
    chains: &[Vec<u32>],
    vertex: usize,
) -> Result<u128, AllocError> {
    let most = length(weights, first_longest(weights, chains));
    let mut greatest = 0;
    for growth in 0..10 {
        let mut raised = Vec::from_slice(alloc, weights)?;
        if let Some(weight) = raised.get_mut(vertex) {
            *weight = weight.wrapping_add(growth);
        }
        if length(&raised, first_longest(&raised, chains)) == most {
            greatest = u128::from(growth);
        }
    }
    Ok(greatest)
}
