use crate::plain::{
    SMALL, chains, edges_in, edges_of, first_longest, graph, kept_edges, slack, weights_of,
};
use critical_path::critical;
use slack::{longest_and_slacks, slacks};
use std::alloc::{AllocError, Global};
use std::test::Fail;
use weighted_dag::{Dag, lengths_from, longest_length, reduce};

/// A graph and what the kernels answer of it.
#[derive(Drop)]
struct Row {
    weights: &'static [u64],
    edges: &'static [(u32, u32)],
    kept: &'static [(u32, u32)],
    /// The greatest length from each vertex.
    from: &'static [u128],
    /// The critical path.
    vertices: &'static [u32],
    length: u128,
    slacks: &'static [u128],
}

const DIAMOND: [(u32, u32); 5] = [(0, 1), (0, 2), (0, 3), (1, 3), (2, 3)];

const DIAMOND_KEPT: [(u32, u32); 4] = [(0, 1), (0, 2), (1, 3), (2, 3)];

const ROWS: [Row; 10] = [
    Row {
        weights: &[5, 4, 10, 3],
        edges: &DIAMOND,
        kept: &DIAMOND_KEPT,
        from: &[18, 7, 13, 3],
        vertices: &[0, 2, 3],
        length: 18,
        slacks: &[0, 6, 0, 0],
    },
    // of two equal chains the first
    Row {
        weights: &[5, 10, 10, 3],
        edges: &DIAMOND,
        kept: &DIAMOND_KEPT,
        from: &[18, 13, 13, 3],
        vertices: &[0, 1, 3],
        length: 18,
        slacks: &[0, 0, 0, 0],
    },
    // no weight, no vertex, one vertex
    Row {
        weights: &[0, 0, 0, 0],
        edges: &DIAMOND,
        kept: &DIAMOND_KEPT,
        from: &[0, 0, 0, 0],
        vertices: &[],
        length: 0,
        slacks: &[0, 0, 0, 0],
    },
    Row {
        weights: &[],
        edges: &[],
        kept: &[],
        from: &[],
        vertices: &[],
        length: 0,
        slacks: &[],
    },
    Row {
        weights: &[7],
        edges: &[],
        kept: &[],
        from: &[7],
        vertices: &[0],
        length: 7,
        slacks: &[0],
    },
    // two parts without an edge
    Row {
        weights: &[3, 4],
        edges: &[],
        kept: &[],
        from: &[3, 4],
        vertices: &[1],
        length: 4,
        slacks: &[1, 0],
    },
    // a vertex without weight at the start, but none at the end
    Row {
        weights: &[0, 6, 0],
        edges: &[(0, 1), (0, 2), (1, 2)],
        kept: &[(0, 1), (1, 2)],
        from: &[6, 6, 0],
        vertices: &[0, 1],
        length: 6,
        slacks: &[0, 0, 0],
    },
    // the heaviest next vertex is not on the critical path
    Row {
        weights: &[1, 9, 5, 6],
        edges: &[(0, 1), (0, 2), (2, 3)],
        kept: &[(0, 1), (0, 2), (2, 3)],
        from: &[12, 9, 11, 6],
        vertices: &[0, 2, 3],
        length: 12,
        slacks: &[0, 2, 0, 0],
    },
    // a path of three edges joins the ends of one, and the sum is the last that fits 64 bits
    Row {
        weights: &[u64::MAX - 3, 1, 1, 1],
        edges: &[(0, 1), (0, 3), (1, 2), (2, 3)],
        kept: &[(0, 1), (1, 2), (2, 3)],
        from: &[18_446_744_073_709_551_615, 3, 2, 1],
        vertices: &[0, 1, 2, 3],
        length: 18_446_744_073_709_551_615,
        slacks: &[0, 0, 0, 0],
    },
    // the sum passes 64 bits
    Row {
        weights: &[u64::MAX, 1, u64::MAX],
        edges: &[(0, 1), (0, 2)],
        kept: &[(0, 1), (0, 2)],
        from: &[36_893_488_147_419_103_230, 1, 18_446_744_073_709_551_615],
        vertices: &[0, 2],
        length: 36_893_488_147_419_103_230,
        slacks: &[0, 18_446_744_073_709_551_614, 0],
    },
];

/// Computes the greatest length from each vertex, in 64 bits where the sum of all weights fits.
fn lengths(alloc: Global, dag: &Dag) -> Result<Vec<u128>, AllocError> {
    if dag.total() < 1 << 64 {
        let narrow = lengths_from::<u64>(alloc, dag)?;
        let mut lengths = Vec::with_capacity(alloc, narrow.from.len())?;
        for length in &narrow.from {
            lengths.push(u128::from(*length))?;
        }
        Ok(lengths)
    } else {
        let wide = lengths_from::<u128>(alloc, dag)?;
        Ok(wide.from)
    }
}

#[test]
fn worked_graphs_have_these_answers(rt: HostRuntime) -> Result<(), Fail> {
    for row in &ROWS {
        let dag = graph(rt.alloc(), row.weights, row.edges)?;
        assert_eq!(rt; edges_in(rt.alloc(), &dag)?.as_slice(), row.edges);
        let reduced = reduce(rt.alloc(), &dag)?;
        assert_eq!(rt; reduced.weights(), row.weights);
        assert_eq!(rt; edges_in(rt.alloc(), &reduced)?.as_slice(), row.kept);
        assert_eq!(rt;
            longest_length(rt.alloc(), &dag, dag.weights())?,
            row.length
        );
        assert_eq!(rt; lengths(rt.alloc(), &dag)?.as_slice(), row.from);
        let chain = critical(rt.alloc(), &dag)?;
        assert_eq!(rt; chain.vertices.items(), row.vertices);
        assert_eq!(rt; chain.length, row.length);
        let table = longest_and_slacks(rt.alloc(), &dag)?;
        assert_eq!(rt; table.slacks.as_slice(), row.slacks);
        assert_eq!(rt; table.longest, row.length);
    }
    Ok(())
}

#[test]
fn small_graphs_have_the_answers_of_the_definitions(rt: HostRuntime) -> Result<(), Fail> {
    for (count, edge_sets, weightings) in SMALL {
        for number in 0..edge_sets {
            let edges = edges_of(rt.alloc(), number)?;
            let all = chains(rt.alloc(), count as usize, &edges)?;
            for weighting in 0..weightings {
                let weights = weights_of(rt.alloc(), count, weighting)?;
                let dag = graph(rt.alloc(), &weights, &edges)?;
                let chain = critical(rt.alloc(), &dag)?;
                assert_eq!(rt;
                    chain.vertices.items(),
                    first_longest(&weights, &all),
                    "{weights:?} {edges:?}"
                );
                for (vertex, found) in slacks(rt.alloc(), &dag)?.iter().enumerate() {
                    assert_eq!(rt;
                        *found,
                        slack(rt.alloc(), &weights, &all, vertex)?,
                        "{weights:?} {edges:?}"
                    );
                }
            }
            let dag = graph(rt.alloc(), &weights_of(rt.alloc(), count, 0)?, &edges)?;
            let kept = kept_edges(rt.alloc(), &edges_in(rt.alloc(), &dag)?, &all)?;
            let reduced = reduce(rt.alloc(), &dag)?;
            assert_eq!(rt;
                edges_in(rt.alloc(), &reduced)?.as_slice(),
                kept.as_slice(),
                "{edges:?}"
            );
        }
    }
    Ok(())
}

/// Lists the edges from each of so many vertices to those at most `reach` further.
fn edges_up_to(alloc: Global, count: u32, reach: u32) -> Result<Vec<(u32, u32)>, AllocError> {
    let mut edges = Vec::new(alloc);
    for from in 0..count {
        for to in from.saturating_add(1)..count.min(from.saturating_add(reach).saturating_add(1)) {
            edges.push((from, to))?;
        }
    }
    Ok(edges)
}

#[test]
fn a_full_graph_and_a_path_are_one_chain(rt: HostRuntime) -> Result<(), Fail> {
    for (count, reach) in [(512u32, 512u32), (4096, 1)] {
        let weights = vec![in rt.alloc(); 2u64; count as usize]?;
        let dag = graph(
            rt.alloc(),
            &weights,
            &edges_up_to(rt.alloc(), count, reach)?,
        )?;
        let reduced = reduce(rt.alloc(), &dag)?;
        let path = edges_up_to(rt.alloc(), count, 1)?;
        assert_eq!(rt; edges_in(rt.alloc(), &reduced)?.as_slice(), path.as_slice());
        let chain = critical(rt.alloc(), &dag)?;
        assert_eq!(rt; chain.vertices.items().len(), count as usize);
        assert_eq!(rt; chain.length, 2 * u128::from(count));
        assert!(rt; slacks(rt.alloc(), &dag)?.iter().all(|n| *n == 0));
    }
    Ok(())
}
