use path_gains::{Gain, gains};
use std::alloc::{AllocError, Global};
use std::test::Fail;
use weighted_dag::{Dag, NumberList};

/// Computes the gains of the graph with these weights and lists of successors; none where the lists
/// form no graph.
fn gains_of(
    alloc: Global,
    weights: &[u64],
    successors: &[&[u32]],
) -> Result<Vec<Gain>, AllocError> {
    let mut lists = Vec::with_capacity(alloc, successors.len())?;
    for numbers in successors {
        lists.push(NumberList::of(Vec::from_slice(alloc, numbers)?))?;
    }
    if !Dag::fits(weights, &lists) {
        return Ok(Vec::new(alloc));
    }
    let dag = Dag::of(Vec::from_slice(alloc, weights)?, lists);
    gains(alloc, &dag)
}

/// A gain with no weight and with half.
fn gain(none: u128, half: u128) -> Gain {
    Gain { none, half }
}

#[test]
fn a_vertex_gains_no_more_than_the_second_way_allows(rt: HostRuntime) -> Result<(), Fail> {
    let told = gains_of(rt.alloc(), &[5, 10, 4, 3], &[&[1, 2], &[3], &[3], &[]])?;
    let wanted = [gain(5, 3), gain(6, 5), gain(0, 0), gain(3, 2)];
    assert_eq!(rt; told.as_slice(), wanted.as_slice());
    Ok(())
}

#[test]
fn a_vertex_on_the_only_longest_way_gains_its_weight(rt: HostRuntime) -> Result<(), Fail> {
    let told = gains_of(rt.alloc(), &[5, 10, 8, 3], &[&[1, 3], &[2], &[3], &[]])?;
    let wanted = [gain(5, 3), gain(10, 5), gain(8, 4), gain(3, 2)];
    assert_eq!(rt; told.as_slice(), wanted.as_slice());
    Ok(())
}

#[test]
fn a_chain_may_end_before_the_vertex_or_begin_after_it(rt: HostRuntime) -> Result<(), Fail> {
    let told = gains_of(rt.alloc(), &[7, 10, 6], &[&[], &[], &[]])?;
    let wanted = [gain(0, 0), gain(3, 3), gain(0, 0)];
    assert_eq!(rt; told.as_slice(), wanted.as_slice());
    Ok(())
}

#[test]
fn a_graph_without_vertices_has_no_gains(rt: HostRuntime) -> Result<(), Fail> {
    let told = gains_of(rt.alloc(), &[], &[])?;
    assert!(rt; told.is_empty());
    Ok(())
}
