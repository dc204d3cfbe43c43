//! Lists of successors, and the lengths of chains.
use std::alloc::{AllocError, Global};
use std::test::Fail;
use weighted_dag::{Dag, NumberList, lengths_from};

/// Makes lists of the numbers.
fn lists(alloc: Global, of: &[&[u32]]) -> Result<Vec<NumberList>, AllocError> {
    let mut lists = Vec::with_capacity(alloc, of.len())?;
    for numbers in of {
        lists.push(NumberList::of(Vec::from_slice(alloc, numbers)?))?;
    }
    Ok(lists)
}

#[test]
fn finished_lists_form_a_graph_where_they_rise_to_later_vertices(
    rt: HostRuntime,
) -> Result<(), Fail> {
    let rows: [(&[&[u32]], bool); 7] = [
        (&[&[1, 2], &[2], &[]], true),
        (&[&[], &[], &[]], true),
        (&[&[1, 2], &[2]], false),
        (&[&[2, 1], &[2], &[]], false),
        (&[&[1, 1], &[2], &[]], false),
        (&[&[1], &[1], &[]], false),
        (&[&[1], &[3], &[]], false),
    ];
    for (of, fits) in rows {
        let successors = lists(rt.alloc(), of)?;
        assert_eq!(rt; Dag::fits(&[4, 5, 6], &successors), fits);
    }
    Ok(())
}

#[test]
fn a_graph_of_finished_lists_has_them(rt: HostRuntime) -> Result<(), Fail> {
    let weights = vec![in rt.alloc(); 4u64, 5, 6]?;
    let successors = lists(rt.alloc(), &[&[1, 2], &[2], &[]])?;
    assert!(rt; Dag::fits(&weights, &successors));
    let dag = Dag::of(weights, successors);
    assert_eq!(rt; dag.weights(), [4u64, 5, 6].as_slice());
    assert_eq!(rt; dag.total(), 15);
    assert_eq!(rt; dag.successors(0), [1u32, 2].as_slice());
    let list = NumberList::of(Vec::from_slice(rt.alloc(), dag.successors(0))?);
    assert_eq!(rt; list.into_items().as_slice(), [1u32, 2].as_slice());
    if dag.total() < 1 << 64 {
        let lengths = lengths_from::<u64>(rt.alloc(), &dag)?;
        assert_eq!(rt; lengths.from.as_slice(), [15u64, 11, 6].as_slice());
        assert_eq!(rt; lengths.longest, 15);
    }
    Ok(())
}
