use crate::inputs::{are_below, cut_traces, is_below, name_traces};
use crate::worked_inputs::push_request;
use critical_path::critical;
use model_meet::Model;
use pipeline_tests::DaySheet;
use slack::slacks;
use std::alloc::{AllocError, Global};
use std::rt::HostRuntime;
use std::test::Fail;
use std::thread::Threads;
use trace_graph::{OrderedGraph, graph};
use trace_types::{NamedTrace, Trace};
use weighted_dag::{Dag, reduce};

/// Makes the graph of the first of these traces; none where a name is not below this number.
fn graph_of_named(alloc: Global, named: Vec<NamedTrace>, count: u32) -> Option<OrderedGraph> {
    if count > 512 || !are_below(&named, count) {
        return None;
    }
    let sheet = DaySheet::plain(alloc, named, count).ok()?;
    let model = Model::new(sheet.words().words(), count);
    let trace = sheet.traces().first()?;
    if !is_below(trace, count) {
        return None;
    }
    graph(alloc, trace, &model).ok()
}

/// Cuts the only trace of these events.
fn cut_request<R: Threads + Sync>(
    rt: &R,
    alloc: Global,
    events: &[(&str, &str, u64)],
) -> Option<Vec<Trace>> {
    let mut all = Vec::new(alloc);
    push_request(&mut all, alloc, "r1", events).ok()?;
    cut_traces(rt, alloc, all)
}

/// Makes the graph of the only trace of these events, which has this grace, in nanoseconds.
fn graph_of<R: Threads + Sync>(
    rt: &R,
    alloc: Global,
    events: &[(&str, &str, u64)],
    grace: u64,
) -> Option<OrderedGraph> {
    let traces = cut_request(rt, alloc, events)?;
    let (catalogue, named) = name_traces(alloc, traces, grace)?;
    graph_of_named(alloc, named, catalogue.names())
}

/// A segment, two that start at its end, and one that starts when the longer of these ends.
const TWO_WAYS: [(&str, &str, u64); 8] = [
    ("a", "s", 0),
    ("a", "e", 5),
    ("b", "s", 5),
    ("b", "e", 15),
    ("c", "s", 5),
    ("c", "e", 9),
    ("d", "s", 15),
    ("d", "e", 18),
];

/// Tells whether the critical path of a graph has these vertices and this length.
fn is_critical(
    alloc: Global,
    dag: &Dag,
    vertices: &[u32],
    length: u128,
) -> Result<bool, AllocError> {
    let chain = critical(alloc, dag)?;
    Ok(chain.vertices.items() == vertices && chain.length == length)
}

/// Tells whether these are the slacks of a graph.
fn are_slacks(alloc: Global, dag: &Dag, expected: &[u128]) -> Result<bool, AllocError> {
    let slacks = slacks(alloc, dag)?;
    Ok(slacks.as_slice() == expected)
}

/// Tells whether a graph is reduced to two ways from the first of four vertices to the last.
fn is_reduced(alloc: Global, dag: &Dag) -> Result<bool, AllocError> {
    let reduced = reduce(alloc, dag)?;
    Ok(
        reduced.weights().len() == 4
            && reduced.successors(0) == [1, 2].as_slice()
            && reduced.successors(1) == [3].as_slice()
            && reduced.successors(2) == [3].as_slice(),
    )
}

#[test]
fn longer_of_two_ways_is_critical(rt: HostRuntime) -> Result<(), Fail> {
    let alloc = rt.alloc();
    let graph = graph_of(&rt, alloc, &TWO_WAYS, 0).expect(&rt, "graph");
    assert!(rt; graph.order.items() == [0, 2, 1, 3].as_slice());
    assert!(rt; graph.dag.weights() == [5000, 4000, 10000, 3000].as_slice());
    assert!(rt; is_critical(alloc, &graph.dag, &[0, 2, 3], 18000)?);
    assert!(rt; are_slacks(alloc, &graph.dag, &[0, 6000, 0, 0])?);
    assert!(rt; is_reduced(alloc, &graph.dag)?);
    Ok(())
}

#[test]
fn equal_segments_stand_by_index(rt: HostRuntime) -> Result<(), Fail> {
    let alloc = rt.alloc();
    let events = [("a", "s", 5), ("a", "e", 5), ("b", "s", 5), ("b", "e", 5)];
    let graph = graph_of(&rt, alloc, &events, 0).expect(&rt, "graph");
    assert!(rt; graph.dag.weights() == [0, 0].as_slice());
    assert!(rt; graph.order.items() == [0, 1].as_slice());
    assert!(rt; graph.dag.successors(0) == [1].as_slice());
    assert!(rt; is_critical(alloc, &graph.dag, &[], 0)?);
    Ok(())
}

/// The length of the critical path of the only trace of these events, which has this grace.
fn critical_length<R: Threads + Sync>(
    rt: &R,
    alloc: Global,
    events: &[(&str, &str, u64)],
    grace: u64,
) -> Option<u128> {
    let graph = graph_of(rt, alloc, events, grace)?;
    let chain = critical(alloc, &graph.dag).ok()?;
    Some(chain.length)
}

#[test]
fn grace_lets_segments_overlap(rt: HostRuntime) -> Result<(), Fail> {
    let events = [("a", "s", 0), ("a", "e", 100), ("b", "s", 1), ("b", "e", 5)];
    let with = critical_length(&rt, rt.alloc(), &events, 10_000);
    assert!(rt; with == Some(104_000));
    let without = critical_length(&rt, rt.alloc(), &events, 0);
    assert!(rt; without == Some(100_000));
    Ok(())
}
