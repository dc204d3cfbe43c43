use crate::inputs::{are_below, are_few, cut_traces, name_traces};
use crate::model_texts::{plain_relations_text, relations_text};
use crate::plain::plain_model;
use crate::worked_inputs::push_request;
use pipeline_tests::DaySheet;
use std::alloc::Global;
use std::rt::HostRuntime;
use std::test::Fail;
use std::thread::Threads;
use trace_types::{Event, Trace};

/// The tasks and events of a made-up request.
const EVENTS: [(&str, &str); 8] = [
    ("a", "s"),
    ("a", "e"),
    ("b", "s"),
    ("b", "m"),
    ("b", "e"),
    ("c", "s"),
    ("c", "m"),
    ("c", "e"),
];

/// Makes the events of some requests with times from 0 to 15, drawn from a seed.
fn drawn_events(alloc: Global, seed: u32, requests: &[&str]) -> Option<Vec<Event>> {
    let mut state = seed;
    let mut events = Vec::new(alloc);
    for request in requests {
        for (task, event) in &EVENTS {
            state = state.wrapping_mul(1_103_515_245).wrapping_add(12_345);
            let time = u64::from((state >> 16) % 16);
            push_request(&mut events, alloc, request, &[(task, event, time)]).ok()?;
        }
    }
    Some(events)
}

/// Tells the relations by the words that the traces leave.
fn told_by_words(alloc: Global, traces: Vec<Trace>) -> Option<String> {
    let (catalogue, named) = name_traces(alloc, traces, 0)?;
    let count = catalogue.names();
    if count > 512 || !are_below(&named, count) {
        return None;
    }
    let sheet = DaySheet::plain(alloc, named, count).ok()?;
    relations_text(alloc, &catalogue, sheet.words().words()).ok()
}

/// Tells the relations by asking every trace for each pair of names.
fn told_by_traces(alloc: Global, traces: &[Trace]) -> Option<String> {
    if !are_few(traces) {
        return None;
    }
    let model = plain_model(alloc, traces).ok()?;
    plain_relations_text(alloc, &model).ok()
}

/// Cuts the traces that a seed draws.
fn drawn_traces<R: Threads + Sync>(rt: &R, alloc: Global, seed: u32) -> Option<Vec<Trace>> {
    let events = drawn_events(alloc, seed, &["r1", "r2", "r3"])?;
    cut_traces(rt, alloc, events)
}

/// Tells whether the words that the traces leave tell this.
fn words_tell(alloc: Global, traces: Vec<Trace>, plain: &str) -> Option<bool> {
    let told = told_by_words(alloc, traces)?;
    Some(told.as_str() == plain)
}

/// Tells whether the words that the traces leave tell what the traces do.
fn tell_alike(alloc: Global, traces: Vec<Trace>) -> Option<bool> {
    let plain = told_by_traces(alloc, &traces)?;
    words_tell(alloc, traces, plain.as_str())
}

#[test]
fn words_tell_what_the_traces_do(rt: HostRuntime) -> Result<(), Fail> {
    let alloc = rt.alloc();
    for seed in 0..20u32 {
        let traces = drawn_traces(&rt, alloc, seed).expect(&rt, "traces");
        assert!(rt; tell_alike(alloc, traces) == Some(true));
    }
    Ok(())
}
