use crate::inputs::{are_below, cut_traces, name_traces};
use crate::worked_inputs::push_request;
use model_meet::{Counts, Model};
use pipeline_tests::DaySheet;
use segment_names::Catalogue;
use std::alloc::{AllocError, Global};
use std::rt::HostRuntime;
use std::test::Fail;
use std::thread::Threads;
use trace_types::{Event, NamedTrace};

/// Makes a trace of one task with so many events, a microsecond apart.
fn one_task(alloc: Global, count: u64) -> Result<Vec<Event>, AllocError> {
    let mut events = Vec::new(alloc);
    for time in 0..count {
        let name = format!(in alloc; "e{time}")?;
        push_request(&mut events, alloc, "r1", &[("a", name.as_str(), time)])?;
    }
    Ok(events)
}

/// Counts the lines of the model of named traces.
fn count_named(alloc: Global, catalogue: &Catalogue, named: Vec<NamedTrace>) -> Option<Counts> {
    let count = catalogue.names();
    if count > 512 || !are_below(&named, count) {
        return None;
    }
    let sheet = DaySheet::plain(alloc, named, count).ok()?;
    let model = Model::new(sheet.words().words(), count);
    Some(model.counts(catalogue.tasks().min(64)))
}

/// Counts the lines of the model of events; none where a trace is refused or a limit is passed.
fn count_lines<R: Threads + Sync>(rt: &R, alloc: Global, events: Vec<Event>) -> Option<Counts> {
    let traces = cut_traces(rt, alloc, events)?;
    let (catalogue, named) = name_traces(alloc, traces, 0)?;
    count_named(alloc, &catalogue, named)
}

#[test]
fn one_task_has_513_events_at_most(rt: HostRuntime) -> Result<(), Fail> {
    let alloc = rt.alloc();
    let most = count_lines(&rt, alloc, one_task(alloc, 513)?);
    let all = Counts {
        hb: 130_816,
        mx: 0,
        pipe: 0,
    };
    assert!(rt; most == Some(all));
    assert!(rt; count_lines(&rt, alloc, one_task(alloc, 514)?) == None);
    Ok(())
}
