//! Traces of a batch, named by the numbers of their texts.
ghost use Rattle.std.specs.Prelude.{◌≡◌, ◌≤◌, IfOk, length};

use crate::batches::gather_one;
use event_table::{EventFields, EventTable, GatheredEvents, TextHints, Texts};
use segment_cut::{CutTrace, cut};
use segment_names::{Catalogue, Namer};
use std::alloc::{AllocError, Global};
use std::process::Abort;
use std::test::Fail;
use std::thread::Threads;
use trace_types::NamedTrace;

/// Appends an event by its request, its task, its name and its time.
fn push_event<'a>(
    alloc: Global,
    hints: &mut TextHints,
    table: &mut EventTable,
    request: &'a str,
    task: &'a str,
    event: &'a str,
    time: u64,
) -> Result<(), AllocError> {
    if table.len() >= 1000 {
        return Err(AllocError);
    }
    let line = table.len() as u32 + 1;
    let fields = EventFields {
        request,
        machine: "m",
        task,
        event,
        time,
        send: None,
        recv: None,
    };
    table.push(alloc, hints, line, &fields)
}

/// Appends the events of two traces: one of the tasks `b` and `a`, with a data element, and one of
/// the task `a` alone, whose second segment has a name that the first trace does not have.
fn push_two_traces(
    alloc: Global,
    hints: &mut TextHints,
    table: &mut EventTable,
) -> Result<(), AllocError> {
    push_event(alloc, hints, table, "r1", "b", "s@page", 5)?;
    push_event(alloc, hints, table, "r1", "a", "s", 6)?;
    push_event(alloc, hints, table, "r1", "b", "t@page", 7)?;
    push_event(alloc, hints, table, "r1", "a", "e", 8)?;
    push_event(alloc, hints, table, "r1", "b", "e", 9)?;
    push_event(alloc, hints, table, "r2", "a", "s", 10)?;
    push_event(alloc, hints, table, "r2", "a", "e", 11)?;
    push_event(alloc, hints, table, "r2", "a", "f", 12)
}

/// Makes the table of two traces.
fn two_traces(alloc: Global) -> Result<EventTable, AllocError> {
    let mut hints = TextHints::new(alloc)?;
    let mut table = EventTable::new(alloc);
    push_two_traces(alloc, &mut hints, &mut table)?;
    Ok(table)
}

/// Cuts the trace with this index, if it is valid.
fn cut_trace<'a>(
    alloc: Global,
    gathered: &'a GatheredEvents,
    index: usize,
) -> Result<CutTrace<'a>, AllocError>
    ensures texts { IfOk result (λ c. c.texts ≡ gathered.now.texts) }
    ensures few { IfOk result (λ c. length c.trace.segments ≤ 4096) }
{
    if index >= gathered.len() {
        return Err(AllocError);
    }
    let raw = gathered.trace(index);
    if raw.len() > 4096 || !raw.is_timely() {
        return Err(AllocError);
    }
    match cut(alloc, &raw) {
        Ok(trace) => Ok(trace),
        Err(_fault) => Err(AllocError),
    }
}

/// Tells whether these are the names, the tasks and the elements of the trace.
fn has_numbers(named: &NamedTrace, numbers: &[(u32, u32, Option<u32>)]) -> bool {
    let segments = named.segments.items();
    segments.len() == numbers.len()
        && segments.iter().zip(numbers).all(|(s, (name, task, element))| {
            s.name == *name && s.task == *task && s.element == *element
        })
}

/// Tells whether the first trace is named as it should be, and the second is not named.
fn is_first_named(
    alloc: Global,
    namer: &mut Namer<'_>,
    first: &CutTrace<'_>,
    second: &CutTrace<'_>,
) -> Result<bool, AllocError>
    requires first { first.now.texts ≡ namer.old.texts }
    requires few { length first.now.trace.segments ≤ 4096 }
    requires second { second.now.texts ≡ namer.old.texts }
    requires second_few { length second.now.trace.segments ≤ 4096 }
    ensures { namer.new ≡ namer.old }
{
    let named = namer.name(alloc, first)?;
    let other = namer.name(alloc, second)?;
    Ok(
        match named {
            Some(named) => {
                named.request.as_str() == "r1"
                    && named.day == 0
                    && named.latency == 4
                    && named.grace == 0
                    && has_numbers(&named, &[(0, 0, Some(0)), (1, 0, Some(0)), (2, 1, None)])
            }
            None => false,
        } && other.is_none(),
    )
}

/// Tells whether the first trace is named as it should be, once its names are looked up and once
/// they are remembered.
fn is_named_twice(
    alloc: Global,
    catalogue: &Catalogue,
    texts: &Texts,
    first: &CutTrace<'_>,
    second: &CutTrace<'_>,
) -> Result<bool, AllocError>
    requires first { first.now.texts ≡ texts.now }
    requires few { length first.now.trace.segments ≤ 4096 }
    requires second { second.now.texts ≡ texts.now }
    requires second_few { length second.now.trace.segments ≤ 4096 }
{
    let mut namer = Namer::new(alloc, catalogue, texts)?;
    let once = is_first_named(alloc, &mut namer, first, second)?;
    let twice = is_first_named(alloc, &mut namer, first, second)?;
    Ok(once && twice)
}

/// Makes the catalogue of the names of a trace, unless they are too many.
fn catalogue_of(alloc: Global, trace: &CutTrace<'_>) -> Result<Option<Catalogue>, AllocError>
    requires { length trace.now.trace.segments ≤ 4096 }
{
    let mut catalogue = Catalogue::new(alloc);
    if catalogue.add(alloc, &trace.copy(alloc)?).is_err() {
        return Ok(None);
    }
    Ok(Some(catalogue))
}

/// Tells whether the first trace is named by a catalogue that has its names alone.
fn is_named_by_own(
    alloc: Global,
    texts: &Texts,
    first: &CutTrace<'_>,
    second: &CutTrace<'_>,
) -> Result<bool, AllocError>
    requires first { first.now.texts ≡ texts.now }
    requires few { length first.now.trace.segments ≤ 4096 }
    requires second { second.now.texts ≡ texts.now }
    requires second_few { length second.now.trace.segments ≤ 4096 }
{
    match catalogue_of(alloc, first)? {
        Some(catalogue) => is_named_twice(alloc, &catalogue, texts, first, second),
        None => Ok(false),
    }
}

/// Tells whether the first trace of a batch is named by a catalogue that has its names alone.
fn is_named_by_numbers(alloc: Global, gathered: &GatheredEvents) -> Result<bool, AllocError> {
    let first = cut_trace(alloc, gathered, 0)?;
    let second = cut_trace(alloc, gathered, 1)?;
    is_named_by_own(alloc, gathered.texts(), &first, &second)
}

/// Gathers the events of two traces.
fn two_gathered<R: Abort + AllocGlobal + Threads + Sync>(rt: &R) -> Result<GatheredEvents, Fail> {
    let table = two_traces(rt.alloc())?;
    assert!(rt; table.len() <= 1000);
    Ok(gather_one(rt, rt.alloc(), table)?)
}

#[test]
fn a_trace_of_a_batch_is_named_by_its_numbers(rt: HostRuntime) -> Result<(), Fail> {
    let gathered = two_gathered(&rt)?;
    let told = is_named_by_numbers(rt.alloc(), &gathered)?;
    assert!(rt; told);
    Ok(())
}
