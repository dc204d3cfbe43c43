//! Texts and messages of tables of events, by their numbers.
use crate::gathering::are_traces_of;
use crate::plain_events::{PlainEvent, TEXTS, is_number_of, table_of, text_of};
use event_table::{EventTable, GatheredEvents, RawEvents, TextHints, are_few, gather};
use std::alloc::{AllocError, Global};
use std::process::Abort;
use std::test::Fail;
use std::thread::Threads;

/// Makes the event of a machine: its text has this index.
fn event_on(machine: usize) -> PlainEvent {
    PlainEvent {
        line: 1,
        time: 0,
        request: 0,
        machine,
        task: 0,
        send: None,
        recv: None,
    }
}

/// Makes an event of each of these machines.
fn events_on(alloc: Global, machines: &[usize]) -> Result<Vec<PlainEvent>, AllocError> {
    let mut events = Vec::with_capacity(alloc, machines.len())?;
    for machine in machines {
        events.push(event_on(*machine))?;
    }
    Ok(events)
}

/// Gathers a part with an event of each of these machines.
fn gather_on<R: Abort + Threads + Sync>(
    rt: &R,
    alloc: Global,
    hints: &mut TextHints,
    machines: &[usize],
) -> Result<GatheredEvents, AllocError> {
    let events = events_on(alloc, machines)?;
    let parts = vec![in alloc; table_of(rt, alloc, hints, &events)?]?;
    assert!(rt; are_few(&parts));
    gather(rt, alloc, parts, 1)
}

/// Tells whether the only trace has these machines, numbered by first sight.
fn are_by_first_sight(
    alloc: Global,
    trace: &RawEvents<'_>,
    machines: &[usize],
) -> Result<bool, AllocError> {
    let mut seen: Vec<usize> = Vec::new(alloc);
    if trace.len() != machines.len() {
        return Ok(false);
    }
    for at in 0..trace.len() {
        let machine = machines[at];
        if !seen.contains(&machine) {
            seen.push(machine)?;
        }
        let number = trace.machine(at);
        let place = seen.iter().position(|known| *known == machine);
        let texts = trace.texts().machines();
        if place != Some(number as usize) || !is_number_of(texts, number, text_of(machine)) {
            return Ok(false);
        }
    }
    Ok(trace.texts().machines().len() == seen.len())
}

/// Asserts that the machines of a part are numbered by first sight.
fn assert_by_first_sight<R: Abort + Threads + Sync>(
    rt: &R,
    alloc: Global,
    hints: &mut TextHints,
    machines: &[usize],
) -> Result<(), AllocError> {
    let gathered = gather_on(rt, alloc, hints, machines)?;
    assert!(rt; gathered.len() == 1);
    assert!(rt; are_by_first_sight(alloc, &gathered.trace(0), machines)?);
    Ok(())
}

#[test]
fn texts_are_numbered_by_first_sight(rt: HostRuntime) -> Result<(), Fail> {
    let mut hints = TextHints::new(rt.alloc())?;
    let machines = [
        0usize, 3, 10, 11, 3, 0, 1, 9, 10, 8, 7, 2, 11, 5, 6, 4, 9, 8, 7, 10,
    ];
    assert_by_first_sight(&rt, rt.alloc(), &mut hints, &machines)?;
    Ok(())
}

#[test]
fn hints_of_another_table_lead_to_no_other_text(rt: HostRuntime) -> Result<(), Fail> {
    let mut hints = TextHints::new(rt.alloc())?;
    for start in 0..12usize {
        let steps = [0usize, 1, 2, 3, 4, 5, 6, 7, 8, 9, 10, 11];
        let machines = steps.map(|step| start.wrapping_mul(5).wrapping_add(step) % 12);
        assert_by_first_sight(&rt, rt.alloc(), &mut hints, &machines)?;
    }
    Ok(())
}

/// Makes an event for each text from an index on to before another: it sends the text, and receives
/// it too.
fn messages_between(alloc: Global, from: usize, to: usize) -> Result<Vec<PlainEvent>, AllocError> {
    let mut events = Vec::new(alloc);
    for text in from..to {
        events.push(PlainEvent {
            send: Some(text),
            recv: Some(text),
            ..event_on(0)
        })?;
    }
    Ok(events)
}

/// Makes a part that has the first messages, and one that has the later ones.
fn two_parts(
    rt: &impl Abort,
    alloc: Global,
    hints: &mut TextHints,
    count: usize,
) -> Result<Vec<EventTable>, AllocError> {
    let first = messages_between(alloc, 0, count)?;
    let later = messages_between(alloc, count, TEXTS.len())?;
    let mut parts = Vec::new(alloc);
    parts.push(table_of(rt, alloc, hints, &first)?)?;
    parts.push(table_of(rt, alloc, hints, &later)?)?;
    Ok(parts)
}

/// Asserts that messages of two parts stand one after another.
fn assert_messages<R: Abort + Threads + Sync>(
    rt: &R,
    alloc: Global,
    hints: &mut TextHints,
    count: usize,
) -> Result<(), AllocError> {
    let parts = two_parts(rt, alloc, hints, count)?;
    assert!(rt; are_few(&parts));
    let gathered = gather(rt, alloc, parts, 1)?;
    let all = messages_between(alloc, 0, TEXTS.len())?;
    assert!(rt; are_traces_of(alloc, &gathered, &all)?);
    Ok(())
}

#[test]
fn messages_stand_one_after_another(rt: HostRuntime) -> Result<(), Fail> {
    let mut hints = TextHints::new(rt.alloc())?;
    for count in 0..TEXTS.len() + 1 {
        assert_messages(&rt, rt.alloc(), &mut hints, count)?;
    }
    Ok(())
}
