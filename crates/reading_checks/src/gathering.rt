//! Gathered traces beside a plain search, and events that tables lend.
ghost use Rattle.std.specs.Prelude.{◌<◌, length};

use crate::plain_events::{PlainEvent, is_message, is_number_of, table_of, text_of};
use event_table::{EventTable, GatheredEvents, LentEvent, RawEvents, TextHints, are_few, gather};
use std::alloc::{AllocError, Global};
use std::process::Abort;
use std::test::Fail;
use trace_types::{Event, LATEST_TIME, Text};

/// Tells whether the event that is lent is this one.
fn is_lent(lent: &LentEvent<'_>, event: &PlainEvent) -> bool {
    lent.line == event.line
        && lent.time == event.time
        && lent.request.as_str() == text_of(event.request)
        && lent.machine.as_str() == text_of(event.machine)
        && lent.task.as_str() == text_of(event.task)
        && lent.event.as_str() == "name"
        && is_message(lent.send, event.send)
        && is_message(lent.recv, event.recv)
}

/// Tells whether the table lends these events.
fn lends(table: &EventTable, events: &[PlainEvent]) -> bool {
    if table.len() != events.len() || table.is_empty() != events.is_empty() {
        return false;
    }
    for at in 0..table.len() {
        if !is_lent(&table.event(at), &events[at]) {
            return false;
        }
    }
    true
}

/// Tells whether the event at this index of the trace is this one.
fn is_event_at(trace: &RawEvents<'_>, at: usize, event: &PlainEvent) -> bool
    requires { at < length trace.now.trace.events }
{
    let texts = trace.texts();
    trace.line(at) == event.line
        && trace.time(at) == event.time
        && is_number_of(texts.machines(), trace.machine(at), text_of(event.machine))
        && is_number_of(texts.tasks(), trace.task(at), text_of(event.task))
        && is_number_of(texts.names(), trace.event(at), "name")
        && is_message(trace.send(at), event.send)
        && is_message(trace.recv(at), event.recv)
}

/// Tells whether the trace has exactly these events.
fn is_trace_of(trace: &RawEvents<'_>, request: usize, events: &[PlainEvent]) -> bool {
    if trace.request().as_str() != text_of(request) || trace.len() != events.len() {
        return false;
    }
    let requests = trace.texts().requests();
    if !is_number_of(requests, trace.request_number(), text_of(request)) {
        return false;
    }
    for at in 0..trace.len() {
        if !is_event_at(trace, at, &events[at]) {
            return false;
        }
    }
    true
}

/// Lists the requests of events, each once, in the order of their first events.
fn requests_of(alloc: Global, events: &[PlainEvent]) -> Result<Vec<usize>, AllocError> {
    let mut requests: Vec<usize> = Vec::new(alloc);
    for event in events {
        if !requests.contains(&event.request) {
            requests.push(event.request)?;
        }
    }
    Ok(requests)
}

/// Lists the events of a request.
fn events_of(
    alloc: Global,
    events: &[PlainEvent],
    request: usize,
) -> Result<Vec<PlainEvent>, AllocError> {
    let mut own = Vec::new(alloc);
    for event in events {
        if event.request == request {
            own.push(*event)?;
        }
    }
    Ok(own)
}

/// Tells whether the gathered traces are those of the events, found by a plain search.
pub(crate) fn are_traces_of(
    alloc: Global,
    gathered: &GatheredEvents,
    events: &[PlainEvent],
) -> Result<bool, AllocError> {
    let requests = requests_of(alloc, events)?;
    if gathered.len() != requests.len() || gathered.is_empty() != requests.is_empty() {
        return Ok(false);
    }
    for index in 0..gathered.len() {
        let own = events_of(alloc, events, requests[index])?;
        if !is_trace_of(&gathered.trace(index), requests[index], &own) {
            return Ok(false);
        }
    }
    Ok(true)
}

/// What events are drawn from: some bits, and the number of the last line.
#[derive(Drop)]
struct Source {
    state: u64,
    line: u32,
}

/// Gives one of the texts, or none, by some bits.
fn draw_message(bits: u64) -> Option<usize> {
    if bits % 2 == 0 {
        return None;
    }
    Some((bits / 2 % 12) as usize)
}

impl Source {
    /// Draws the event of the next line.
    fn draw_event(&mut self) -> PlainEvent {
        self.state = self
            .state
            .wrapping_mul(6_364_136_223_846_793_005)
            .wrapping_add(1_442_695_040_888_963_407);
        self.line = self.line.wrapping_add(1);
        let bits = self.state >> 33;
        PlainEvent {
            line: self.line,
            time: u64::from(self.line).wrapping_mul(10),
            request: (bits % 12) as usize,
            machine: (bits / 12 % 5) as usize,
            task: (bits / 60 % 12) as usize,
            send: draw_message(bits / 720),
            recv: draw_message(bits / 17_280),
        }
    }

    /// Draws so many events.
    fn draw_events(&mut self, alloc: Global, count: usize) -> Result<Vec<PlainEvent>, AllocError> {
        let mut events = Vec::new(alloc);
        for _ in 0..count {
            events.push(self.draw_event())?;
        }
        Ok(events)
    }
}

/// Makes parts of events in no order, of these lengths, and all their events in one list.
fn random_parts(
    rt: &impl Abort,
    alloc: Global,
    lengths: &[usize],
    seed: u64,
) -> Result<(Vec<EventTable>, Vec<PlainEvent>), AllocError> {
    let mut parts = Vec::new(alloc);
    let mut all = Vec::new(alloc);
    let mut hints = TextHints::new(alloc)?;
    let mut source = Source {
        state: seed,
        line: 0,
    };
    for length in lengths {
        let events = source.draw_events(alloc, *length)?;
        parts.push(table_of(rt, alloc, &mut hints, &events)?)?;
        all.extend_from_slice(&events)?;
    }
    Ok((parts, all))
}

#[test]
fn gathering_agrees_with_a_plain_search(rt: HostRuntime) -> Result<(), Fail> {
    let alloc = rt.alloc();
    let rows: [&[usize]; 6] = [&[], &[0, 0], &[1], &[40], &[7, 0, 30, 1, 0], &[3, 3, 3, 50]];
    for seed in 1..4u64 {
        for lengths in rows {
            let (parts, all) = random_parts(&rt, alloc, lengths, seed)?;
            assert!(rt; are_few(&parts));
            let gathered = gather(&rt, alloc, parts, 3)?;
            assert!(rt; are_traces_of(alloc, &gathered, &all)?);
        }
    }
    Ok(())
}

#[test]
fn blocks_of_several_workers_agree_with_a_plain_search(rt: HostRuntime) -> Result<(), Fail> {
    let alloc = rt.alloc();
    let rows: [&[usize]; 2] = [&[9000], &[4000, 1, 0, 4200, 5000]];
    for lengths in rows {
        for workers in [0u32, 2, 3, 20] {
            let (parts, all) = random_parts(&rt, alloc, lengths, 5)?;
            assert!(rt; are_few(&parts));
            let gathered = gather(&rt, alloc, parts, workers)?;
            assert!(rt; are_traces_of(alloc, &gathered, &all)?);
        }
    }
    Ok(())
}

/// Draws events and changes their times to these.
fn events_at(alloc: Global, times: &[u64]) -> Result<Vec<PlainEvent>, AllocError> {
    let mut source = Source { state: 7, line: 0 };
    let mut events = Vec::new(alloc);
    for time in times {
        events.push(PlainEvent {
            time: *time,
            ..source.draw_event()
        })?;
    }
    Ok(events)
}

#[test]
fn gathered_events_tell_what_cutting_requires(rt: HostRuntime) -> Result<(), Fail> {
    let alloc = rt.alloc();
    let rows: [(&[u64], bool, bool); 5] = [
        (&[], true, true),
        (&[0, LATEST_TIME, 5, LATEST_TIME], true, true),
        (&[LATEST_TIME + 1], false, true),
        (&[1, 2, 3, u64::MAX], false, true),
        (&[LATEST_TIME + 1, 2, 3, 4], false, true),
    ];
    for (times, timely, short) in rows {
        let mut hints = TextHints::new(alloc)?;
        let events = events_at(alloc, times)?;
        let parts = vec![in alloc; table_of(&rt, alloc, &mut hints, &events)?]?;
        assert!(rt; are_few(&parts));
        let gathered = gather(&rt, alloc, parts, 1)?;
        assert!(rt; gathered.is_timely() == timely);
        assert!(rt; gathered.is_short() == short);
    }
    Ok(())
}

/// Makes the event of the plain lists.
fn whole_event(alloc: Global, event: &PlainEvent) -> Result<Event, AllocError> {
    let send = match event.send {
        Some(text) => Some(Text::new(alloc, text_of(text))?),
        None => None,
    };
    let recv = match event.recv {
        Some(text) => Some(Text::new(alloc, text_of(text))?),
        None => None,
    };
    Ok(Event {
        line: event.line,
        request: Text::new(alloc, text_of(event.request))?,
        machine: Text::new(alloc, text_of(event.machine))?,
        task: Text::new(alloc, text_of(event.task))?,
        event: Text::new(alloc, "name")?,
        time: event.time,
        send,
        recv,
    })
}

/// Makes the events of the plain lists.
fn whole_events(alloc: Global, events: &[PlainEvent]) -> Result<Vec<Event>, AllocError> {
    let mut whole = Vec::new(alloc);
    for event in events {
        whole.push(whole_event(alloc, event)?)?;
    }
    Ok(whole)
}

/// Asserts that a table to which these events are pushed lends them.
fn assert_lent(rt: &impl Abort, alloc: Global, events: &[PlainEvent]) -> Result<(), AllocError> {
    let mut hints = TextHints::new(alloc)?;
    let table = table_of(rt, alloc, &mut hints, events)?;
    assert!(rt; lends(&table, events));
    Ok(())
}

/// Asserts that a table that is made of a list of these events lends them.
fn assert_made(rt: &impl Abort, alloc: Global, events: &[PlainEvent]) -> Result<(), AllocError> {
    let whole = whole_events(alloc, events)?;
    assert!(rt; whole.len() < 20);
    let table = EventTable::of_events(alloc, &whole)?;
    assert!(rt; lends(&table, events));
    Ok(())
}

#[test]
fn tables_lend_the_events_that_they_were_made_of(rt: HostRuntime) -> Result<(), Fail> {
    let alloc = rt.alloc();
    for count in 0..20usize {
        let mut source = Source { state: 3, line: 0 };
        let events = source.draw_events(alloc, count)?;
        assert_lent(&rt, alloc, &events)?;
        assert_made(&rt, alloc, &events)?;
    }
    Ok(())
}
