//! Lists of events and tables of them: whether their lines rise, and parts that stand in order.
use event_lines::{EventParts, lines_rise};
use event_table::{EventFields, EventTable, TextHints};
use std::alloc::{AllocError, Global};
use std::test::Fail;
use trace_types::{Event, Text};

/// Makes an event on a line.
fn event_on(alloc: Global, line: u32) -> Result<Event, Fail> {
    Ok(Event {
        line,
        request: Text::new(alloc, "r")?,
        machine: Text::new(alloc, "m")?,
        task: Text::new(alloc, "a")?,
        event: Text::new(alloc, "s")?,
        time: 0,
        send: None,
        recv: None,
    })
}

#[test]
fn lines_rise_where_each_is_greater_than_the_one_before(rt: HostRuntime) -> Result<(), Fail> {
    let rows: [(&[u32], bool); 6] = [
        (&[], true),
        (&[7], true),
        (&[3, 5, 6, 20], true),
        (&[3, 3], false),
        (&[3, 5, 4], false),
        (&[9, 1, 2], false),
    ];
    for (lines, rise) in rows {
        let mut events = Vec::new(rt.alloc());
        for line in lines {
            events.push(event_on(rt.alloc(), *line)?)?;
        }
        assert_eq!(rt; lines_rise(&events), rise);
    }
    Ok(())
}

/// Appends events that have these times.
fn push_events(alloc: Global, table: &mut EventTable, times: &[u64]) -> Result<(), AllocError> {
    let mut hints = TextHints::new(alloc)?;
    for time in times {
        if table.len() > 1000 {
            return Err(AllocError);
        }
        let fields = EventFields {
            request: "r",
            machine: "m",
            task: "a",
            event: "s",
            time: *time,
            send: None,
            recv: None,
        };
        table.push(alloc, &mut hints, 1, &fields)?;
    }
    Ok(())
}

/// Makes a table of events that have these times.
fn table_of(alloc: Global, times: &[u64]) -> Result<EventTable, AllocError> {
    let mut table = EventTable::new(alloc);
    push_events(alloc, &mut table, times)?;
    Ok(table)
}

/// Makes the parts of these times.
fn parts_of(alloc: Global, rows: &[&[u64]]) -> Result<EventParts, AllocError> {
    let mut parts = EventParts::new(alloc);
    for times in rows {
        parts.push_part(table_of(alloc, times)?)?;
    }
    Ok(parts)
}

/// Gives the times of the events of tables.
fn event_times(alloc: Global, parts: &[EventTable]) -> Result<Vec<u64>, AllocError> {
    let mut times = Vec::new(alloc);
    for part in parts {
        for index in 0..part.len() {
            times.push(part.event(index).time)?;
        }
    }
    Ok(times)
}

#[test]
fn parts_of_events_stand_one_after_another(rt: HostRuntime) -> Result<(), Fail> {
    let parts = parts_of(rt.alloc(), &[&[4, 2], &[], &[9], &[2, 2, 1]])?.into_parts();
    let times = event_times(rt.alloc(), &parts)?;
    assert_eq!(rt; times.as_slice(), [4, 2, 9, 2, 2, 1].as_slice());
    Ok(())
}
