//! Batches whose valid traces are named by many workers, and the limits of names and tasks.
ghost use Rattle.std.specs.Prelude.{◌≡◌, ◌^◌, ◌<◌, ◌≤◌, All, length, map};
ghost use Rattle.trace_types.specs.Batch.{PlainTrace};
ghost use Rattle.trace_types.specs.Times.{AreTimely};
ghost use Rattle.segment_cut.specs.NumberedCuts.{NumberedCut};
ghost use Rattle.batch_sheets.specs.Named.{HasFewSegments, cut_trace};

use batch_sheets::{judge_batch, name_batch};
use event_table::{EventFields, EventTable, GatheredEvents, TextHints, Texts, gather};
use segment_cut::CutTrace;
use segment_names::{Catalogue, NameFault, NameLimit};
use std::alloc::{AllocError, Global};
use std::process::Abort;
use std::test::Fail;
use std::thread::Threads;
use trace_types::NamedTrace;

/// A day of 86,400 seconds, in nanoseconds.
const NANOSECONDS_PER_DAY: u64 = 86_400_000_000_000;

/// Appends an event by its request, its task, its name and its time.
fn push_event<'a>(
    alloc: Global,
    hints: &mut TextHints,
    table: &mut EventTable,
    request: &'a str,
    task: &'a str,
    event: &'a str,
    time: u64,
) -> Result<(), AllocError> {
    if table.len() >= 100_000 {
        return Err(AllocError);
    }
    let line = table.len() as u32 + 1;
    let fields = EventFields {
        request,
        machine: "m",
        task,
        event,
        time,
        send: None,
        recv: None,
    };
    table.push(alloc, hints, line, &fields)
}

/// Appends an event at a time, and another of the name `e` four nanoseconds later.
fn push_both(
    alloc: Global,
    hints: &mut TextHints,
    table: &mut EventTable,
    request: &str,
    task: &str,
    start: &str,
    time: u64,
) -> Result<(), AllocError> {
    push_event(alloc, hints, table, request, task, start, time)?;
    let end = time.saturating_add(4);
    push_event(alloc, hints, table, request, task, "e", end)
}

/// Appends the two events of a trace, which has this number and is of the day with this number: one
/// of this name, and then one of the name `e`.
fn push_trace(
    alloc: Global,
    hints: &mut TextHints,
    table: &mut EventTable,
    number: u32,
    task: &str,
    start: &str,
) -> Result<(), AllocError> {
    let request = format!(in alloc; "r{number}")?;
    let time = u64::from(number).saturating_mul(NANOSECONDS_PER_DAY);
    push_both(alloc, hints, table, &request, task, start, time)
}

/// Gathers the events of one table.
fn gather_one<R: Threads + Sync>(
    rt: &R,
    alloc: Global,
    table: EventTable,
    workers: u32,
) -> Result<GatheredEvents, AllocError>
    requires { length table ≤ 100000 }
{
    let mut parts = Vec::new(alloc);
    parts.push(table)?;
    gather(rt, alloc, parts, workers)
}

/// Names the valid traces of a batch by an empty catalogue with the grace 7. Gives the fault, or
/// how many names the catalogue has then.
fn name_valid<R: Threads + Sync>(
    rt: &R,
    alloc: Global,
    texts: &Texts,
    valid: Vec<CutTrace<'_>>,
    workers: u32,
    named: &mut Vec<NamedTrace>,
) -> Result<u32, NameFault>
    requires few { All HasFewSegments (map cut_trace valid.items) }
    requires texts { All (λ (c : NumberedCut). c.texts ≡ texts.now) valid.items }
{
    let mut catalogue = Catalogue::new(alloc);
    *named = name_batch(rt, alloc, &mut catalogue, texts, valid, 7, workers)?;
    Ok(catalogue.names())
}

/// Cuts the traces of a batch and names the valid ones, as `name_valid` does.
fn judge_and_name<R: Threads + Sync>(
    rt: &R,
    alloc: Global,
    gathered: &GatheredEvents,
    workers: u32,
    named: &mut Vec<NamedTrace>,
) -> Result<u32, NameFault>
    requires timely { All (λ (t : PlainTrace). AreTimely t.events) gathered.now.traces }
    requires few { All (λ (t : PlainTrace). length t.events < 2 ^ 32) gathered.now.traces }
{
    let judged = judge_batch(rt, alloc, gathered, workers)?;
    let texts = gathered.texts();
    name_valid(rt, alloc, texts, judged.valid, workers, named)
}

/// Cuts and names the traces of a batch, as `judge_and_name` does.
fn name_gathered<R: Abort + Threads + Sync>(
    rt: &R,
    alloc: Global,
    gathered: &GatheredEvents,
    workers: u32,
    named: &mut Vec<NamedTrace>,
) -> Result<u32, NameFault> {
    assert!(rt; gathered.is_timely());
    assert!(rt; gathered.is_short());
    judge_and_name(rt, alloc, gathered, workers, named)
}

/// Gathers these events, and cuts and names their traces, as `judge_and_name` does.
fn name_traces<R: Abort + Threads + Sync>(
    rt: &R,
    alloc: Global,
    table: EventTable,
    workers: u32,
    named: &mut Vec<NamedTrace>,
) -> Result<u32, NameFault> {
    if table.len() > 100_000 {
        return Err(NameFault::Memory);
    }
    let gathered = gather_one(rt, alloc, table, workers)?;
    name_gathered(rt, alloc, &gathered, workers, named)
}

/// Gives the number in the name of the trace of this number among so many: 0, 1 and 2 in turn, but
/// 3 and 4 of the last two.
fn name_in_turn(number: u32, count: u32) -> u32 {
    match count.saturating_sub(number) {
        2 => 3,
        1 => 4,
        _ => number % 3,
    }
}

/// Appends the trace of this number among so many.
fn push_in_turn(
    alloc: Global,
    hints: &mut TextHints,
    table: &mut EventTable,
    number: u32,
    count: u32,
) -> Result<(), AllocError> {
    let name = name_in_turn(number, count);
    let start = format!(in alloc; "x{name}")?;
    push_trace(alloc, hints, table, number, "a", start.as_str())
}

/// Appends so many traces, the last two with a name of its own each.
fn push_all_in_turn(
    alloc: Global,
    hints: &mut TextHints,
    table: &mut EventTable,
    count: u32,
) -> Result<(), AllocError> {
    for number in 0..count {
        push_in_turn(alloc, hints, table, number, count)?;
    }
    Ok(())
}

/// Makes the events of so many traces of the task `a`, on the days 0, 1, 2 and so on. Their names
/// are three in turn, but for those of the last two, who have each a name of its own.
fn three_in_turn(alloc: Global, count: u32) -> Result<EventTable, AllocError> {
    let mut hints = TextHints::new(alloc)?;
    let mut table = EventTable::new(alloc);
    push_all_in_turn(alloc, &mut hints, &mut table, count)?;
    Ok(table)
}

/// Tells whether a trace is that of this number among so many of `three_in_turn`. Names have the
/// numbers of their first sight.
fn is_in_turn(trace: &NamedTrace, number: u32, count: u32) -> bool {
    match trace.segments.items().first() {
        Some(segment) => {
            trace.day == number
                && trace.grace == 7
                && segment.name == name_in_turn(number, count)
                && segment.task == 0
        }
        None => false,
    }
}

/// Tells whether these are so many of `three_in_turn` in their order.
fn are_in_turn(named: &[NamedTrace], count: u32) -> bool {
    let mut number = 0;
    for trace in named {
        if number >= count || !is_in_turn(trace, number, count) {
            return false;
        }
        number += 1;
    }
    number == count
}

/// Tells whether the traces of a table are so many of `three_in_turn`, and are named in their order
/// by so many workers.
fn names_in_turn<R: Abort + Threads + Sync>(
    rt: &R,
    alloc: Global,
    table: EventTable,
    count: u32,
    workers: u32,
) -> bool {
    let mut named = Vec::new(alloc);
    let names = name_traces(rt, alloc, table, workers, &mut named);
    names == Ok(5) && are_in_turn(&named, count)
}

/// Tells whether so many of `three_in_turn` are named in their order by so many workers.
fn stay_in_turn<R: Abort + Threads + Sync>(
    rt: &R,
    alloc: Global,
    count: u32,
    workers: u32,
) -> Result<bool, AllocError> {
    let table = three_in_turn(alloc, count)?;
    Ok(names_in_turn(rt, alloc, table, count, workers))
}

#[test]
fn traces_stay_in_order_across_windows(rt: HostRuntime) -> Result<(), Fail> {
    let alloc = rt.alloc();
    for count in [63, 64, 65, 84, 85, 256, 257, 320, 321] {
        for workers in [1, 4, 64] {
            assert!(rt; stay_in_turn(&rt, alloc, count, workers)?);
        }
    }
    Ok(())
}

/// Appends a trace with a name of its own, and a task of its own or the task `a`.
fn push_own(
    alloc: Global,
    hints: &mut TextHints,
    table: &mut EventTable,
    number: u32,
    one_task: bool,
) -> Result<(), AllocError> {
    let event = format!(in alloc; "y{number}")?;
    if one_task {
        return push_trace(alloc, hints, table, number, "a", event.as_str());
    }
    push_trace(alloc, hints, table, number, event.as_str(), event.as_str())
}

/// Appends so many traces of one name of the task `a`, and then so many with a name of its own each,
/// and a task of its own too or the task `a`.
fn push_first_and_own(
    alloc: Global,
    hints: &mut TextHints,
    table: &mut EventTable,
    counts: (u32, u32),
    one_task: bool,
) -> Result<(), AllocError> {
    let (first, own) = counts;
    for number in 0..first {
        push_trace(alloc, hints, table, number, "a", "x")?;
    }
    for number in first..first.saturating_add(own) {
        push_own(alloc, hints, table, number, one_task)?;
    }
    Ok(())
}

/// Makes the events of so many such traces.
fn first_and_own(
    alloc: Global,
    first: u32,
    own: u32,
    one_task: bool,
) -> Result<EventTable, AllocError> {
    let mut hints = TextHints::new(alloc)?;
    let mut table = EventTable::new(alloc);
    push_first_and_own(alloc, &mut hints, &mut table, (first, own), one_task)?;
    Ok(table)
}

/// Names the traces of a table, and gives the fault.
fn fault_of<R: Abort + Threads + Sync>(
    rt: &R,
    alloc: Global,
    table: EventTable,
) -> Option<NameFault> {
    let mut named = Vec::new(alloc);
    name_traces(rt, alloc, table, 4, &mut named).err()
}

/// Names the traces of `first_and_own`, and gives the fault.
fn last_fault<R: Abort + Threads + Sync>(
    rt: &R,
    alloc: Global,
    first: u32,
    own: u32,
    one_task: bool,
) -> Result<Option<NameFault>, AllocError> {
    let table = first_and_own(alloc, first, own, one_task)?;
    Ok(fault_of(rt, alloc, table))
}

#[test]
fn limits_are_told_of_early_and_late_traces(rt: HostRuntime) -> Result<(), Fail> {
    let alloc = rt.alloc();
    let names = Some(NameFault::Over {
        limit: NameLimit::Names { count: 513 },
    });
    let tasks = Some(NameFault::Over {
        limit: NameLimit::Tasks { count: 65 },
    });
    assert_eq!(rt; last_fault(&rt, alloc, 0, 512, true)?, None);
    assert_eq!(rt; last_fault(&rt, alloc, 0, 513, true)?, names);
    assert_eq!(rt; last_fault(&rt, alloc, 700, 512, true)?, names);
    assert_eq!(rt; last_fault(&rt, alloc, 0, 65, false)?, tasks);
    assert_eq!(rt; last_fault(&rt, alloc, 700, 64, false)?, tasks);
    assert_eq!(rt; last_fault(&rt, alloc, 700, 63, false)?, None);
    Ok(())
}
