//! Sessions that are refused: too many days, and a write that fails.
use crate::session_steps::{add_through, control, start};
use crate::worked_batches::on_days;
use event_lines::Command;
use mystery_io::{Gate, MemSink, Sink};
use session::{CommandFault, Limit};
use std::alloc::{AllocError, Global};
use std::sync::atomic::{AtomicU64, Ordering};
use std::test::Fail;
use std::thread::Threads;
use trace_types::Event;

/// Counts its turns, one before each trace that is recorded.
#[derive(Drop)]
struct CountingGate {
    turns: AtomicU64,
}

impl Gate for CountingGate {
    fn turn(&self, _worker: u32, _trace: u32) {
        self.turns.fetch_add(1, Ordering::SeqCst);
    }
}

/// Adds events to a new session, whose workers wait for this gate, and gives the fault.
fn add_fault<R: AllocGlobal + Threads + Sync, S: Sink>(
    rt: &R,
    events: Vec<Event>,
    out: &mut S,
    gate: &CountingGate,
) -> Result<Option<CommandFault>, AllocError> {
    let session = start(rt.alloc(), 2)?;
    Ok(add_through(rt, session, events, out, gate).err())
}

/// Adds so many days to a new session. Gives the fault and how many traces were recorded.
fn add_days<R: AllocGlobal + Threads + Sync, S: Sink>(
    rt: &R,
    alloc: Global,
    days: u32,
    out: &mut S,
) -> Result<(Option<CommandFault>, u64), AllocError> {
    let gate = CountingGate {
        turns: AtomicU64::new(0),
    };
    let events = on_days(alloc, days)?;
    let fault = add_fault(rt, events, out, &gate)?;
    Ok((fault, gate.turns.load(Ordering::SeqCst)))
}

// No trace is recorded where there would be too many days.
#[test]
fn an_add_of_65_days_records_and_writes_nothing(rt: HostRuntime) -> Result<(), Fail> {
    let alloc = rt.alloc();
    let mut out = MemSink::new(alloc, 100, Vec::new(alloc), 1000)?;
    let many = Some(CommandFault::Over {
        limit: Limit::Days { count: 65 },
    });
    assert_eq!(rt; add_days(&rt, alloc, 65, &mut out)?, (many, 0));
    assert_eq!(rt; out.bytes(), b"".as_slice());
    assert_eq!(rt; add_days(&rt, alloc, 64, &mut out)?, (None, 64));
    Ok(())
}

/// Drops a day of a new session, and gives the fault.
fn drop_fault<R: AllocGlobal + Threads + Sync, S: Sink>(
    rt: &R,
    out: &mut S,
) -> Result<Option<CommandFault>, AllocError> {
    let session = start(rt.alloc(), 1)?;
    Ok(control(rt, session, Command::Drop { day: 3 }, out).err())
}

#[test]
fn a_write_that_fails_leaves_a_prefix(rt: HostRuntime) -> Result<(), Fail> {
    let alloc = rt.alloc();
    let mut out = MemSink::new(alloc, 5, [2].to_vec(alloc)?, 1000)?;
    assert_eq!(rt; drop_fault(&rt, &mut out)?, Some(CommandFault::Write));
    assert_eq!(rt; out.bytes(), b"drop\t".as_slice());
    Ok(())
}
