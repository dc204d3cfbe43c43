//! Jobs that a session carries out: each answers `Memory` where it would have too many traces.
ghost use Rattle.std.specs.Prelude.{◌≡◌, ◌<◌, ◌≤◌, length, IfOk, IfSome, IsTrue};
ghost use Rattle.session_rules.specs.ReadyJobs.{IsReady, IsReadyCommand, requests_in};
ghost use Rattle.trace_types.specs.Times.{AreTimely};

use crate::given_tables::nothing_given;
use certificates::{Claim, ClaimList};
use event_lines::{Command, EventParts, lines_rise};
use event_table::EventTable;
use mystery_io::{Gate, OpenGate, Sink};
use session::{CommandFault, Job, Session};
use std::alloc::{AllocError, Global};
use std::thread::Threads;
use trace_types::Event;

/// Tells whether no event is later than the latest time.
fn are_timely(events: &[Event]) -> bool
    ensures { IsTrue result → AreTimely events.now }
{
    events
        .iter()
        .all(|event| event.time <= 4_102_444_800_000_000_000)
}

/// Makes the list of this one table. The only error is out of memory.
fn one_part(alloc: Global, table: EventTable) -> Result<EventParts, AllocError>
    ensures { IfOk result (λ parts. parts ≡ table) }
{
    let mut parts = EventParts::new(alloc);
    parts.push_part(table)?;
    Ok(parts)
}

/// Makes the events of a job, or none where a job may not have them or memory ran out.
fn parts_of(alloc: Global, events: &[Event]) -> Option<EventParts>
    ensures timely { IfSome result AreTimely }
    ensures few { IfSome result (λ parts. length parts ≤ 1000) }
{
    if events.len() > 1000 || !lines_rise(events) || !are_timely(events) {
        return None;
    }
    let Ok(table) = EventTable::of_events(alloc, events) else {
        return None;
    };
    let Ok(parts) = one_part(alloc, table) else {
        return None;
    };
    Some(parts)
}

/// Carries out an add of these events, or answers `Memory` where a job may not have them.
pub(crate) fn add<R: AllocGlobal + Threads + Sync, S: Sink>(
    rt: &R,
    session: Session,
    events: Vec<Event>,
    out: &mut S,
) -> Result<Session, CommandFault> {
    add_through(rt, session, events, out, &OpenGate)
}

/// Makes a session of so many workers, to which nothing is given.
pub(crate) fn start(alloc: Global, workers: u32) -> Result<Session, AllocError>
    requires some { 0 < workers }
    requires few { workers ≤ 64 }
{
    let given = nothing_given(alloc)?;
    Session::new(alloc, workers, given)
}

/// Makes a session of one worker, and carries out an add of these events.
pub(crate) fn begin<R: AllocGlobal + Threads + Sync, S: Sink>(
    rt: &R,
    events: Vec<Event>,
    out: &mut S,
) -> Result<Session, CommandFault> {
    match start(rt.alloc(), 1) {
        Ok(session) => add(rt, session, events, out),
        Err(_) => Err(CommandFault::Memory),
    }
}

/// Carries out an add, as `add` does, whose workers wait for this gate.
pub(crate) fn add_through<R: AllocGlobal + Threads + Sync, S: Sink, G: Gate + Sync>(
    rt: &R,
    session: Session,
    events: Vec<Event>,
    out: &mut S,
    gate: &G,
) -> Result<Session, CommandFault> {
    if session.trace_count() > 1000 {
        return Err(CommandFault::Memory);
    }
    let Some(parts) = parts_of(rt.alloc(), &events) else {
        return Err(CommandFault::Memory);
    };
    session.command(rt, Job::Add { events: parts }, out, gate)
}

/// Carries out a job that adds nothing, or answers `Memory` where there are many traces.
pub(crate) fn carry_out<R: Threads + Sync, S: Sink>(
    rt: &R,
    session: Session,
    job: Job,
    out: &mut S,
) -> Result<Session, CommandFault>
    requires ready { IsReady job }
    requires none { requests_in job ≡ 0 }
{
    if session.trace_count() > 1000 {
        return Err(CommandFault::Memory);
    }
    session.command(rt, job, out, &OpenGate)
}

/// Carries out the command of a control line, or answers `Memory` where there are many traces.
pub(crate) fn control<R: Threads + Sync, S: Sink>(
    rt: &R,
    session: Session,
    command: Command,
    out: &mut S,
) -> Result<Session, CommandFault>
    requires { IsReadyCommand command }
{
    carry_out(rt, session, Job::Control { command }, out)
}

/// Verifies claims, or answers `Memory` where there are many.
pub(crate) fn verify<R: Threads + Sync, S: Sink>(
    rt: &R,
    session: Session,
    claims: Vec<Claim>,
    out: &mut S,
) -> Result<Session, CommandFault> {
    if claims.len() > 1000 {
        return Err(CommandFault::Memory);
    }
    let claims = ClaimList::of(claims);
    carry_out(rt, session, Job::Verify { claims }, out)
}
