//! Sessions that add, drop and keep days, and what they print.
ghost use Rattle.std.specs.Prelude.{◌≡◌, ◌<◌, ◌≤◌, IfOk};

use crate::session_steps::{add, begin, carry_out, control, start};
use crate::worked_batches::{batch, name};
use event_lines::Command;
use mystery_io::{MemSink, Sink};
use session::{CommandFault, Job, Session};
use session_rules::NamedChange;
use std::alloc::{AllocError, Global};
use std::test::Fail;
use std::thread::Threads;
use trace_types::Event;

/// Watches each trace, adds events and prints the model.
fn watch_and_add<R: AllocGlobal + Threads + Sync, S: Sink>(
    rt: &R,
    session: Session,
    events: Vec<Event>,
    out: &mut S,
) -> Result<Session, CommandFault> {
    let session = control(rt, session, Command::Watch { every: 1 }, out)?;
    let session = add(rt, session, events, out)?;
    control(rt, session, Command::Model, out)
}

/// Prints paths, slacks and graphs.
fn print_views<R: Threads + Sync, S: Sink>(
    rt: &R,
    session: Session,
    out: &mut S,
) -> Result<Session, CommandFault> {
    let session = control(rt, session, Command::Paths, out)?;
    let session = control(rt, session, Command::Slack, out)?;
    control(rt, session, Command::Graph, out)
}

/// Keeps no day and prints the model.
fn keep_nothing<R: Threads + Sync, S: Sink>(
    rt: &R,
    session: Session,
    out: &mut S,
) -> Result<Session, CommandFault> {
    let session = control(rt, session, Command::Keep { days: 0 }, out)?;
    control(rt, session, Command::Model, out)
}

/// Watches and adds, drops a day, and prints the views.
fn drop_and_print<R: AllocGlobal + Threads + Sync, S: Sink>(
    rt: &R,
    session: Session,
    events: Vec<Event>,
    out: &mut S,
) -> Result<Session, CommandFault> {
    let session = watch_and_add(rt, session, events, out)?;
    let session = control(rt, session, Command::Drop { day: 1 }, out)?;
    print_views(rt, session, out)
}

/// Does all that to a new session, and keeps nothing in the end.
fn run_controls<R: AllocGlobal + Threads + Sync, S: Sink>(
    rt: &R,
    events: Vec<Event>,
    out: &mut S,
) -> Result<Session, CommandFault> {
    let Ok(session) = start(rt.alloc(), 1) else {
        return Err(CommandFault::Memory);
    };
    let session = drop_and_print(rt, session, events, out)?;
    keep_nothing(rt, session, out)
}

/// What a session prints that adds, drops and keeps.
const CONTROLS: &[u8] = b"refused\tr3\trepeated event\t6\n\
    watch\t1\t0\t1\t0\n\
    watch\t2\t0\t1\t0\n\
    model\ttraces=2\tdays=2\tsegments=1\ttasks=1\thb=0\tmx=0\tpipe=0\n\
    drop\t1\t1\n\
    paths\ttraces=1\n\
    path\tr2\t2\t10000\t10000\t1\n\
    step\ta\ts\te\t10000\n\
    slack\ttraces=1\n\
    trace\tr2\t2\t10000\t10000\n\
    segment\ta\ts\te\t10000\t0\n\
    graph\ttraces=1\n\
    trace\tr2\t2\t10000\t1\t0\n\
    vertex\t0\ta\ts\te\t10000\n\
    keep\t0\t1\n\
    model\ttraces=0\tdays=0\tsegments=0\ttasks=0\thb=0\tmx=0\tpipe=0\n";

#[test]
fn a_session_adds_drops_keeps_and_prints(rt: HostRuntime) -> Result<(), Fail> {
    let alloc = rt.alloc();
    let mut out = MemSink::new(alloc, 100, Vec::new(alloc), 1000)?;
    assert!(rt; run_controls(&rt, batch(alloc)?, &mut out).is_ok());
    assert_eq!(rt; out.bytes(), CONTROLS);
    Ok(())
}

/// Prints the report, the summary and the report on the slowest traces.
fn print_reports<R: Threads + Sync, S: Sink>(
    rt: &R,
    session: Session,
    out: &mut S,
) -> Result<Session, CommandFault> {
    let session = control(rt, session, Command::Report, out)?;
    let session = carry_out(rt, session, Job::Summary, out)?;
    carry_out(rt, session, Job::Tail, out)
}

/// Adds events to a new session and prints its reports.
fn report<R: AllocGlobal + Threads + Sync, S: Sink>(
    rt: &R,
    events: Vec<Event>,
    out: &mut S,
) -> Result<Session, CommandFault> {
    let session = begin(rt, events, out)?;
    print_reports(rt, session, out)
}

/// Does all that, and forecasts a change.
fn report_and_forecast<R: AllocGlobal + Threads + Sync, S: Sink>(
    rt: &R,
    events: Vec<Event>,
    change: NamedChange,
    out: &mut S,
) -> Result<Session, CommandFault>
    requires some { 0 < change.den }
    requires less { change.num ≤ change.den }
{
    let session = report(rt, events, out)?;
    carry_out(rt, session, Job::WhatIf { change }, out)
}

/// Makes the change to a quarter of the segments of the task `a`.
fn quarter(alloc: Global) -> Result<NamedChange, AllocError>
    ensures num { IfOk result (λ change. change.num ≡ 1) }
    ensures den { IfOk result (λ change. change.den ≡ 4) }
{
    Ok(NamedChange {
        name: name(alloc, "a")?,
        num: 1,
        den: 4,
    })
}

/// Reports on the worked batch and forecasts a change, and tells whether all jobs were carried out.
fn reports_and_forecasts<R: AllocGlobal + Threads + Sync, S: Sink>(
    rt: &R,
    out: &mut S,
) -> Result<bool, AllocError> {
    let events = batch(rt.alloc())?;
    let change = quarter(rt.alloc())?;
    Ok(report_and_forecast(rt, events, change, out).is_ok())
}

/// What a session prints that reports and forecasts.
const REPORTS: &[u8] = b"refused\tr3\trepeated event\t6\n\
    report\ttraces=2\tcritical=20000\n\
    latency\t2\t20000\t10000\t10000\n\
    segment\ta\ts\te\t2\t20000\t10000\t10000\t2\t20000\n\
    model\ttraces=2\tdays=2\tsegments=1\ttasks=1\thb=0\tmx=0\tpipe=0\n\
    report\ttraces=2\tcritical=20000\n\
    latency\t2\t20000\t10000\t10000\n\
    tail\ttraces=2\tslow=1\tfloor=10000\n\
    segment\ta\ts\te\t1\t10000\t1\t10000\n\
    whatif\ttraces=2\tbefore=20000\tafter=5000\n\
    forecast\tr1\t1\t10000\t2500\n\
    forecast\tr2\t2\t10000\t2500\n";

#[test]
fn a_session_reports_and_forecasts(rt: HostRuntime) -> Result<(), Fail> {
    let alloc = rt.alloc();
    let mut out = MemSink::new(alloc, 100, Vec::new(alloc), 1000)?;
    assert!(rt; reports_and_forecasts(&rt, &mut out)?);
    assert_eq!(rt; out.bytes(), REPORTS);
    Ok(())
}
