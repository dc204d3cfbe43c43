//! Sessions to which a digest is given: what they print, and the limits that their adds pass.
ghost use Rattle.digest_merging.specs.Merges.{IsGivenTable};

use crate::given_tables::table_of_text;
use crate::session_steps::{add, begin, control};
use crate::worked_batches::{batch, first_of_turned};
use digest_text::DigestTable;
use event_lines::Command;
use mystery_io::{MemSink, Sink};
use session::{CommandFault, Limit, Session};
use std::alloc::{AllocError, Global};
use std::test::Fail;
use std::thread::Threads;
use trace_types::Event;

/// Adds events to a session to which nothing is given, and prints the digest.
fn add_and_summarize<R: AllocGlobal + Threads + Sync, S: Sink>(
    rt: &R,
    events: Vec<Event>,
    out: &mut S,
) -> Result<Session, CommandFault> {
    let session = begin(rt, events, out)?;
    control(rt, session, Command::Summarize, out)
}

/// What a session prints that adds the worked batch and prints its digest.
const DIGEST: &[u8] = b"refused\tr3\trepeated event\t6\n\
    summary\ttraces=2\tdays=2\ttasks=1\tnames=1\n\
    day\t1\n\
    day\t2\n\
    task\ta\t\n\
    name\ta\ts\te\t\n";

#[test]
fn a_session_prints_the_digest_of_its_traces(rt: HostRuntime) -> Result<(), Fail> {
    let alloc = rt.alloc();
    let mut out = MemSink::new(alloc, 100, Vec::new(alloc), 1000)?;
    assert!(rt; add_and_summarize(&rt, batch(alloc)?, &mut out).is_ok());
    assert_eq!(rt; out.bytes(), DIGEST);
    Ok(())
}

/// Prints the model, and the digest of the kept traces and the given ones.
fn print_both<R: Threads + Sync, S: Sink>(
    rt: &R,
    session: Session,
    out: &mut S,
) -> Result<Session, CommandFault> {
    let session = control(rt, session, Command::Model, out)?;
    control(rt, session, Command::Summarize, out)
}

/// Adds events to a session to which a digest is given, and prints both.
fn add_to_given<R: AllocGlobal + Threads + Sync, S: Sink>(
    rt: &R,
    given: DigestTable,
    events: Vec<Event>,
    out: &mut S,
) -> Result<Session, CommandFault>
    requires { IsGivenTable given }
{
    let Ok(session) = Session::new(rt.alloc(), 1, given) else {
        return Err(CommandFault::Memory);
    };
    let session = add(rt, session, events, out)?;
    print_both(rt, session, out)
}

/// The digest of a trace in which `b` comes before `a`.
const TURNED: &[u8] = b"summary\ttraces=1\tdays=1\ttasks=2\tnames=2\n\
    day\t0\n\
    task\ta\t\n\
    task\tb\t.\n\
    name\ta\ts\te\t\n\
    name\tb\ts\te\t1\n";

/// What a session prints to which that is given, and that keeps a trace in which `a` comes first:
/// neither order survives.
const BOTH: &[u8] = b"model\ttraces=2\tdays=1\tsegments=2\ttasks=2\thb=0\tmx=1\tpipe=0\n\
    mx\ta\ts\te\tb\ts\te\n\
    summary\ttraces=2\tdays=1\ttasks=2\tnames=2\n\
    day\t0\n\
    task\ta\t\n\
    task\tb\t.\n\
    name\ta\ts\te\t\n\
    name\tb\ts\te\t3\n";

#[test]
fn a_given_digest_and_kept_traces_are_judged_together(rt: HostRuntime) -> Result<(), Fail> {
    let alloc = rt.alloc();
    let given = table_of_text(alloc, TURNED)?;
    let mut out = MemSink::new(alloc, 100, Vec::new(alloc), 1000)?;
    assert!(rt; add_to_given(&rt, given, first_of_turned(alloc)?, &mut out).is_ok());
    assert_eq!(rt; out.bytes(), BOTH);
    Ok(())
}

/// Adds events to a session to which the digest of a text is given, and gives the fault.
fn given_fault<R: AllocGlobal + Threads + Sync, S: Sink>(
    rt: &R,
    text: &[u8],
    events: Vec<Event>,
    out: &mut S,
) -> Result<Option<CommandFault>, AllocError> {
    let given = table_of_text(rt.alloc(), text)?;
    let session = Session::new(rt.alloc(), 1, given)?;
    Ok(add(rt, session, events, out).err())
}

/// A digest of as many traces as 64 bits count.
const MOST: &[u8] = b"summary\ttraces=18446744073709551615\tdays=1\ttasks=0\tnames=0\nday\t0\n";

/// A digest of two traces fewer.
const TWO_FEWER: &[u8] =
    b"summary\ttraces=18446744073709551613\tdays=1\ttasks=0\tnames=0\nday\t0\n";

// The worked batch has two valid traces.
#[test]
fn given_traces_count_where_an_add_passes_the_limit(rt: HostRuntime) -> Result<(), Fail> {
    let alloc = rt.alloc();
    let mut out = MemSink::new(alloc, 100, Vec::new(alloc), 1000)?;
    let many = Some(CommandFault::Over {
        limit: Limit::Traces,
    });
    assert_eq!(rt; given_fault(&rt, MOST, batch(alloc)?, &mut out)?, many);
    assert_eq!(rt; out.bytes(), b"".as_slice());
    assert_eq!(rt; given_fault(&rt, TWO_FEWER, batch(alloc)?, &mut out)?, None);
    Ok(())
}

/// Appends the rows of 64 tasks or names that no trace has two of: `t00` and so on, in their order.
fn put_rows(text: &mut Vec<u8>, word: &[u8], events: &[u8]) -> Result<(), AllocError> {
    for k in 0..64u8 {
        text.extend_from_slice(word)?;
        text.extend_from_slice(&[b'\t', b't', b'0' + k / 10, b'0' + k % 10])?;
        text.extend_from_slice(events)?;
        text.push(b'\t')?;
        for _mark in 0..k {
            text.push(b'.')?;
        }
        text.push(b'\n')?;
    }
    Ok(())
}

/// Makes the text of a digest of 64 traces, each of a task and a name of its own.
fn many_tasks(alloc: Global) -> Result<Vec<u8>, AllocError> {
    let mut text = Vec::new(alloc);
    text.extend_from_slice(b"summary\ttraces=64\tdays=1\ttasks=64\tnames=64\nday\t0\n")?;
    put_rows(&mut text, b"task", b"")?;
    put_rows(&mut text, b"name", b"\ts\te")?;
    Ok(text)
}

#[test]
fn given_tasks_count_where_an_add_passes_the_limit(rt: HostRuntime) -> Result<(), Fail> {
    let alloc = rt.alloc();
    let mut out = MemSink::new(alloc, 100, Vec::new(alloc), 1000)?;
    let many = Some(CommandFault::Over {
        limit: Limit::Tasks { count: 65 },
    });
    let text = many_tasks(alloc)?;
    assert_eq!(rt; given_fault(&rt, &text, batch(alloc)?, &mut out)?, many);
    assert_eq!(rt; out.bytes(), b"".as_slice());
    Ok(())
}
