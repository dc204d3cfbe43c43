//! A session that certifies what its traces refute, and verifies claims.
use crate::session_steps::{begin, carry_out, verify};
use crate::worked_batches::{name, turned_batch};
use certificates::{Claim, Matter};
use mystery_io::{MemSink, Sink};
use session::{CommandFault, Job, Session};
use std::alloc::{AllocError, Global};
use std::test::Fail;
use std::thread::Threads;
use trace_types::Text;

/// Makes the claim that a trace of the day 0 refutes that the one task's segment happens before the
/// other's.
fn claim(
    alloc: Global,
    line: u32,
    first: &str,
    second: &str,
    index: u32,
    request: &str,
) -> Result<Claim, AllocError> {
    Ok(Claim {
        line,
        matter: Matter::Before {
            first: name(alloc, first)?,
            second: name(alloc, second)?,
        },
        day: 0,
        index,
        request: Text::new(alloc, request)?,
    })
}

/// Makes two claims that the traces of the turned batch show.
fn shown_claims(alloc: Global) -> Result<Vec<Claim>, AllocError> {
    let mut claims = Vec::new(alloc);
    claims.push(claim(alloc, 2, "a", "b", 1, "r2")?)?;
    claims.push(claim(alloc, 3, "b", "a", 0, "r1")?)?;
    Ok(claims)
}

/// Makes a claim that no trace of the turned batch shows.
fn refused_claims(alloc: Global) -> Result<Vec<Claim>, AllocError> {
    let mut claims = Vec::new(alloc);
    claims.push(claim(alloc, 7, "a", "b", 0, "r1")?)?;
    Ok(claims)
}

/// Certifies, and verifies these claims.
fn certify_and_verify<R: Threads + Sync, S: Sink>(
    rt: &R,
    session: Session,
    claims: Vec<Claim>,
    out: &mut S,
) -> Result<Session, CommandFault> {
    let session = carry_out(rt, session, Job::Why, out)?;
    verify(rt, session, claims, out)
}

/// Certifies what the turned batch refutes, and verifies claims.
fn certify_turned<R: AllocGlobal + Threads + Sync, S: Sink>(
    rt: &R,
    claims: Vec<Claim>,
    out: &mut S,
) -> Result<Session, CommandFault> {
    let Ok(events) = turned_batch(rt.alloc()) else {
        return Err(CommandFault::Memory);
    };
    let session = begin(rt, events, out)?;
    certify_and_verify(rt, session, claims, out)
}

/// Verifies claims that are shown, and then one that is not.
fn verify_both<R: AllocGlobal + Threads + Sync, S: Sink>(
    rt: &R,
    claims: Vec<Claim>,
    others: Vec<Claim>,
    out: &mut S,
) -> Result<Session, CommandFault> {
    let session = certify_turned(rt, claims, out)?;
    verify(rt, session, others, out)
}

/// Makes the claims and verifies them, and tells whether all jobs were carried out.
fn verifies_both<R: AllocGlobal + Threads + Sync, S: Sink>(
    rt: &R,
    out: &mut S,
) -> Result<bool, AllocError> {
    let claims = shown_claims(rt.alloc())?;
    let others = refused_claims(rt.alloc())?;
    Ok(verify_both(rt, claims, others, out).is_ok())
}

/// What a session prints that certifies what the turned batch refutes, and verifies claims.
const PRINTED: &[u8] = b"why\ttraces=2\trefuted=2\n\
    refuted\tbefore\ta\ts\te\tb\ts\te\t0\t1\tr2\n\
    refuted\tbefore\tb\ts\te\ta\ts\te\t0\t0\tr1\n\
    shown\t2\n\
    shown\t3\n\
    verified\t2\t2\n\
    not shown\t7\n\
    verified\t0\t1\n";

#[test]
fn a_session_certifies_and_verifies(rt: HostRuntime) -> Result<(), Fail> {
    let alloc = rt.alloc();
    let mut out = MemSink::new(alloc, 100, Vec::new(alloc), 1000)?;
    assert!(rt; verifies_both(&rt, &mut out)?);
    assert_eq!(rt; out.bytes(), PRINTED);
    Ok(())
}
