//! Rows of what traces refute between their names.
use crate::task_rows::only;
use crate::traces::{overlapping, swapped, touching};
use refute_tests::{clear_segments, segment_row};
use std::alloc::{AllocError, Global};
use std::process::Abort;
use std::rt::HostRuntime;
use std::test::Fail;
use trace_types::NamedTrace;
use word_rows::RowMaker;

/// Gives the only entry of the row of a trace.
fn entry_of(rt: &impl Abort, alloc: Global, trace: &NamedTrace) -> Result<(u32, u64), AllocError> {
    Ok(only(rt, &segment_row(alloc, trace)?))
}

#[test]
fn rows_of_two_segments(rt: HostRuntime) -> Result<(), Fail> {
    let alloc = rt.alloc();
    assert!(rt; entry_of(&rt, alloc, &touching(alloc, 1)?)? == (126, 10));
    assert!(rt; entry_of(&rt, alloc, &swapped(alloc, 1)?)? == (126, 9));
    assert!(rt; entry_of(&rt, alloc, &overlapping(alloc, 1)?)? == (126, 15));
    let graced = overlapping(alloc, 1)?.with_grace(1);
    assert!(rt; entry_of(&rt, alloc, &graced)? == (126, 10));
    Ok(())
}

/// Gives the only entry of the row of a trace that is made behind the row of its tasks.
fn entry_behind(
    rt: &impl Abort,
    alloc: Global,
    trace: &NamedTrace,
) -> Result<(u32, u64), AllocError> {
    let mut maker = RowMaker::new(alloc);
    clear_segments(alloc, &mut Vec::new(alloc), &mut maker, trace)?;
    Ok(only(rt, &maker.finish()?))
}

#[test]
fn segments_are_cleared_behind_tasks(rt: HostRuntime) -> Result<(), Fail> {
    let trace = touching(rt.alloc(), 1)?;
    assert!(rt; entry_behind(&rt, rt.alloc(), &trace)? == (126, 10));
    Ok(())
}
