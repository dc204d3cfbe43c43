ghost use Rattle.std.specs.Prelude.{◌≡◌, ◌<◌, ◌≤◌, ◌^◌, All, IfOk, length, map};
ghost use Rattle.std.specs.Borrow.{Bor};
ghost use Rattle.std.specs.List.{list_all};
ghost use Rattle.name_meetings.specs.Tables.{IsTableOf};
ghost use Rattle.name_meetings.specs.inner.Gaps.{has_narrow_times, is_narrow, is_narrow_trace};
ghost use Rattle.trace_types.specs.declared.named_segment.NamedSegment.{NamedSegment};
ghost use Rattle.trace_types.specs.declared.named_trace.NamedTrace.{NamedTrace};

use crate::strip_table::{StripTable, strips_of};
use evidence_rules::Between;
use std::alloc::{AllocError, Global};
use std::marker::Model;
use std::thread::Threads;
use trace_types::{NamedSegment, NamedTrace};
use worker_limit::WorkerLimit;

/// Two times that are nearer to 1970 than this, in nanoseconds, have a difference of 64 bits.
const NARROW: i64 = 1 << 62;

/// The rows of all names.
#[derive(Drop)]
pub(crate) enum StripTables {
    /// Gaps of 64 bits hold what all times allow.
    Narrow(StripTable<i64>),
    /// Some time is too far from 1970 for that.
    Wide(StripTable<i128>),
}

/// The figures of the meetings of each two of some names, seen as the number of names and the
/// figures of each two.
#[derive(Drop)]
pub struct MeetingTable {
    pub(crate) strips: StripTables,
}

impl Model for MeetingTable {
    ghost use Rattle.name_meetings.specs.Tables.{TableState};
    ghost use Rattle.name_meetings.specs.inner.States.{state_of};

    ghost Value = { TableState };

    ghost view = { λ t. state_of t.strips };
}

impl MeetingTable {
    ghost use Rattle.std.specs.Prelude.{◌≡◌, ◌<◌};
    ghost use Rattle.name_meetings.specs.Tables.{figures_of};

    /// Gives the figures of the meetings of two names. It takes no memory.
    pub fn between(&self, first: u32, second: u32) -> Between
        requires first { first < self.now.names }
        requires second { second < self.now.names }
        ensures { result ≡ figures_of self.now first second }
    {
        match &self.strips {
            StripTables::Narrow(table) => table.between(first, second),
            StripTables::Wide(table) => table.between(first, second),
        }
    }
}

/// Tells whether a time is near enough to 1970 for gaps of 64 bits.
fn is_narrow(time: i64) -> bool
    ensures { result ≡ is_narrow time }
{
    -NARROW <= time && time < NARROW
}

/// Tells whether both times of a segment are near enough for that.
fn has_narrow_times(segment: &NamedSegment) -> bool
    ensures { result ≡ has_narrow_times segment.now }
{
    is_narrow(segment.start) && is_narrow(segment.end)
}

/// Tells whether all times of a trace are near enough for that.
fn is_narrow_trace(trace: &NamedTrace) -> bool
    ensures { result ≡ is_narrow_trace trace.now }
{
    trace
        .segments
        .items()
        .iter()
        .all(|segment| has_narrow_times(segment))
}

/// Tells whether all times of traces are near enough for that.
fn are_narrow(traces: &[&NamedTrace]) -> bool
    ensures { result
        ≡ list_all (λ (t : Bor NamedTrace). is_narrow_trace t.now) traces.now }
{
    traces.iter().all(|trace| is_narrow_trace(trace))
}

/// Makes the table of the meetings of each two names below a number in traces: one pass over the
/// traces for each sixteen names, shared by up to as many threads as the limit allows. The only
/// error is out of memory.
pub fn meet_all<R: Threads + Sync>(
    workers: &WorkerLimit<'_, R>,
    alloc: Global,
    names: u32,
    traces: &[&NamedTrace],
) -> Result<MeetingTable, AllocError>
    requires few_names { names ≤ 512 }
    requires few { length traces.now < 2 ^ 32 }
    requires below { All (λ (t : Bor NamedTrace). All (λ (s : NamedSegment). s.name < names)
        t.now.segments) traces.now }
    ensures names { IfOk result (λ table. table.names ≡ names) }
    ensures told { IfOk result
        (IsTableOf names (map (λ (t : Bor NamedTrace). t.now) traces.now)) }
{
    let strips = if are_narrow(traces) {
        StripTables::Narrow(strips_of(workers, alloc, names, traces)?)
    } else {
        StripTables::Wide(strips_of(workers, alloc, names, traces)?)
    };
    Ok(MeetingTable { strips })
}
