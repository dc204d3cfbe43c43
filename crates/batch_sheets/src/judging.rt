ghost use Rattle.std.specs.Prelude.{◌≡◌, ◌^◌, ◌<◌, ◌≤◌, ◌++◌, All, IfOk, OnOk, length, map};
ghost use Rattle.std.specs.Prelude.{slice_range};
ghost use Rattle.std.specs.Thread.{IsSync};
ghost use Rattle.trace_types.specs.Batch.{PlainTrace};
ghost use Rattle.trace_types.specs.Times.{AreTimely};
ghost use Rattle.segment_cut.specs.NumberedCuts.{NumberedCut};
ghost use Rattle.session_rules.specs.Batches.{AreJudged};
ghost use Rattle.batch_sheets.specs.Named.{HasFewSegments, cut_trace};
ghost use Rattle.batch_sheets.specs.inner.Judging.{Judges, AreJudgedSoFar};

use crate::parts::LEAST_PART;
use event_table::{GatheredEvents, RawEvents};
use segment_cut::{CutTrace, TraceFault, cut};
use session_rules::Refused;
use std::alloc::{AllocError, Global};
use std::thread::{Threads, join};

/// The traces of a batch: the valid ones, cut into their segments, and those that are refused.
#[derive(Drop)]
pub struct JudgedTraces<'a> {
    /// The valid traces, in order.
    pub valid: Vec<CutTrace<'a>>,
    /// The refused traces, in order.
    pub refused: Vec<Refused>,
}

/// Cuts a trace, and appends it to the valid or to the refused ones.
fn judge<'a>(
    alloc: Global,
    raw: &RawEvents<'a>,
    judged: &mut JudgedTraces<'a>,
) -> Result<(), AllocError>
    requires few { length raw.now.trace.events < 2 ^ 32 }
    requires timely { AreTimely raw.now.trace.events }
    ensures { OnOk result (Judges raw.now.texts raw.now.trace judged.old judged.new) }
{
    match cut(alloc, raw) {
        Ok(trace) => judged.valid.push(trace)?,
        Err(TraceFault::Memory) => return Err(AllocError),
        Err(fault) => {
            let request = raw.request().copy(alloc)?;
            judged.refused.push(Refused { request, fault })?;
        }
    }
    Ok(())
}

/// Cuts the traces from one index up to another.
fn judge_range<'a>(
    alloc: Global,
    gathered: &'a GatheredEvents,
    start: usize,
    end: usize,
) -> Result<JudgedTraces<'a>, AllocError>
    requires timely { All (λ (t : PlainTrace). AreTimely t.events) gathered.now.traces }
    requires few { All (λ (t : PlainTrace). length t.events < 2 ^ 32) gathered.now.traces }
    requires rising { start ≤ end }
    requires within { end ≤ length gathered.now.traces }
    ensures { IfOk result (AreJudgedSoFar gathered.now.texts
        (slice_range gathered.now.traces start end)) }
{
    let mut judged = JudgedTraces {
        valid: Vec::with_capacity(alloc, end - start)?,
        refused: Vec::new(alloc),
    };
    for index in start..end {
        judge(alloc, &gathered.trace(index), &mut judged)?;
    }
    Ok(judged)
}

/// Appends the traces of a later part to those of an earlier one.
fn join_parts<'a>(
    mut front: JudgedTraces<'a>,
    mut back: JudgedTraces<'a>,
) -> Result<JudgedTraces<'a>, AllocError>
    ensures valid { IfOk result
        (λ j. j.valid.items ≡ front.entry.valid.items ++ back.entry.valid.items) }
    ensures refused { IfOk result
        (λ j. j.refused.items ≡ front.entry.refused.items ++ back.entry.refused.items) }
{
    front.valid.append(&mut back.valid)?;
    front.refused.append(&mut back.refused)?;
    Ok(front)
}

/// Cuts the traces from one index up to another in so many parts, in parallel.
fn judge_parts<'a, R: Threads + Sync>(
    rt: &R,
    alloc: Global,
    gathered: &'a GatheredEvents,
    start: usize,
    end: usize,
    parts: usize,
) -> Result<JudgedTraces<'a>, AllocError>
    requires timely { All (λ (t : PlainTrace). AreTimely t.events) gathered.now.traces }
    requires few { All (λ (t : PlainTrace). length t.events < 2 ^ 32) gathered.now.traces }
    requires rising { start ≤ end }
    requires within { end ≤ length gathered.now.traces }
    ensures { IfOk result (AreJudgedSoFar gathered.now.texts
        (slice_range gathered.now.traces start end)) }
{
    if parts <= 1 {
        return judge_range(alloc, gathered, start, end);
    }
    let middle = end - (end - start) / parts;
    let (back, front) = join(
        rt,
        move || -> Result<JudgedTraces, AllocError>
            requires timely { All (λ (t : PlainTrace). AreTimely t.events)
                gathered.now.traces }
            requires few { All (λ (t : PlainTrace). length t.events < 2 ^ 32)
                gathered.now.traces }
            requires rising { middle ≤ end }
            requires within { end ≤ length gathered.now.traces }
            ensures { IfOk result (AreJudgedSoFar gathered.entry.now.texts
                (slice_range gathered.entry.now.traces middle end)) }
        { judge_range(alloc, gathered, middle, end) },
        move || -> Result<JudgedTraces, AllocError>
            requires sync { IsSync R.row }
            requires timely { All (λ (t : PlainTrace). AreTimely t.events)
                gathered.now.traces }
            requires few { All (λ (t : PlainTrace). length t.events < 2 ^ 32)
                gathered.now.traces }
            requires rising { start ≤ middle }
            requires within { middle ≤ length gathered.now.traces }
            requires parts { 1 < parts }
            ensures { IfOk result (AreJudgedSoFar gathered.entry.now.texts
                (slice_range gathered.entry.now.traces start middle)) }
        { judge_parts(rt, alloc, gathered, start, middle, parts - 1) },
    );
    join_parts(front?, back?)
}

/// Cuts the traces of a batch by up to so many workers, in parallel. The only error is out of
/// memory.
pub fn judge_batch<'a, R: Threads + Sync>(
    rt: &R,
    alloc: Global,
    gathered: &'a GatheredEvents,
    workers: u32,
) -> Result<JudgedTraces<'a>, AllocError>
    requires timely { All (λ (t : PlainTrace). AreTimely t.events) gathered.now.traces }
    requires few { All (λ (t : PlainTrace). length t.events < 2 ^ 32) gathered.now.traces }
    ensures judged { IfOk result (λ j. AreJudged gathered.now.traces (map cut_trace j.valid.items)
        j.refused.items) }
    ensures few { IfOk result (λ j. All HasFewSegments (map cut_trace j.valid.items)) }
    ensures texts { IfOk result
        (λ j. All (λ (c : NumberedCut). c.texts ≡ gathered.now.texts) j.valid.items) }
{
    let count = gathered.len();
    let parts = (workers as usize).min(count / LEAST_PART);
    judge_parts(rt, alloc, gathered, 0, count, parts)
}
