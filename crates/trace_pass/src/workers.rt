ghost use Rattle.std.specs.Prelude.{◌≡◌, ◌+◌, ◌^◌, ◌<◌, List, [], ◌∷◌, ◌++◌, length, take, IfErr};
ghost use Rattle.std.specs.Prelude.{IfOk, IsTrue, OnOk};
ghost use Rattle.trace_rules.specs.WatchMarks.{is_multiple};
ghost use Rattle.trace_types.specs.declared.named_trace.NamedTrace.{NamedTrace};
ghost use Rattle.word_rows.specs.declared.views.Reading.{Reading};
ghost use Rattle.word_rule.specs.Histories.{KnowsMore};
ghost use Rattle.trace_pass.specs.States.{HasStopped, IsOfRecorder};
ghost use Rattle.trace_pass.specs.inner.Parts.{HasSameTraces, recording_of, rest_of};
ghost use Rattle.trace_pass.specs.inner.Working.{CanOffer, HasRecorded, HasStoppedAt, HasWorked};
ghost use Rattle.trace_pass.specs.inner.Working.{IsWatching};

use crate::counting::read_number;
use crate::parts::{Part, Stopped};
use crate::recorders::Recorder;
use mystery_io::Gate;
use pipeline_tests::RowRoom;
use std::alloc::AllocError;
use trace_rules::WatchLine;
use word_rows::laws::{block_lacks, lacks_append};
use word_rule::Pass;

/// Tests whether a number is a multiple of this one, which is not 0.
fn is_multiple(every: u32, n: u32) -> bool
    ensures multiple { result ≡ is_multiple every n }
    ensures some { IsTrue result → 0 < every }
{
    every != 0 && n % every == 0
}

/// Counts the watch numbers that are due over so many traces.
fn count_due(traces: usize, every: u32) -> usize {
    if every == 0 {
        0
    } else {
        traces / every as usize
    }
}

/// Takes a watch number, if the worker has just offered a multiple of `every`. The only error is
/// that memory ran out.
fn watch(
    recorder: &Recorder,
    part: &mut Part<'_>,
    lines: &mut Vec<WatchLine>,
    block: &mut [u64],
    worker: u32,
    offered: u32,
    every: u32,
) -> Result<(), AllocError>
    requires table { IsOfRecorder recorder.now (recording_of part.old) }
    requires width { 0 < every → length block.old ≡ recorder.now.table.width }
    requires fits { offered + 1 < 2 ^ 32 }
    ensures table { IsOfRecorder recorder.now (recording_of part.new) }
    ensures same { HasSameTraces part.old part.new }
    ensures shares { part.new.pass.view.shares ≡ part.old.pass.view.shares }
    ensures more { KnowsMore part.old.pass.pasts part.new.pass.pasts }
    ensures watched { OnOk result ((base : List Reading) (firsts share : List NamedTrace)
        → (recording_of part.old).traces ≡ firsts ++ take (offered + 1) share
        → IsWatching every recorder.now.table.width worker offered share base
        part.old.pass.view.readings lines.old.items
        → IsWatching every recorder.now.table.width worker (offered + 1) share base
        part.new.pass.view.readings lines.new.items) }
{
    // For the proof alone.
    block_lacks();
    lacks_append();
    let done = offered + 1;
    if !is_multiple(every, done) {
        return Ok(());
    }
    let refuted = read_number(recorder, part, block);
    lines.push(WatchLine {
        worker,
        done,
        refuted,
    })?;
    Ok(())
}

/// Offers the part's traces in order, calls the gate before each, and takes the watch numbers that
/// are due. The only error is that memory ran out.
fn offer_each<G: Gate>(
    recorder: &Recorder,
    part: &mut Part<'_>,
    block: &mut [u64],
    worker: u32,
    every: u32,
    gate: &G,
) -> Result<Vec<WatchLine>, AllocError>
    requires can { CanOffer recorder.now (recording_of part.old) (rest_of part.old) worker }
    requires width { 0 < every → length block.old ≡ recorder.now.table.width }
    ensures same { (part.new.given ≡ part.old.given) × (part.new.names ≡ part.old.names) }
    ensures ok { IfOk result (λ lines. HasWorked recorder.now every worker (recording_of part.old)
        (rest_of part.old) (rest_of part.old ∷ []) (recording_of part.new) lines.items) }
    ensures all { IfOk result (λ _. part.new.recorded ≡ length part.old.given) }
    ensures err { IfErr result (λ _. HasStopped recorder.now (recording_of part.old)
        (rest_of part.old) (recording_of part.new)) }
{
    let count = part.left();
    let mut lines = Vec::with_capacity(recorder.alloc, count_due(count, every))?;
    let mut room = RowRoom::new(recorder.alloc);
    for offered in 0..count as u32 {
        gate.turn(worker, offered);
        recorder.offer_next(&mut room, part)?;
        watch(recorder, part, &mut lines, block, worker, offered, every)?;
    }
    Ok(lines)
}

/// Offers the part's traces as one worker, whose room for readings is there before its first step.
/// The only fault is that memory ran out.
pub(crate) fn offer_part<G: Gate>(
    recorder: &Recorder,
    mut part: Part<'_>,
    worker: u32,
    every: u32,
    gate: &G,
) -> Result<(Pass, Vec<WatchLine>), Stopped>
    requires can { CanOffer recorder.now (recording_of part) (rest_of part) worker }
    requires one { part.pass.view.shares ≡ 1 }
    ensures ok { IfOk result
        (λ r. HasRecorded recorder.now every worker part.entry r.0 r.1.items) }
    ensures fault { IfErr result
        (λ f. HasStoppedAt recorder.now part.entry f.pass f.recorded) }
{
    let width = if every == 0 {
        0
    } else {
        recorder.width() as usize
    };
    let Ok(mut block) = Vec::from_elem(recorder.alloc, 0u64, width) else {
        return Err(part.stop());
    };
    let block = block.as_mut_slice();
    let Ok(lines) = offer_each(recorder, &mut part, block, worker, every, gate) else {
        return Err(part.stop());
    };
    let stopped = part.stop();
    Ok((stopped.pass, lines))
}
