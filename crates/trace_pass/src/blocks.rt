ghost use Rattle.std.specs.Prelude.{◌≡◌, ◌^◌, ◌<◌, ◌≤◌, ◌++◌, IfErr, IfOk};
ghost use Rattle.std.specs.Thread.{IsSync};
ghost use Rattle.trace_rules.specs.Halving.{first_part};
ghost use Rattle.word_rule.specs.Holdings.{IsOfTable, together};
ghost use Rattle.trace_pass.specs.inner.Parts.{HasRows, IsCutInto, part_of, recording_of, rest_of};
ghost use Rattle.trace_pass.specs.inner.Working.{AreHalves, CanOffer, HasRecorded, HasStoppedAt};

use crate::parts::{Part, Stopped};
use crate::recorders::Recorder;
use crate::workers::offer_part;
use mystery_io::Gate;
use std::thread::{Threads, join};
use trace_rules::WatchLine;
use word_rule::Pass;

/// How many of so many traces the first half of the workers takes.
fn count_first(traces: usize, workers: u32) -> usize
    requires few { traces < 2 ^ 32 }
    requires some { 0 < workers }
    ensures part { result ≡ first_part traces workers }
    ensures within { result ≤ traces }
{
    (traces as u64 * u64::from(workers / 2) / u64::from(workers)) as usize
}

/// Splits a part into one for the first half of the workers and one for the second.
fn halve<'a>(recorder: &Recorder, part: Part<'a>, worker: u32) -> (Part<'a>, Part<'a>)
    requires can { CanOffer recorder.now (recording_of part) (rest_of part) worker }
    requires several { 1 < part.pass.view.shares }
    ensures halves { AreHalves recorder.now worker (recording_of part.entry) (rest_of part.entry)
        (recording_of result.0) (rest_of result.0) (recording_of result.1) (rest_of result.1) }
    ensures cut { IsCutInto part.entry result.0 result.1 }
{
    let shares = part.shares();
    let first = count_first(part.left(), shares);
    let Part {
        mut pass,
        given,
        recorded,
        names,
    } = part;
    let (firsts, rest) = given.split_at(recorded + first);
    let other = recorder.table.split(&mut pass, shares - shares / 2);
    (
        Part {
            pass,
            given: firsts,
            recorded,
            names,
        },
        Part {
            pass: other,
            given: rest,
            recorded: 0,
            names,
        },
    )
}

/// Joins what the two halves of a block gave, of which the first one recorded so many traces. The
/// only fault is that memory ran out, and then what the second half gave is dropped.
fn join_halves(
    recorder: &Recorder,
    first: (Pass, Vec<WatchLine>),
    recorded: usize,
    second: (Pass, Vec<WatchLine>),
) -> Result<(Pass, Vec<WatchLine>), Stopped>
    requires first { IsOfTable recorder.now.table first.0 }
    requires second { IsOfTable recorder.now.table second.0 }
    ensures pass { IfOk result (λ r. r.0 ≡ together first.0 second.0) }
    ensures lines { IfOk result (λ r. r.1.items ≡ first.1.items ++ second.1.items) }
    ensures fault { IfErr result (λ f. (f.pass ≡ first.0) × (f.recorded ≡ recorded)) }
{
    let (mut pass, mut lines) = first;
    let (other, mut more) = second;
    if lines.append(&mut more).is_err() {
        return Err(Stopped { pass, recorded });
    }
    recorder.table.join(&mut pass, other);
    Ok((pass, lines))
}

/// Offers the part's traces by a block of workers, as `offer_block` does, one worker after another
/// in this thread.
fn offer_in_turn<G: Gate>(
    recorder: &Recorder,
    part: Part<'_>,
    worker: u32,
    every: u32,
    gate: &G,
) -> Result<(Pass, Vec<WatchLine>), Stopped>
    requires { CanOffer recorder.now (recording_of part) (rest_of part) worker }
    ensures ok { IfOk result
        (λ r. HasRecorded recorder.now every worker part.entry r.0 r.1.items) }
    ensures fault { IfErr result
        (λ f. HasStoppedAt recorder.now part.entry f.pass f.recorded) }
{
    let shares = part.shares();
    if shares < 2 {
        return offer_part(recorder, part, worker, every, gate);
    }
    let (mine, other) = halve(recorder, part, worker);
    let kept = mine.given.len();
    let first = match offer_in_turn(recorder, mine, worker, every, gate) {
        Ok(first) => first,
        Err(fault) => return Err(fault),
    };
    let Ok(second) = offer_in_turn(recorder, other, worker + shares / 2, every, gate) else {
        return Err(Stopped {
            pass: first.0,
            recorded: kept,
        });
    };
    join_halves(recorder, first, kept, second)
}

/// Offers the part's traces by a block of workers, of whom this one is the first, as many as the
/// part has shares: one half of them beside the other. With a gate that never waits, workers
/// with little to do run one after another in one thread. The only fault is that memory ran out.
pub(crate) fn offer_block<R: Threads + Sync, G: Gate + Sync>(
    rt: &R,
    recorder: &Recorder,
    part: Part<'_>,
    worker: u32,
    every: u32,
    gate: &G,
) -> Result<(Pass, Vec<WatchLine>), Stopped>
    requires { CanOffer recorder.now (recording_of part) (rest_of part) worker }
    ensures ok { IfOk result
        (λ r. HasRecorded recorder.now every worker part.entry r.0 r.1.items) }
    ensures fault { IfErr result
        (λ f. HasStoppedAt recorder.now part.entry f.pass f.recorded) }
{
    let shares = part.shares();
    if shares < 2 || gate.never_waits() && part.has_little_work() {
        return offer_in_turn(recorder, part, worker, every, gate);
    }
    let next = worker + shares / 2;
    let (mine, other) = halve(recorder, part, worker);

    // Each closure makes its part anew: nothing is known of what a closure ensures where what it
    // captures is a struct that names a lifetime.
    let Part {
        pass,
        given,
        recorded,
        names,
    } = mine;
    let Part {
        pass: next_pass,
        given: next_given,
        recorded: next_recorded,
        names: next_names,
    } = other;
    let kept = given.len();
    let (first, second) = join(
        rt,
        move || -> Result<(Pass, Vec<WatchLine>), Stopped>
            requires sync { IsSync R.row × IsSync G.row }
            requires can { CanOffer recorder.now
                (recording_of (part_of pass given.now recorded names))
                (rest_of (part_of pass given.now recorded names)) worker }
            requires rows { HasRows (part_of pass given.now recorded names) }
            ensures ok { IfOk result (λ r. HasRecorded recorder.entry.now every worker
                (part_of pass given.entry.now recorded names) r.0 r.1.items) }
            ensures fault { IfErr result (λ f. HasStoppedAt recorder.entry.now
                (part_of pass given.entry.now recorded names) f.pass f.recorded) }
        {
            let part = Part {
                pass,
                given,
                recorded,
                names,
            };
            offer_block(rt, recorder, part, worker, every, gate)
        },
        move || -> Result<(Pass, Vec<WatchLine>), Stopped>
            requires sync { IsSync R.row × IsSync G.row }
            requires can { CanOffer recorder.now
                (recording_of (part_of next_pass next_given.now next_recorded next_names))
                (rest_of (part_of next_pass next_given.now next_recorded next_names)) next }
            requires rows { HasRows
                (part_of next_pass next_given.now next_recorded next_names) }
            ensures ok { IfOk result (λ r. HasRecorded recorder.entry.now every next
                (part_of next_pass next_given.entry.now next_recorded next_names) r.0
                r.1.items) }
            ensures fault { IfErr result (λ f. HasStoppedAt recorder.entry.now
                (part_of next_pass next_given.entry.now next_recorded next_names) f.pass
                f.recorded) }
        {
            let part = Part {
                pass: next_pass,
                given: next_given,
                recorded: next_recorded,
                names: next_names,
            };
            offer_block(rt, recorder, part, next, every, gate)
        },
    );
    let first = match first {
        Ok(first) => first,
        Err(fault) => return Err(fault),
    };
    let Ok(second) = second else {
        return Err(Stopped {
            pass: first.0,
            recorded: kept,
        });
    };
    join_halves(recorder, first, kept, second)
}
