ghost use Rattle.std.specs.Prelude.{◌≡◌, ◌^◌, ◌<◌, ◌++◌, All, length, IfErr, IfOk};
ghost use Rattle.refute_tests.specs.Clearing.{HaveNamesBelow};
ghost use Rattle.trace_rules.specs.Halving.{shares_of};
ghost use Rattle.word_rule.specs.Histories.{IsOfOneHistory, KnowsMore};
ghost use Rattle.trace_pass.specs.States.{HasStopped, IsOfRecorder};
ghost use Rattle.trace_pass.specs.Watch.{HasWatched};

use crate::blocks::offer_block;
use crate::parts::{Part, Stopped};
use crate::recorders::Recorder;
use crate::recordings::Recording;
use crate::watch_lines::WatchLines;
use mystery_io::Gate;
use std::thread::Threads;
use trace_types::NamedTrace;

/// Memory ran out. The recording holds only traces that were offered, each once, and may hold fewer
/// shares than it had.
#[derive(Drop)]
pub struct OfferAllFault {
    pub recording: Recording,
}

/// Appends the other traces, or takes them whole where there are none before them. The only error is
/// that memory ran out; it gives the first ones back.
fn append_all(
    mut traces: Vec<NamedTrace>,
    mut others: Vec<NamedTrace>,
) -> Result<Vec<NamedTrace>, Vec<NamedTrace>>
    ensures ok { IfOk result (λ all. all.items ≡ traces.items ++ others.items) }
    ensures err { IfErr result (λ firsts. firsts.items ≡ traces.items) }
{
    if traces.is_empty() {
        return Ok(others);
    }
    if traces.append(&mut others).is_err() {
        return Err(traces);
    }
    Ok(traces)
}

/// Offers the traces by as many workers as the recording has shares. The workers stand beside one
/// another; with a gate that never waits, those with little to do run one after another in one
/// thread. The workers share the traces by halving, and each calls the gate before it offers one.
/// The recording then has all shares again, and the traces follow in the order given. Just after
/// each multiple of `every` of its traces a worker takes a watch number; where `every` is 0 there
/// is none. The only fault is that memory ran out.
pub fn offer_all<R: Threads + Sync, G: Gate + Sync>(
    rt: &R,
    recorder: &Recorder,
    mut recording: Recording,
    traces: Vec<NamedTrace>,
    every: u32,
    gate: &G,
) -> Result<(Recording, WatchLines), OfferAllFault>
    requires table { IsOfRecorder recorder.now recording }
    requires names { All (HaveNamesBelow recorder.now.names) traces.items }
    requires few { length traces.items < 2 ^ 32 }
    ensures table { IfOk result (λ r. IsOfRecorder recorder.now r.0) }
    ensures shares { IfOk result (λ r. r.0.pass.view.shares ≡ recording.pass.view.shares) }
    ensures traces { IfOk result (λ r. r.0.traces ≡ recording.traces ++ traces.items) }
    ensures watched { IfOk result (λ r. HasWatched every recorder.now.table.width
        (shares_of traces.items recording.pass.view.shares) recording r.0 r.1) }

    // What the recording knew of the history before still stands in it.
    ensures more { IfOk result (λ r. KnowsMore recording.pass.pasts r.0.pass.pasts) }

    // What it knows then is of one history, after which a seat has its view.
    ensures one { IfOk result (λ r. IsOfOneHistory recorder.now.table.width
        recorder.now.table.all r.0.pass.pasts r.0.pass.view) }

    // The recording has offered the first of the traces, each once, and may hold fewer shares.
    ensures fault { IfErr result (λ f. HasStopped recorder.now recording traces.items
        f.recording) }
{
    let Recording {
        pass,
        traces: recorded,
        names,
    } = recording;
    let base = recorded.len();
    let all = match append_all(recorded, traces) {
        Ok(all) => all,
        Err(traces) => {
            return Err(OfferAllFault {
                recording: Recording {
                    pass,
                    traces,
                    names,
                },
            });
        }
    };
    let part = Part {
        pass,
        given: all.as_slice(),
        recorded: base,
        names,
    };
    match offer_block(rt, recorder, part, 0, every, gate) {
        Ok((mut pass, lines)) => {
            recorder.table.tell(&mut pass);
            let recording = Recording {
                pass,
                traces: all,
                names,
            };
            Ok((recording, WatchLines::of(lines)))
        }
        Err(Stopped { pass, recorded }) => {
            let mut traces = all;
            traces.truncate(recorded);
            let recording = Recording {
                pass,
                traces,
                names,
            };
            Err(OfferAllFault { recording })
        }
    }
}
