ghost use Rattle.std.specs.Prelude.{◌≡◌, ◌≤◌, length, IfErr, IfOk};
ghost use Rattle.refute_tests.specs.Survivors.{AreSurvivors};
ghost use Rattle.word_rule.specs.Faults.{IsCloseFault};
ghost use Rattle.word_rule.specs.Histories.{EndsWith};
ghost use Rattle.word_rule.specs.Holdings.{Holding, Opened};
ghost use Rattle.trace_pass.specs.Faults.{IsRecorderFault};
ghost use Rattle.trace_pass.specs.Rows.{LackOnlyRefuted};
ghost use Rattle.trace_pass.specs.States.{IsOfRecorder};
ghost use Rattle.trace_pass.specs.inner.Closing.{HasParts};

use crate::recorders::Recorder;
use crate::recordings::Recording;
use pipeline_tests::DaySheet;
use pipeline_tests::laws::{met_rows_survive, rows_clear_refuted};
use std::alloc::Global;
use trace_types::NamedTrace;
use word_rule::CloseFault;

/// Why a recorder was not closed. The recorder and the recording are unchanged.
#[derive(Drop)]
pub enum RecorderFault {
    /// Memory for the words ran out.
    Memory {
        recorder: Recorder,
        recording: Recording,
    },
    /// The recording has fewer than all shares.
    PassesOut {
        recorder: Recorder,
        recording: Recording,
        have: u32,
        all: u32,
    },
}

/// Puts the recorder and the recording together again, of whose table and pass this was the fault.
fn give_back(fault: CloseFault, alloc: Global, traces: Vec<NamedTrace>, names: u32) -> RecorderFault
    requires { HasParts names traces.items fault }
    ensures { (table : Opened) (pass : Holding) → IsCloseFault table pass fault
        → IsRecorderFault (record { table = table; names = names })
        (record { pass = pass; traces = traces.items; names = names }) result }
{
    match fault {
        CloseFault::Memory { table, pass } => RecorderFault::Memory {
            recorder: Recorder {
                table,
                names,
                alloc,
            },
            recording: Recording {
                pass,
                traces,
                names,
            },
        },
        CloseFault::PassesOut {
            table,
            pass,
            have,
            all,
        } => RecorderFault::PassesOut {
            recorder: Recorder {
                table,
                names,
                alloc,
            },
            recording: Recording {
                pass,
                traces,
                names,
            },
            have,
            all,
        },
    }
}

impl Recorder {
    /// Ends the recorder, where the recording has all shares, and gives the sheet of exactly the
    /// recorded traces.
    pub fn close(self, recording: Recording) -> Result<DaySheet, RecorderFault>
        requires { IsOfRecorder self recording }
        ensures whole { IfOk result (λ _. recording.pass.view.shares ≡ self.table.all) }
        ensures traces { IfOk result (λ d. d.traces ≡ recording.traces) }
        ensures words { IfOk result (λ d. AreSurvivors recording.traces d.words) }
        ensures width { IfOk result (λ d. length d.words ≡ self.table.width) }

        // Each bit that a reading of the recording lacks is one of the recorded traces' rows.
        ensures readings { IfOk result
            (λ _. LackOnlyRefuted recording.pass.view.readings recording.traces) }

        // One history goes on from all that the pass knows, ends with these words, and is sound.
        ensures ends { IfOk result (λ d. EndsWith self.table.width self.table.all
            recording.pass.pasts recording.pass.view d.words) }
        ensures fault { IfErr result (IsRecorderFault self recording) }
    {
        let Recorder {
            table,
            names,
            alloc,
        } = self;
        let Recording {
            pass,
            traces,
            names: _,
        } = recording;
        // For the proof alone.
        met_rows_survive();
        rows_clear_refuted();
        match table.close(alloc, pass) {
            Ok(closed) => {
                // For the proof alone.
                let _bound = closed.words.words();
                Ok(DaySheet::of_words(traces, closed.words))
            }
            Err(fault) => Err(give_back(fault, alloc, traces, names)),
        }
    }
}
