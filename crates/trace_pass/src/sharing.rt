ghost use Rattle.std.specs.Prelude.{◌≡◌, ◌<◌, IfErr, OnOk};
ghost use Rattle.word_rows.specs.Changes.{left_view, new_view};
ghost use Rattle.word_rule.specs.Histories.{IsOfOneHistory};
ghost use Rattle.word_rule.specs.Holdings.{with_view};
ghost use Rattle.trace_pass.specs.States.{IsOfRecorder, both_recordings, empty_recording, with_pass};

use crate::recorders::Recorder;
use crate::recordings::Recording;

/// Memory ran out before the step: the other recording comes back.
#[derive(Drop)]
pub struct JoinFault {
    pub other: Recording,
}

impl Recorder {
    /// Makes a new recording of no trace with so many of the recording's shares, which has seen
    /// what the recording has done and seen. Takes no memory.
    pub fn split(&self, recording: &mut Recording, shares: u32) -> Recording
        requires table { IsOfRecorder self.now recording.old }
        requires some { 0 < shares }
        requires fewer { shares < recording.old.pass.view.shares }
        ensures old { recording.new ≡ with_pass recording.old
            (with_view recording.old.pass (left_view shares recording.old.pass.view)) }
        ensures new { result ≡ empty_recording recording.old
            (with_view recording.old.pass (new_view shares recording.old.pass.view)) }
    {
        let pass = self.table.split(&mut recording.pass, shares);
        Recording {
            pass,
            traces: Vec::new(self.alloc),
            names: self.names,
        }
    }

    /// Takes in another recording: the shares add up, and its traces and all that its pass did and
    /// was told follow. What both knew is of one history. The room for the traces is taken before the
    /// step; the only fault is that memory ran out.
    pub fn join(&self, recording: &mut Recording, other: Recording) -> Result<(), JoinFault>
        requires recording { IsOfRecorder self.now recording.old }
        requires other { IsOfRecorder self.now other }
        ensures ok { OnOk result (recording.new ≡ both_recordings recording.old other) }
        ensures one { OnOk result (IsOfOneHistory self.now.table.width self.now.table.all
            recording.new.pass.pasts recording.new.pass.view) }
        ensures fault { IfErr result (λ f. (f.other ≡ other) × (recording.new ≡ recording.old)) }
    {
        let Recording {
            pass,
            mut traces,
            names,
        } = other;
        if recording.traces.append(&mut traces).is_err() {
            let other = Recording {
                pass,
                traces,
                names,
            };
            return Err(JoinFault { other });
        }
        drop(traces);
        self.table.join(&mut recording.pass, pass);
        Ok(())
    }
}
