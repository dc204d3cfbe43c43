ghost use Rattle.std.specs.Prelude.{◌≡◌, ℕ, ◌<◌, List, length, slice_index};
ghost use Rattle.word_rows.specs.declared.events.StepEvent.{StepEvent};
ghost use Rattle.word_rows.specs.Words.{bit_of};
ghost use Rattle.word_rows.specs.Accounts.{AreZero};
ghost use Rattle.word_rows.specs.Changes.{readings_from, with_readings};
ghost use Rattle.word_rule.specs.Shown.{shows};
ghost use Rattle.word_rule.specs.Histories.{ArePrefixes, IsLoadBetween, IsOnePast, KnowsMore, WasCleared, read_until};
ghost use Rattle.trace_pass.specs.States.{IsOfRecorder};

use crate::recorders::Recorder;
use crate::recordings::Recording;

impl Recorder {
    /// Reads the words, one step for each, the words rising. The readings are then the last of the
    /// recording's. Takes no memory.
    pub fn read(&self, recording: &mut Recording, into: &mut [u64])
        requires table { IsOfRecorder self.now recording.old }
        requires width { length into.old ≡ self.now.table.width }
        ensures table { recording.new.pass.table_id ≡ recording.old.pass.table_id }
        ensures traces { recording.new.traces ≡ recording.old.traces }
        ensures names { recording.new.names ≡ recording.old.names }
        ensures readings { recording.new.pass.view ≡
            with_readings recording.old.pass.view (readings_from 0 into.new) }

        // The words lack all bits of the recording's done and seen rows, and all that its earlier
        // readings lack.
        ensures shown { AreZero into.new (shows recording.old.pass.view) }

        // Each value is the machine's reply to one load in every history that goes on from what the
        // pass then knows.
        ensures stands { (i : ℕ) → i < length into.new
            → IsLoadBetween self.now.table.width self.now.table.all recording.old.pass.pasts
            (read_until recording.old.pass.view into.new i) i (slice_index into.new i)
            recording.new.pass.pasts }
        ensures more { KnowsMore recording.old.pass.pasts recording.new.pass.pasts }
        ensures one { IsOnePast recording.new.pass.pasts }

        // In every such history this word is loaded with this value when some view has cleared each
        // bit that is 0.
        ensures cleared { (i b : ℕ) → i < length into.new → b < 64 → bit_of into.new i b ≡ 0
            → (history : List StepEvent) → ArePrefixes recording.new.pass.pasts history
            → WasCleared self.now.table.width self.now.table.all history i
            (slice_index into.new i) b }
    {
        self.table.read(&mut recording.pass, into);
    }
}
