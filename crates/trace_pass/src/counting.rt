ghost use Rattle.std.specs.Prelude.{◌≡◌, ◌≤◌, length};
ghost use Rattle.trace_rules.specs.Hypotheses.{IsAtLeastRefuted};
ghost use Rattle.trace_types.specs.Parts.{by_number};
ghost use Rattle.word_rows.specs.Accounts.{AreZero, lacks};
ghost use Rattle.word_rows.specs.Changes.{readings_from, with_readings};
ghost use Rattle.word_rows.specs.Words.{AreWords};
ghost use Rattle.word_rule.specs.Histories.{KnowsMore};
ghost use Rattle.trace_pass.specs.Counts.{zeros};
ghost use Rattle.trace_pass.specs.States.{IsOfRecorder};
ghost use Rattle.trace_pass.specs.inner.Parts.{HasSameTraces, recording_of};

use crate::parts::Part;
use crate::recorders::Recorder;
use hypothesis_index::laws::{pairs_follow, places_differ, places_fit};
use pipeline_tests::laws::rows_clear_refuted;
use word_rows::laws::clears_below;

/// Counts the bits that are 0.
fn count_zeros(words: &[u64]) -> u32
    requires { length words.now ≤ 8302 }
    ensures count { result ≡ zeros words.now }
    ensures bound { AreWords words.now }
{
    let mut all = 0;
    for word in words {
        all += word.count_zeros();
    }
    all
}

/// Reads the words and counts the bits that are 0: no fewer than the relations that the recorded
/// traces refute.
pub(crate) fn read_number(recorder: &Recorder, part: &mut Part<'_>, into: &mut [u64]) -> u32
    requires table { IsOfRecorder recorder.now (recording_of part.old) }
    requires width { length into.old ≡ recorder.now.table.width }
    ensures table { part.new.pass.table_id ≡ part.old.pass.table_id }
    ensures same { HasSameTraces part.old part.new }
    ensures readings { part.new.pass.view ≡
        with_readings part.old.pass.view (readings_from 0 into.new) }
    ensures shown { AreZero into.new (lacks part.old.pass.view.readings) }
    ensures more { KnowsMore part.old.pass.pasts part.new.pass.pasts }
    ensures count { result ≡ zeros into.new }
    ensures bound { AreWords into.new }
    ensures least { IsAtLeastRefuted by_number (recording_of part.old).traces result }
{
    // For the proof alone.
    places_differ();
    places_fit();
    pairs_follow();
    clears_below();
    rows_clear_refuted();
    part.shares();
    recorder.width();
    recorder.read_part(part, into);
    count_zeros(into)
}
