ghost use Rattle.std.specs.Prelude.{◌≡◌, ◌<◌, All, length, OnErr, OnOk};
ghost use Rattle.refute_tests.specs.Clearing.{HaveNamesBelow};
ghost use Rattle.word_rows.specs.Accounts.{AreZero};
ghost use Rattle.word_rows.specs.Changes.{readings_from, with_readings};
ghost use Rattle.word_rule.specs.Histories.{KnowsMore};
ghost use Rattle.word_rule.specs.Shown.{shows};
ghost use Rattle.trace_pass.specs.States.{IsOfRecorder};
ghost use Rattle.trace_pass.specs.inner.LittleWork.{is_little_work};
ghost use Rattle.trace_pass.specs.inner.Parts.{HasOfferedNext, HasSameTraces, recording_of, rest_of};

use crate::recorders::Recorder;
use pipeline_tests::RowRoom;
use std::alloc::AllocError;
use std::marker::Model;
use trace_types::NamedTrace;
use word_rule::Pass;

/// A part of a recording, for one worker or several: a pass, and traces that are lent to it, of
/// which so many are recorded. The pass's done rows are the whole rows of these.
#[derive(Drop)]
pub(crate) struct Part<'a> {
    pub(crate) pass: Pass,
    pub(crate) given: &'a [NamedTrace],
    pub(crate) recorded: usize,
    pub(crate) names: u32,
}

/// Work below this is little, in nanoseconds, roughly: ten times what it takes to start a thread
/// and join it.
const LITTLE_WORK: usize = 262_144;

/// What it takes to offer a trace, in nanoseconds, roughly, beside one for each pair of its
/// segments.
const TRACE_WORK: usize = 256;

/// A trace of so many segments is by itself not little work.
const MANY_SEGMENTS: usize = 512;

/// Tests whether offering the traces is little work. Looks at no more of them than it needs to tell.
fn is_little_work(traces: &[NamedTrace]) -> bool
    ensures { result ≡ is_little_work traces.now }
{
    let mut work = 0;
    'traces: for trace in traces {
        let segments = trace.segments.items().len();
        if segments >= MANY_SEGMENTS {
            return false;
        }
        work += segments * segments + TRACE_WORK;
        if work >= LITTLE_WORK {
            return false;
        }
    }
    true
}

/// What is left of a part: its pass, and how many of its traces are recorded.
#[derive(Drop)]
pub(crate) struct Stopped {
    pub(crate) pass: Pass,
    pub(crate) recorded: usize,
}

impl<'a> Model for Part<'a> {
    ghost use Rattle.trace_pass.specs.inner.Parts.{HasRows, PartState};

    ghost Value = { PartState };

    ghost view = { λ p. record {
      pass = p.pass;
      given = p.given.now;
      recorded = p.recorded;
      names = p.names;
    } };

    ghost invariant = { λ p. HasRows (record {
      pass = p.pass;
      given = p.given.now;
      recorded = p.recorded;
      names = p.names;
    }) };
}

impl Part<'_> {
    ghost use Rattle.std.specs.Prelude.{◌≡◌, ◌+◌, ◌<◌, IsTrue, length};
    ghost use Rattle.word_rows.specs.Changes.{is_idle};
    ghost use Rattle.trace_pass.specs.inner.LittleWork.{is_little_work};
    ghost use Rattle.trace_pass.specs.inner.Parts.{HasRows, rest_of};

    /// Tells the shares of this part.
    pub(crate) fn shares(&self) -> u32
        ensures shares { result ≡ self.now.pass.view.shares }
        ensures some { 0 < result }
        ensures rests { IsTrue (is_idle self.now.pass.view) }
        ensures rows { HasRows self.now }
    {
        self.pass.shares()
    }

    /// Counts the traces that are not recorded yet.
    pub(crate) fn left(&self) -> usize
        ensures left { result ≡ length (rest_of self.now) }
        ensures counts { self.now.recorded + result ≡ length self.now.given }
    {
        self.given.len() - self.recorded
    }

    /// Tests whether offering the traces that are left is little work.
    pub(crate) fn has_little_work(&self) -> bool
        ensures { result ≡ is_little_work (rest_of self.now) }
    {
        is_little_work(&self.given[self.recorded..])
    }

    /// Gives the pass and the number of recorded traces. Takes no memory.
    pub(crate) fn stop(self) -> Stopped
        ensures pass { result.pass ≡ self.entry.pass }
        ensures recorded { result.recorded ≡ self.entry.recorded }
        ensures rows { HasRows self.entry }
    {
        Stopped {
            pass: self.pass,
            recorded: self.recorded,
        }
    }
}

impl Recorder {
    /// Offers the next of the part's traces, which is then recorded. Its row is there before the
    /// first step, so nothing fails after it; the only error is that memory ran out.
    pub(crate) fn offer_next(
        &self,
        room: &mut RowRoom,
        part: &mut Part<'_>,
    ) -> Result<(), AllocError>
        requires table { IsOfRecorder self.now (recording_of part.old) }
        requires names { All (HaveNamesBelow self.now.names) (rest_of part.old) }
        requires some { part.old.recorded < length part.old.given }
        ensures ok { OnOk result (HasOfferedNext self.now part.old part.new) }
        ensures err { OnErr result (part.new ≡ part.old) }
    {
        let trace = &part.given[part.recorded];
        let row = room.whole_row(trace)?;
        self.table.offer(&mut part.pass, &row);
        room.give_back(row);
        part.recorded += 1;
        Ok(())
    }

    /// Reads the words, as `read` does for a recording.
    pub(crate) fn read_part(&self, part: &mut Part<'_>, into: &mut [u64])
        requires table { IsOfRecorder self.now (recording_of part.old) }
        requires width { length into.old ≡ self.now.table.width }
        ensures table { part.new.pass.table_id ≡ part.old.pass.table_id }
        ensures same { HasSameTraces part.old part.new }
        ensures readings { part.new.pass.view ≡
            with_readings part.old.pass.view (readings_from 0 into.new) }
        ensures shown { AreZero into.new (shows part.old.pass.view) }
        ensures more { KnowsMore part.old.pass.pasts part.new.pass.pasts }
    {
        self.table.read(&mut part.pass, into);
    }
}
