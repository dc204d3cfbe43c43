ghost use Rattle.std.specs.Prelude.{◌≡◌, ◌+◌, ◌*◌, ◌<◌, ◌≤◌, ◌^◌, All, length, map, slice_set};
ghost use Rattle.std.specs.Borrow.{Bor};
ghost use Rattle.name_meetings.specs.inner.Adding.{IsCounted, with_meeting};
ghost use Rattle.name_meetings.specs.inner.Noting.{AreAtMost, AreBelow, AreNew, AreTimed};
ghost use Rattle.name_meetings.specs.inner.Noting.{IsRowAlone, IsRowAtMost, IsTimed, Meetings};
ghost use Rattle.name_meetings.specs.inner.Noting.{TellsBoth, TellsSome, and_then, entry};
ghost use Rattle.name_meetings.specs.inner.Noting.{meetings_among, meetings_with, met_onward};
ghost use Rattle.name_meetings.specs.inner.Noting.{met_turned, onward_meeting, onwards};
ghost use Rattle.name_meetings.specs.inner.Noting.{turned_meeting, turneds};
ghost use Rattle.trace_types.specs.declared.named_segment.NamedSegment.{NamedSegment};
ghost use Rattle.trace_types.specs.declared.named_trace.NamedTrace.{NamedTrace};

use crate::circle::{ROWS, is_in_row, steps_between, width};
use crate::gap::Gap;
use crate::pair_figures::{GapMeeting, PairFigures};
use trace_types::{NamedSegment, NamedTrace};

/// Adds the meeting of two segments of a trace to the figures at a place.
fn note_meeting<G: Gap>(
    figures: &mut [PairFigures<G>],
    place: usize,
    index: u32,
    trace: &NamedTrace,
    one: &NamedSegment,
    other: &NamedSegment,
)
    requires within { place < length figures.old }
    requires few { IsCounted (entry (onwards G.value figures.old) place) 4294967294 }
    requires one { IsTimed G.fits one.now }
    requires other { IsTimed G.fits other.now }
    ensures onward { onwards G.value figures.new ≡ slice_set (onwards G.value figures.old) place
        (with_meeting (entry (onwards G.value figures.old) place)
        (onward_meeting index trace.now one.now other.now)) }
    ensures turned { turneds G.value figures.new ≡ slice_set (turneds G.value figures.old) place
        (with_meeting (entry (turneds G.value figures.old) place)
        (turned_meeting index trace.now one.now other.now)) }
{
    let met = GapMeeting {
        trace: index,
        grace: trace.grace,
        gap: G::between(one.end, other.start),
        back: G::between(other.end, one.start),
    };
    figures[place].note(&met);
}

/// Adds the meetings of one segment of a trace with those whose names stand in its row, among the
/// sixteen rows of which the first has this name.
fn note_row<G: Gap>(
    names: u32,
    first: u32,
    figures: &mut [PairFigures<G>],
    index: u32,
    trace: &NamedTrace,
    one: &NamedSegment,
)
    requires told { TellsSome G.value names first figures.old }
    requires below { AreBelow names trace.now.segments }
    requires timed { AreTimed G.fits trace.now.segments }
    requires from { first ≤ one.now.name }
    requires to { one.now.name < first + 16 }
    requires one { one.now.name < names }
    requires one_timed { IsTimed G.fits one.now }
    requires few_names { names ≤ 512 }
    requires few { IsRowAtMost names first one.now.name (onwards G.value figures.old) index }
    requires index { index < 4294967295 }
    ensures told { (onward turned : Meetings)
        → TellsBoth G.value names first figures.old onward turned
        → TellsBoth G.value names first figures.new
        (and_then onward
        (meetings_with (onward_meeting index trace.now) one.now trace.now.segments))
        (and_then turned
        (meetings_with (turned_meeting index trace.now) one.now trace.now.segments)) }
    ensures few { IsRowAtMost names first one.now.name (onwards G.value figures.new)
        (index + 1) }
    ensures alone { IsRowAlone names first one.now.name (onwards G.value figures.old)
        (onwards G.value figures.new) }
{
    let segments = trace.segments.items();
    let row = (one.name - first) as usize * width(names);
    'others: for at in 0..segments.len() {
        let other = &segments[at];
        if is_in_row(names, one.name, other.name) {
            let place = row + steps_between(names, one.name, other.name) as usize;
            note_meeting(figures, place, index, trace, one, other);
        }
    }
}

/// Adds the meetings of a trace to sixteen rows, of which the first has this name.
fn note_trace<G: Gap>(
    names: u32,
    first: u32,
    figures: &mut [PairFigures<G>],
    index: u32,
    trace: &NamedTrace,
)
    requires told { TellsSome G.value names first figures.old }
    requires below { AreBelow names trace.now.segments }
    requires timed { AreTimed G.fits trace.now.segments }
    requires few_names { names ≤ 512 }
    requires first { first < 512 }
    requires few { AreAtMost names first (onwards G.value figures.old) index }
    requires index { index < 4294967295 }
    ensures told { (onward turned : Meetings)
        → TellsBoth G.value names first figures.old onward turned
        → TellsBoth G.value names first figures.new
        (and_then onward (meetings_among (onward_meeting index trace.now) trace.now.segments
        trace.now.segments))
        (and_then turned (meetings_among (turned_meeting index trace.now) trace.now.segments
        trace.now.segments)) }
    ensures few { AreAtMost names first (onwards G.value figures.new) (index + 1) }
{
    let segments = trace.segments.items();
    'ones: for at in 0..segments.len() {
        let one = &segments[at];
        if first <= one.name && one.name < first + ROWS {
            note_row(names, first, figures, index, trace, one);
        }
    }
}

/// Adds the meetings of traces to sixteen new rows, of which the first has this name.
pub(crate) fn note_traces<G: Gap>(
    names: u32,
    first: u32,
    figures: &mut [PairFigures<G>],
    traces: &[&NamedTrace],
)
    requires none { AreNew G.value names figures.old }
    requires few_names { names ≤ 512 }
    requires first { first < 512 }
    requires few { length traces.now < 2 ^ 32 }
    requires below { All (λ (t : Bor NamedTrace). AreBelow names t.now.segments) traces.now }
    requires timed { All (λ (t : Bor NamedTrace). AreTimed G.fits t.now.segments) traces.now }
    ensures { TellsBoth G.value names first figures.new
        (met_onward (map (λ (t : Bor NamedTrace). t.now) traces.now))
        (met_turned (map (λ (t : Bor NamedTrace). t.now) traces.now)) }
{
    'traces: for index in 0..traces.len() {
        note_trace(names, first, figures, index as u32, traces[index]);
    }
}
