ghost use Rattle.std.specs.Prelude.{◌≡◌, ◌<◌, IfOk, All, length};
ghost use Rattle.trace_types.specs.SegmentLists.{NamesDiffer, TasksStandTogether, JoinInTasks};
ghost use Rattle.trace_types.specs.Segments.{name_of, task_of, start_of, end_of};
ghost use Rattle.segment_cut.specs.NumberedCuts.{HasTexts, segment_under, segments_under};

use crate::CutSegment;
use crate::elements::copy_element;
use event_table::Texts;
use std::alloc::{AllocError, Global};
use std::marker::Model;
use trace_types::{Segment, SegmentList, Text, Trace};

/// A valid trace by numbers: the trace of one request, cut into its segments by one clock, whose
/// texts are numbers of a batch's tables. Seen as the texts of the tables, the segments by numbers,
/// and the trace that they stand for.
#[derive(Drop)]
pub struct CutTrace<'a> {
    pub(crate) texts: &'a Texts,
    pub(crate) request: u32,
    pub(crate) day: u32,
    pub(crate) latency: u64,
    pub(crate) segments: Vec<CutSegment>,
    ghost names_differ: { NamesDiffer name_of (segments_under texts.now segments.items) },
    ghost together: { TasksStandTogether task_of (segments_under texts.now segments.items) },
    ghost joined: { JoinInTasks task_of start_of end_of (segments_under texts.now segments.items) },
}

impl<'a> Model for CutTrace<'a> {
    ghost use Rattle.std.specs.Prelude.{◌<◌, All, length};
    ghost use Rattle.event_table.specs.Numbers.{text_under};
    ghost use Rattle.segment_cut.specs.NumberedCuts.{HasTexts, NumberedCut, segments_under};

    ghost Value = { NumberedCut };

    ghost view = { λ c. record {
      texts = c.texts.now;
      segments = c.segments.items;
      trace = record {
        request = text_under c.texts.now.requests c.request;
        day = c.day;
        latency = c.latency;
        segments = segments_under c.texts.now c.segments.items;
        names_differ = c.names_differ;
        together = c.together;
        joined = c.joined;
      };
    } };

    ghost invariant = { λ c. (c.request < length c.texts.now.requests)
        × All (HasTexts c.texts.now) c.segments.items };
}

/// Makes the segment that these numbers stand for, with copies of its texts.
fn copy_segment(alloc: Global, texts: &Texts, segment: CutSegment) -> Result<Segment, AllocError>
    requires { HasTexts texts.now segment }
    ensures { IfOk result (λ s. s ≡ segment_under texts.now segment) }
{
    let start_event = texts.names().text(segment.start_event);
    Ok(Segment {
        task: texts.tasks().text(segment.task).copy(alloc)?,
        start_event: start_event.copy(alloc)?,
        end_event: texts.names().text(segment.end_event).copy(alloc)?,
        start: segment.start,
        end: segment.end,
        element: copy_element(alloc, start_event)?,
    })
}

/// Makes the segments that these numbers stand for, with copies of their texts.
fn copy_segments(
    alloc: Global,
    texts: &Texts,
    segments: &[CutSegment],
) -> Result<Vec<Segment>, AllocError>
    requires { All (HasTexts texts.now) segments.now }
    ensures { IfOk result (λ copies. copies.items ≡ segments_under texts.now segments.now) }
{
    let mut copies = Vec::with_capacity(alloc, segments.len())?;
    for segment in segments {
        copies.push(copy_segment(alloc, texts, *segment)?)?;
    }
    Ok(copies)
}

impl<'a> CutTrace<'a> {
    /// Lends the request of every event.
    pub fn request(&self) -> &Text
        ensures { result.now ≡ self.now.trace.request }
    {
        self.texts.requests().text(self.request)
    }

    /// Gives the day of its first event, in days of 86,400 seconds since 1970.
    pub fn day(&self) -> u32
        ensures { result ≡ self.now.trace.day }
    {
        self.day
    }

    /// Gives the greatest adjusted time of its events less the least, in nanoseconds.
    pub fn latency(&self) -> u64
        ensures { result ≡ self.now.trace.latency }
    {
        self.latency
    }

    /// Lends the segments by their numbers: task after task, and within a task by time.
    pub fn segments(&self) -> &[CutSegment]
        ensures numbers { result.now ≡ self.now.segments }
        ensures segments { segments_under self.now.texts result.now ≡ self.now.trace.segments }
        ensures texts { All (HasTexts self.now.texts) result.now }
    {
        &self.segments
    }

    /// Copies the trace by its texts. The only error is out of memory.
    pub fn copy(&self, alloc: Global) -> Result<Trace, AllocError>
        ensures { IfOk result (λ t. t ≡ self.now.trace) }
    {
        Ok(Trace {
            request: self.request().copy(alloc)?,
            day: self.day,
            latency: self.latency,
            segments: SegmentList::of(copy_segments(alloc, self.texts, &self.segments)?),
        })
    }
}
