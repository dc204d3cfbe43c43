//! Catalogues of two names.
ghost use Rattle.std.specs.Prelude.{◌≡◌, IfOk, length};

use segment_names::Catalogue;
use std::alloc::{AllocError, Global};
use std::process::Abort;
use trace_types::{Segment, SegmentList, Text, Trace};

/// Makes a segment of the task, from `s` to `e`.
fn segment_of(alloc: Global, task: &str) -> Result<Segment, AllocError> {
    let task = Text::new(alloc, task)?;
    let start_event = Text::new(alloc, "s")?;
    let end_event = Text::new(alloc, "e")?;
    Ok(Segment {
        task,
        start_event,
        end_event,
        start: 5,
        end: 9,
        element: None,
    })
}

/// Makes a trace by texts of one segment of the task.
fn single(alloc: Global, task: &str) -> Result<Trace, AllocError>
    ensures { IfOk result (λ t. length t.segments ≡ 1) }
{
    let request = Text::new(alloc, "r0")?;
    let segments = Vec::from_array(alloc, [segment_of(alloc, task)?])?;
    Ok(Trace {
        request,
        day: 3,
        latency: 4,
        segments: SegmentList::of(segments),
    })
}

/// Adds the name of a segment of the task to a catalogue.
fn add_task(
    rt: &impl Abort,
    alloc: Global,
    catalogue: &mut Catalogue,
    task: &str,
) -> Result<(), AllocError> {
    let trace = single(alloc, task)?;
    assert!(rt; catalogue.add(alloc, &trace) == Ok(()));
    Ok(())
}

/// Makes a catalogue in which name 0 is (first, s, e) and name 1 is (second, s, e).
pub(crate) fn two_names(
    rt: &impl Abort,
    alloc: Global,
    first: &str,
    second: &str,
) -> Result<Catalogue, AllocError> {
    let mut catalogue = Catalogue::new(alloc);
    add_task(rt, alloc, &mut catalogue, first)?;
    add_task(rt, alloc, &mut catalogue, second)?;
    Ok(catalogue)
}
