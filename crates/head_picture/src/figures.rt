ghost use Rattle.std.specs.Prelude.{◌≡◌, ◌++◌, IfOk, OnOk, bytes_eq, length};
ghost use Rattle.std.specs.List.{list_any};
ghost use Rattle.head_picture.specs.Heads.{figures_text, tasks_of, with_task};

use markup::{Piece, Share, push_pieces};
use page_rows::{Page, SegmentRow};
use picture_parts::whole_of;
use std::alloc::{AllocError, Global};
use trace_types::Text;

/// Tells whether a task was seen.
fn is_seen(seen: &[Text], task: &str) -> bool
    ensures { result ≡ list_any (bytes_eq task.now) seen.now }
{
    seen.iter().any(|other| task == other.as_str())
}

/// Adds a task, unless it was seen.
fn add_task(alloc: Global, seen: &mut Vec<Text>, task: &Text) -> Result<(), AllocError>
    ensures { OnOk result (seen.new.items ≡ with_task seen.old.items task.now) }
{
    if is_seen(seen, task.as_str()) {
        return Ok(());
    }
    Ok(seen.push(task.copy(alloc)?)?)
}

/// Adds the task of a segment, unless it was seen.
fn add_segment(alloc: Global, seen: &mut Vec<Text>, segment: &SegmentRow) -> Result<(), AllocError>
    ensures { OnOk result (seen.new.items ≡ with_task seen.old.items segment.now.name.0) }
{
    add_task(alloc, seen, &segment.name.task)
}

/// Finds the tasks of segments, each once.
fn tasks_of(alloc: Global, segments: &[SegmentRow]) -> Result<Vec<Text>, AllocError>
    ensures { IfOk result (λ tasks. tasks.items ≡ tasks_of segments.now) }
{
    let mut seen = Vec::new(alloc);
    'segments: for segment in segments {
        add_segment(alloc, &mut seen, segment)?;
    }
    Ok(seen)
}

/// Counts texts.
fn count_of(texts: &[Text]) -> usize
    ensures { result ≡ length texts.now }
{
    texts.len()
}

/// Counts the tasks of segments.
pub(crate) fn task_count(alloc: Global, segments: &[SegmentRow]) -> Result<usize, AllocError>
    ensures { IfOk result (λ count. count ≡ length (tasks_of segments.now)) }
{
    let tasks = tasks_of(alloc, segments)?;
    Ok(count_of(&tasks))
}

/// Appends the figures of a page with so many tasks.
pub(crate) fn push_figures(bytes: &mut Vec<u8>, page: &Page, tasks: usize) -> Result<(), AllocError>
    ensures { OnOk result (bytes.new.items ≡ bytes.old.items ++ figures_text page.now tasks) }
{
    let report = page.report();
    let latency = page.latency();
    let traces = report.traces.get();
    let median = latency.median.get();
    let floor = page.tail().floor.get();
    let greatest = latency.greatest.get();
    let critical = report.critical.get();
    let all = whole_of(critical, latency.sum.get());
    let share = Share::of(critical, all);
    push_pieces(
        bytes,
        &[
            Piece::Fixed("<dl><div><dt>loads</dt><dd>"),
            Piece::Number(traces),
            Piece::Fixed("</dd></div><div><dt>segments</dt><dd>"),
            Piece::Number(page.segments().len() as u128),
            Piece::Fixed(" <small>of "),
            Piece::Number(tasks as u128),
            Piece::Fixed(" tasks</small></dd></div><div><dt>median</dt><dd>"),
            Piece::Time(median),
            Piece::Fixed("</dd></div><div><dt>slowest 5 % from</dt><dd>"),
            Piece::Time(floor),
            Piece::Fixed("</dd></div><div><dt>slowest</dt><dd>"),
            Piece::Time(greatest),
            Piece::Fixed("</dd></div><div><dt>on critical paths</dt><dd>"),
            Piece::Share(share),
            Piece::Fixed("</dd></div></dl>"),
        ],
    )
}
