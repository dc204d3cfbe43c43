ghost use Rattle.std.specs.Prelude.{◌≡◌, ◌≤◌, ◌<◌, ◌^◌, min, sum_by};
ghost use Rattle.graph_picture.specs.Boxes.{box_time, has_box, is_in, is_task, same_name};
ghost use Rattle.graph_picture.specs.Boxes.{share_width, time_in};

use page_rows::{BoxRow, Page, SegmentRow};
use picture_parts::part_of;
use trace_types::NameText;

/// Tells whether a box is of all names of a task.
pub(crate) fn is_task(row: &BoxRow) -> bool
    ensures { result ≡ is_task row.now }
{
    row.name.end.as_str().is_empty()
}

/// Tells whether two names are equal.
fn same_name(a: &NameText, b: &NameText) -> bool
    ensures { result ≡ same_name a.now b.now }
{
    a.task.as_str() == b.task.as_str()
        && a.start.as_str() == b.start.as_str()
        && a.end.as_str() == b.end.as_str()
}

/// Tells whether a name has a box of its own.
fn has_box(boxes: &[BoxRow], name: &NameText) -> bool
    ensures { result ≡ has_box boxes.now name.now }
{
    boxes.iter().any(|row| same_name(&row.name, name))
}

/// Tells whether a name is in a box.
fn is_in(boxes: &[BoxRow], row: &BoxRow, name: &NameText) -> bool
    ensures { result ≡ is_in boxes.now row.now name.now }
{
    if is_task(row) {
        row.name.task.as_str() == name.task.as_str() && !has_box(boxes, name)
    } else {
        same_name(&row.name, name)
    }
}

/// Finds the time of a segment on critical paths, if it is in a box.
fn time_in(boxes: &[BoxRow], row: &BoxRow, segment: &SegmentRow) -> u128
    ensures value { result ≡ time_in boxes.now row.now segment.now }
    ensures small { result < 2 ^ 80 }
{
    if is_in(boxes, row, &segment.name) {
        segment.on_path_sum.get()
    } else {
        0
    }
}

/// Finds how long all critical paths are together.
pub(crate) fn critical_of(page: &Page) -> u128
    ensures value { result ≡ page.now.report.critical }
    ensures small { result < 2 ^ 80 }
{
    page.report().critical.get()
}

/// Adds up the times of segments that are in a box, up to a most.
fn capped_time(most: u128, boxes: &[BoxRow], row: &BoxRow, segments: &[SegmentRow]) -> u128
    requires { most < 2 ^ 80 }
    ensures value { result ≡ min most (sum_by (time_in boxes.now row.now) segments.now) }
    ensures within { result ≤ most }
{
    let mut time = 0;
    'segments: for segment in segments {
        time = (time + time_in(boxes, row, segment)).min(most);
    }
    time
}

/// Finds the time of a box on critical paths, at most all of it.
pub(crate) fn box_time(page: &Page, row: &BoxRow) -> u128
    ensures value { result ≡ box_time page.now row.now }
    ensures small { result < 2 ^ 80 }
{
    capped_time(critical_of(page), page.boxes(), row, page.segments())
}

/// Finds how wide the line is that shows the share of a box of critical paths.
pub(crate) fn share_width(page: &Page, row: &BoxRow) -> u32
    ensures { result ≡ share_width page.now row.now }
{
    part_of(148, box_time(page, row), critical_of(page))
}
