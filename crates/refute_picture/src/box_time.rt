ghost use Rattle.std.specs.Prelude.{◌≡◌, ◌<◌, ◌^◌};
ghost use Rattle.refute_picture.specs.Overlaps.{box_time, is_of_box, sum_of, time_at, time_if};

use page_rows::{BoxRow, SegmentRow};
use picture_parts::same_name;

/// Tells whether a segment is of a box: of one name, or of a task, whose events are empty.
fn is_of_box(row: &BoxRow, segment: &SegmentRow) -> bool
    ensures { result ≡ is_of_box row.now segment.now }
{
    if row.name.end.as_str().is_empty() {
        return row.name.task.as_str() == segment.name.task.as_str();
    }
    same_name(&row.name, &segment.name)
}

/// Finds how long a segment lasts in all loads together, if it is of a box.
fn sum_of(row: &BoxRow, segment: &SegmentRow) -> u128
    ensures { result ≡ sum_of row.now segment.now }
{
    if is_of_box(row, segment) {
        segment.sum.get()
    } else {
        0
    }
}

/// Finds the same of the segment of a box that lasts longest.
fn box_time(segments: &[SegmentRow], row: &BoxRow) -> u128
    ensures { result ≡ box_time segments.now row.now }
{
    let mut time = 0;
    'segments: for segment in segments {
        time = sum_of(row, segment).max(time);
    }
    time
}

/// Finds the same of a box, if it has this number.
fn time_if(segments: &[SegmentRow], number: u128, row: &BoxRow) -> u128
    ensures { result ≡ time_if segments.now number row.now }
{
    if row.number.get() != number {
        return 0;
    }
    box_time(segments, row)
}

/// Finds the same of the box with this number.
pub(crate) fn time_at(segments: &[SegmentRow], boxes: &[BoxRow], number: u128) -> u128
    ensures { result ≡ time_at segments.now boxes.now number }
{
    let mut time = 0;
    'boxes: for row in boxes {
        time = time_if(segments, number, row).max(time);
    }
    time
}
