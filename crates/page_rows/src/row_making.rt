ghost use Rattle.std.specs.Prelude.{◌≡◌, IfOk, None, Some};
ghost use Rattle.page_rows.specs.Fields.{texts_of};
ghost use Rattle.page_rows.specs.RowFields.{bar_row, between_row, bucket_row, gain_row, latency_row, load_row, name_box, overlap_part, pipe_row, rank_row, refused_row, report_head, room_row, segment_row, tail_head, tail_row, task_box};

use crate::fields::{field, figure_at, name_at, number_at, numbers_from, text_at};
use crate::{
    BarRow, BetweenRow, BoxRow, BucketRow, GainRow, LatencyRow, LoadRow, OverlapPart, PipeRow,
    RankRow, RefusedRow, ReportHead, RoomRow, SegmentRow, TailHead, TailRow,
};
use std::alloc::{AllocError, Global};
use trace_types::{NameText, Text};

/// Reads the fields of a row of this kind.
pub(crate) fn make_refused_row(alloc: Global, fields: &[&str]) -> Result<RefusedRow, AllocError>
    ensures { IfOk result (λ row. row ≡ refused_row (texts_of fields.now)) }
{
    Ok(RefusedRow {
        request: text_at(alloc, fields, 1)?,
        reason: text_at(alloc, fields, 2)?,
        line: number_at(fields, 3),
    })
}

/// Reads the fields of a row of this kind.
pub(crate) fn make_report_head(fields: &[&str]) -> ReportHead
    ensures { result ≡ report_head (texts_of fields.now) }
{
    ReportHead {
        traces: figure_at(fields, 1, "traces="),
        critical: figure_at(fields, 2, "critical="),
    }
}

/// Reads the fields of a row of this kind.
pub(crate) fn make_latency_row(fields: &[&str]) -> LatencyRow
    ensures { result ≡ latency_row (texts_of fields.now) }
{
    LatencyRow {
        count: number_at(fields, 1),
        sum: number_at(fields, 2),
        median: number_at(fields, 3),
        greatest: number_at(fields, 4),
    }
}

/// Reads the fields of a row of this kind.
pub(crate) fn make_segment_row(alloc: Global, fields: &[&str]) -> Result<SegmentRow, AllocError>
    ensures { IfOk result (λ row. row ≡ segment_row (texts_of fields.now)) }
{
    Ok(SegmentRow {
        name: name_at(alloc, fields, 1)?,
        count: number_at(fields, 4),
        sum: number_at(fields, 5),
        median: number_at(fields, 6),
        greatest: number_at(fields, 7),
        on_path: number_at(fields, 8),
        on_path_sum: number_at(fields, 9),
    })
}

/// Reads the fields of a row of this kind.
pub(crate) fn make_tail_head(fields: &[&str]) -> TailHead
    ensures { result ≡ tail_head (texts_of fields.now) }
{
    TailHead {
        traces: figure_at(fields, 1, "traces="),
        slow: figure_at(fields, 2, "slow="),
        floor: figure_at(fields, 3, "floor="),
    }
}

/// Reads the fields of a row of this kind.
pub(crate) fn make_tail_row(alloc: Global, fields: &[&str]) -> Result<TailRow, AllocError>
    ensures { IfOk result (λ row. row ≡ tail_row (texts_of fields.now)) }
{
    Ok(TailRow {
        name: name_at(alloc, fields, 1)?,
        slow_on: number_at(fields, 4),
        slow_sum: number_at(fields, 5),
        rest_on: number_at(fields, 6),
        rest_sum: number_at(fields, 7),
    })
}

/// Reads the fields of a row of this kind.
pub(crate) fn make_bucket_row(fields: &[&str]) -> BucketRow
    ensures { result ≡ bucket_row (texts_of fields.now) }
{
    BucketRow {
        number: number_at(fields, 1),
        loads: number_at(fields, 2),
        latency: number_at(fields, 3),
        length: number_at(fields, 4),
        least: number_at(fields, 5),
    }
}

/// Reads the fields of a row of this kind.
pub(crate) fn make_rank_row(alloc: Global, fields: &[&str]) -> Result<RankRow, AllocError>
    ensures { IfOk result (λ row. row ≡ rank_row (texts_of fields.now)) }
{
    Ok(RankRow {
        name: name_at(alloc, fields, 1)?,
        sums: numbers_from(alloc, fields, 4)?,
    })
}

/// Reads the fields of a row of this kind.
pub(crate) fn make_gain_row(alloc: Global, fields: &[&str]) -> Result<GainRow, AllocError>
    ensures { IfOk result (λ row. row ≡ gain_row (texts_of fields.now)) }
{
    Ok(GainRow {
        name: name_at(alloc, fields, 1)?,
        none: number_at(fields, 4),
        half: number_at(fields, 5),
    })
}

/// Reads the fields of a row of this kind.
pub(crate) fn make_room_row(alloc: Global, fields: &[&str]) -> Result<RoomRow, AllocError>
    ensures { IfOk result (λ row. row ≡ room_row (texts_of fields.now)) }
{
    Ok(RoomRow {
        name: name_at(alloc, fields, 1)?,
        count: number_at(fields, 4),
        zero: number_at(fields, 5),
        least: number_at(fields, 6),
        tenth: number_at(fields, 7),
        median: number_at(fields, 8),
        ninetieth: number_at(fields, 9),
        greatest: number_at(fields, 10),
    })
}

/// Reads the fields of a row of this kind.
pub(crate) fn make_load_row(alloc: Global, fields: &[&str]) -> Result<LoadRow, AllocError>
    ensures { IfOk result (λ row. row ≡ load_row (texts_of fields.now)) }
{
    Ok(LoadRow {
        pick: text_at(alloc, fields, 1)?,
        rank: number_at(fields, 2),
        request: text_at(alloc, fields, 3)?,
        day: number_at(fields, 4),
        index: number_at(fields, 5),
        latency: number_at(fields, 6),
        length: number_at(fields, 7),
        vertices: number_at(fields, 8),
        steps: number_at(fields, 9),
        edges: number_at(fields, 10),
    })
}

/// Reads the fields of a row of this kind.
pub(crate) fn make_bar_row(alloc: Global, fields: &[&str]) -> Result<BarRow, AllocError>
    ensures { IfOk result (λ row. row ≡ bar_row (texts_of fields.now)) }
{
    Ok(BarRow {
        number: number_at(fields, 1),
        name: name_at(alloc, fields, 2)?,
        start: number_at(fields, 5),
        duration: number_at(fields, 6),
        slack: number_at(fields, 7),
        on_path: number_at(fields, 8),
    })
}

/// Reads the fields of a row of this kind.
pub(crate) fn make_pipe_row(alloc: Global, fields: &[&str]) -> Result<PipeRow, AllocError>
    ensures { IfOk result (λ row. row ≡ pipe_row (texts_of fields.now)) }
{
    Ok(PipeRow {
        first: text_at(alloc, fields, 1)?,
        second: text_at(alloc, fields, 2)?,
    })
}

/// Reads the fields of a box of one name.
pub(crate) fn make_name_box(alloc: Global, fields: &[&str]) -> Result<BoxRow, AllocError>
    ensures { IfOk result (λ row. row ≡ name_box (texts_of fields.now)) }
{
    Ok(BoxRow {
        number: number_at(fields, 1),
        name: name_at(alloc, fields, 2)?,
    })
}

/// Reads the fields of a box of all names of a task.
pub(crate) fn make_task_box(alloc: Global, fields: &[&str]) -> Result<BoxRow, AllocError>
    ensures { IfOk result (λ row. row ≡ task_box (texts_of fields.now)) }
{
    Ok(BoxRow {
        number: number_at(fields, 1),
        name: NameText {
            task: text_at(alloc, fields, 2)?,
            start: Text::new(alloc, "")?,
            end: Text::new(alloc, "")?,
        },
    })
}

/// Reads where two names overlap first.
pub(crate) fn make_overlap_part(alloc: Global, fields: &[&str]) -> Result<OverlapPart, AllocError>
    ensures { IfOk result (λ part. part ≡ overlap_part (texts_of fields.now)) }
{
    Ok(OverlapPart {
        day: number_at(fields, 6),
        index: number_at(fields, 7),
        request: text_at(alloc, fields, 8)?,
    })
}

/// Reads the relations between two boxes, with this overlap.
pub(crate) fn make_between_row(fields: &[&str], overlap: Option<OverlapPart>) -> BetweenRow
    ensures { result ≡ between_row overlap (texts_of fields.now) }
{
    BetweenRow {
        first: number_at(fields, 1),
        second: number_at(fields, 2),
        both: number_at(fields, 3),
        before: number_at(fields, 4),
        exclusive: number_at(fields, 5),
        overlap,
    }
}
