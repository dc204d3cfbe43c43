ghost use Rattle.std.specs.Prelude.{◌≡◌, IfErr, IfOk};
ghost use Rattle.page_rows.specs.Fields.{texts_of};
ghost use Rattle.page_rows.specs.Faults.{IsRowFault};
ghost use Rattle.page_rows.specs.Rows.{row_of, row_of_fields, row_said};

use crate::fields::{field, fields_of};
use crate::row_fault::RowFault;
use crate::row_forms::{has_form, kind_of};
use crate::row_making::*;
use crate::{Kind, Row, Why};
use std::alloc::{AllocError, Global};
use std::str::from_utf8;

/// Makes the row of this kind with these fields.
fn make_row(alloc: Global, kind: Kind, fields: &[&str]) -> Result<Row, AllocError>
    ensures { IfOk result (λ row. row ≡ row_of kind (texts_of fields.now)) }
{
    Ok(match kind {
        Kind::Refused => Row::Refused(make_refused_row(alloc, fields)?),
        Kind::Report => Row::Report(make_report_head(fields)),
        Kind::Latency => Row::Latency(make_latency_row(fields)),
        Kind::Segment => Row::Segment(make_segment_row(alloc, fields)?),
        Kind::Tail => Row::Tail(make_tail_head(fields)),
        Kind::TailSegment => Row::TailSegment(make_tail_row(alloc, fields)?),
        Kind::Ranks => Row::Ranks,
        Kind::Bucket => Row::Bucket(make_bucket_row(fields)),
        Kind::Rank => Row::Rank(make_rank_row(alloc, fields)?),
        Kind::Gains => Row::Gains,
        Kind::Gain => Row::Gain(make_gain_row(alloc, fields)?),
        Kind::Rooms => Row::Rooms,
        Kind::Room => Row::Room(make_room_row(alloc, fields)?),
        Kind::Loads => Row::Loads,
        Kind::Load => Row::Load(make_load_row(alloc, fields)?),
        Kind::Bar => Row::Bar(make_bar_row(alloc, fields)?),
        Kind::NameBox => Row::Box(make_name_box(alloc, fields)?),
        Kind::TaskBox => Row::Box(make_task_box(alloc, fields)?),
        Kind::Between => Row::Between(make_between_row(fields, None)),
        Kind::Overlap => {
            let overlap = make_overlap_part(alloc, fields)?;
            Row::Between(make_between_row(fields, Some(overlap)))
        }
        Kind::Pipe => Row::Pipe(make_pipe_row(alloc, fields)?),
    })
}

/// Reads the row of these fields.
fn read_fields(alloc: Global, fields: &[&str]) -> Result<Row, RowFault>
    ensures read { IfOk result (λ row. row_of_fields (texts_of fields.now) ≡ Ok row) }
    ensures bad { IfErr result (IsRowFault (row_of_fields (texts_of fields.now))) }
{
    let Some(kind) = kind_of(field(fields, 0), fields.len()) else {
        return Err(RowFault::Bad(Why::NoRow));
    };
    if !has_form(kind, fields) {
        return Err(RowFault::Bad(Why::NoNumber));
    }
    Ok(make_row(alloc, kind, fields)?)
}

/// Reads the row that a line says.
pub(crate) fn read_row(alloc: Global, line: &[u8]) -> Result<Row, RowFault>
    ensures read { IfOk result (λ row. row_said line.now ≡ Ok row) }
    ensures bad { IfErr result (IsRowFault (row_said line.now)) }
{
    let Ok(text) = from_utf8(line) else {
        return Err(RowFault::Bad(Why::NotUtf8));
    };
    let fields = fields_of(alloc, text)?;
    read_fields(alloc, &fields)
}
