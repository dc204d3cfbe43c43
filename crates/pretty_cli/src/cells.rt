ghost use Rattle.std.specs.Prelude.{◌≡◌};
ghost use Rattle.pretty_cli.specs.Fields.{texts_of};
ghost use Rattle.pretty_cli.specs.Shown.{cells_of, each_of, forecast_cells, report_cells};
ghost use Rattle.pretty_cli.specs.Shown.{segment_cells, tail_cells, trace_cells};

use crate::cell::Cell;
use crate::context::{Context, Kind, View};
use crate::fields::number_at;
use crate::relation_cells::{exclusion_cells, order_cells, support_cells, support_place};

/// Divides a sum among so many, or gives all of it to none.
pub(crate) fn each_of(sum: u64, count: u64) -> u64
    ensures { result ≡ each_of sum count }
{
    sum / count.max(1)
}

/// Makes the columns of a segment of a report.
fn report_cells(context: Context, fields: &[&str]) -> [Cell; 4]
    ensures { result ≡ report_cells context (texts_of fields.now) }
{
    let on_path = number_at(fields, 9);
    [
        Cell::Time(on_path),
        Cell::Share(on_path, context.total),
        Cell::Time(number_at(fields, 6)),
        Cell::Time(number_at(fields, 7)),
    ]
}

/// Makes the columns of a segment on the paths of slow traces and of the others.
fn tail_cells(context: Context, fields: &[&str]) -> [Cell; 4]
    ensures { result ≡ tail_cells context (texts_of fields.now) }
{
    let slow = each_of(number_at(fields, 5), context.slow);
    let other = each_of(number_at(fields, 7), context.others);
    [
        Cell::Difference(slow, other),
        Cell::Time(slow),
        Cell::Time(other),
        Cell::Absent,
    ]
}

/// Makes the columns of a trace's critical path before and after a change.
fn forecast_cells(fields: &[&str]) -> [Cell; 4]
    ensures { result ≡ forecast_cells (texts_of fields.now) }
{
    let (before, after) = (number_at(fields, 3), number_at(fields, 4));
    let gain = before.saturating_sub(after);
    [
        Cell::Time(gain),
        Cell::Share(gain, before),
        Cell::Time(before),
        Cell::Time(after),
    ]
}

/// Makes the columns of a segment.
fn segment_cells(context: Context, fields: &[&str]) -> [Cell; 4]
    ensures { result ≡ segment_cells context context.view (texts_of fields.now) }
{
    match context.view {
        View::Report => report_cells(context, fields),
        View::Tail => tail_cells(context, fields),
        _ => [
            Cell::Time(number_at(fields, 5)),
            Cell::Time(number_at(fields, 4)),
            Cell::Empty,
            Cell::Absent,
        ],
    }
}

/// Makes the columns of a trace.
fn trace_cells(view: View, fields: &[&str]) -> [Cell; 4]
    ensures { result ≡ trace_cells view (texts_of fields.now) }
{
    let latency = Cell::Time(number_at(fields, 3));
    let path = Cell::Time(number_at(fields, 4));
    match view {
        View::Paths => [path, Cell::Empty, latency, Cell::Absent],
        _ => [Cell::Empty, path, latency, Cell::Absent],
    }
}

/// Makes the columns of a row.
pub(crate) fn cells_of(context: Context, fields: &[&str]) -> [Cell; 4]
    ensures { result ≡ cells_of context context.kind (texts_of fields.now) }
{
    match context.kind {
        Kind::Segment => segment_cells(context, fields),
        Kind::Trace => trace_cells(context.view, fields),
        Kind::Step => {
            let time = number_at(fields, 4);
            [
                Cell::Time(time),
                Cell::Share(time, context.total),
                Cell::Empty,
                Cell::Absent,
            ]
        }
        Kind::Forecast => forecast_cells(fields),
        Kind::Order => order_cells(fields),
        Kind::Exclusion => exclusion_cells(fields),
        Kind::Pipe => support_cells(fields, 3),
        Kind::Nearly => support_cells(fields, support_place(fields)),
        _ => [Cell::Absent; 4],
    }
}
