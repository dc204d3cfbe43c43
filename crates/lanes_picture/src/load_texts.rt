ghost use Rattle.std.specs.Prelude.{◌≡◌, ◌<◌, ◌^◌, ◌++◌, OnOk};
ghost use Rattle.std.specs.List.{flat_map};
ghost use Rattle.lanes_picture.specs.Lanes.{axis_text, bar_figures, bar_row, lane_name, lanes_start};
ghost use Rattle.lanes_picture.specs.Lanes.{load_head, row_of_placed};

use crate::texts::push_row_start;
use markup::{Piece, push_pieces};
use page_rows::{BarRow, LoadRow, PlacedBar};
use picture_parts::push_label;
use std::alloc::AllocError;
use trace_types::Text;

/// Appends the name of a lane.
fn push_lane_name(bytes: &mut Vec<u8>, task: &Text) -> Result<(), AllocError>
    ensures { OnOk result (bytes.new.items ≡ bytes.old.items ++ lane_name task.now) }
{
    push_pieces(
        bytes,
        &[
            Piece::Fixed("<div class=\"lane\"><bdi>"),
            Piece::Name(task.as_str()),
            Piece::Fixed("</bdi></div>"),
        ],
    )
}

/// Appends the names of lanes.
pub(crate) fn push_lane_names(bytes: &mut Vec<u8>, lanes: &[Text]) -> Result<(), AllocError>
    ensures { OnOk result (bytes.new.items ≡ bytes.old.items ++ flat_map lane_name lanes.now) }
{
    'lanes: for task in lanes {
        push_lane_name(bytes, task)?;
    }
    Ok(())
}

/// Appends what a load is.
pub(crate) fn push_load_head(bytes: &mut Vec<u8>, load: &LoadRow) -> Result<(), AllocError>
    ensures { OnOk result (bytes.new.items ≡ bytes.old.items ++ load_head load.now) }
{
    let latency = load.latency.get();
    let length = load.length.get();
    let steps = load.steps.get();
    let day = load.day.get();
    let index = load.index.get();
    push_pieces(
        bytes,
        &[
            Piece::Fixed("<details class=\"load\" open><summary><b>"),
            Piece::Name(load.pick.as_str()),
            Piece::Fixed("</b> <bdi>"),
            Piece::Name(load.request.as_str()),
            Piece::Fixed("</bdi>, "),
            Piece::Time(latency),
            Piece::Fixed(": "),
            Piece::Time(length),
            Piece::Fixed(" in "),
            Piece::Number(steps),
            Piece::Fixed(" segments of the critical path, day "),
            Piece::Number(day),
            Piece::Fixed(", number "),
            Piece::Number(index),
            Piece::Fixed("</summary>"),
        ],
    )
}

/// Appends the times at the quarters of a load.
pub(crate) fn push_axis(bytes: &mut Vec<u8>, latency: u128) -> Result<(), AllocError>
    requires { latency < 2 ^ 80 }
    ensures { OnOk result (bytes.new.items ≡ bytes.old.items ++ axis_text latency) }
{
    push_pieces(
        bytes,
        &[
            Piece::Fixed(
                "</div><div class=\"plot\"><svg class=\"axis\" width=\"100%\" height=\"14\">",
            ),
            Piece::Fixed("<text class=\"first\" y=\"11\">0</text><text x=\"25%\" y=\"11\">"),
            Piece::Time(latency / 4),
            Piece::Fixed("</text><text x=\"50%\" y=\"11\">"),
            Piece::Time(latency / 2),
            Piece::Fixed("</text><text x=\"75%\" y=\"11\">"),
            Piece::Time(3 * latency / 4),
            Piece::Fixed("</text></svg>"),
        ],
    )
}

/// Begins the picture of so many lanes.
pub(crate) fn push_lanes_start(bytes: &mut Vec<u8>, count: usize) -> Result<(), AllocError>
    ensures { OnOk result (bytes.new.items ≡ bytes.old.items ++ lanes_start count) }
{
    push_pieces(
        bytes,
        &[
            Piece::Fixed("<svg class=\"g\" width=\"100%\" height=\""),
            Piece::Number(22 * count as u128 + 26),
            Piece::Fixed("\">"),
        ],
    )
}

/// Appends the figures of a bar.
fn push_bar_figures(bytes: &mut Vec<u8>, bar: &BarRow) -> Result<(), AllocError>
    ensures { OnOk result (bytes.new.items ≡ bytes.old.items ++ bar_figures bar.now) }
{
    let start = bar.start.get();
    let duration = bar.duration.get();
    let slack = bar.slack.get();
    push_pieces(
        bytes,
        &[
            Piece::Fixed("<td>"),
            Piece::Time(start),
            Piece::Fixed("<td>"),
            Piece::Time(duration),
            Piece::Fixed("<td>"),
            Piece::Time(slack),
            Piece::Fixed("</tr>"),
        ],
    )
}

/// Appends the row of a bar.
#[tactic(auto, unfolding(crate::specs::Lanes::bar_row))]
fn push_bar_row(bytes: &mut Vec<u8>, bar: &BarRow) -> Result<(), AllocError>
    ensures { OnOk result (bytes.new.items ≡ bytes.old.items ++ bar_row bar.now) }
{
    push_row_start(bytes)?;
    push_label(bytes, &bar.name)?;
    push_bar_figures(bytes, bar)
}

/// Appends the row of a bar, if it is of the load with this number.
fn push_row_of(bytes: &mut Vec<u8>, number: usize, placed: &PlacedBar) -> Result<(), AllocError>
    ensures { OnOk result (bytes.new.items ≡ bytes.old.items ++ row_of_placed number placed.now) }
{
    if placed.load != number {
        return Ok(());
    }
    push_bar_row(bytes, &placed.bar)
}

/// Appends the rows of the bars of the load with this number.
pub(crate) fn push_bar_rows(
    bytes: &mut Vec<u8>,
    number: usize,
    bars: &[PlacedBar],
) -> Result<(), AllocError>
    ensures { OnOk result
        (bytes.new.items ≡ bytes.old.items ++ flat_map (row_of_placed number) bars.now) }
{
    'bars: for placed in bars {
        push_row_of(bytes, number, placed)?;
    }
    Ok(())
}
