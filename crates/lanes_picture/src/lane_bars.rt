ghost use Rattle.std.specs.Prelude.{◌≡◌, ◌+◌, ◌<◌, ◌^◌, ◌++◌, OnOk};
ghost use Rattle.std.specs.List.{flat_map};
ghost use Rattle.picture_parts.specs.Bars.{bar_text};
ghost use Rattle.lanes_picture.specs.Lanes.{bar_title, end_of, lane_bar, main_bar, path_text};
ghost use Rattle.lanes_picture.specs.Lanes.{placed_text, slack_bar};

use crate::lane_list::lane_of;
use markup::{Piece, push_fixed, push_pieces};
use page_rows::{BarRow, PlacedBar};
use picture_parts::{Span, span_of};
use std::alloc::AllocError;
use trace_types::Text;

/// Appends a bar of a class, at these pixels down.
#[tactic(auto, unfolding(picture_parts::specs::Bars::bar_text))]
pub(crate) fn push_bar(
    bytes: &mut Vec<u8>,
    class: &str,
    span: Span,
    y: u128,
    height: u128,
) -> Result<(), AllocError>
    ensures { OnOk result (bytes.new.items ≡ bytes.old.items ++ bar_text class.now span y height) }
{
    push_pieces(
        bytes,
        &[
            Piece::Fixed("<rect class=\""),
            Piece::Fixed(class),
            Piece::Fixed("\" x=\""),
            Piece::Place(span.x),
            Piece::Fixed("\" width=\""),
            Piece::Place(span.width),
            Piece::Fixed("\" y=\""),
            Piece::Number(y),
            Piece::Fixed("\" height=\""),
            Piece::Number(height),
            Piece::Fixed("\"/>"),
        ],
    )
}

/// Finds where a bar ends.
fn end_of(bar: &BarRow) -> u128
    ensures value { result ≡ end_of bar.now }
    ensures small { result < 2 ^ 81 }
{
    bar.start.get() + bar.duration.get()
}

/// Appends what is said of a bar.
fn push_bar_title(bytes: &mut Vec<u8>, bar: &BarRow) -> Result<(), AllocError>
    ensures { OnOk result (bytes.new.items ≡ bytes.old.items ++ bar_title bar.now) }
{
    let name = &bar.name;
    let duration = bar.duration.get();
    let start = bar.start.get();
    let slack = bar.slack.get();
    push_pieces(
        bytes,
        &[
            Piece::Fixed("<g><title>"),
            Piece::Name(name.task.as_str()),
            Piece::Fixed(": "),
            Piece::Name(name.start.as_str()),
            Piece::Fixed(" → "),
            Piece::Name(name.end.as_str()),
            Piece::Fixed(": "),
            Piece::Time(duration),
            Piece::Fixed(" from "),
            Piece::Time(start),
            Piece::Fixed(", slack "),
            Piece::Time(slack),
            Piece::Fixed("</title>"),
        ],
    )
}

/// Appends the bar itself, in a lane that begins so many pixels down.
fn push_main_bar(bytes: &mut Vec<u8>, full: u128, y: u128, bar: &BarRow) -> Result<(), AllocError>
    requires { y < 2 ^ 80 }
    ensures { OnOk result (bytes.new.items ≡ bytes.old.items ++ main_bar full y bar.now) }
{
    let span = span_of(bar.start.get(), end_of(bar), full);
    if bar.on_path.get() == 1 {
        push_bar(bytes, "path", span, y, 16)
    } else {
        push_bar(bytes, "off", span, y + 1, 11)
    }
}

/// Appends the slack of a bar.
#[tactic(auto, unfolding(crate::specs::Lanes::slack_bar))]
fn push_slack_bar(bytes: &mut Vec<u8>, full: u128, y: u128, bar: &BarRow) -> Result<(), AllocError>
    requires { y < 2 ^ 80 }
    ensures { OnOk result (bytes.new.items ≡ bytes.old.items ++ slack_bar full y bar.now) }
{
    let end = end_of(bar);
    push_bar(
        bytes,
        "slk",
        span_of(end, end + bar.slack.get(), full),
        y + 12,
        5,
    )
}

/// Appends a bar with its slack and its title.
#[tactic(auto, unfolding(crate::specs::Lanes::lane_bar))]
fn push_lane_bar(bytes: &mut Vec<u8>, full: u128, y: u128, bar: &BarRow) -> Result<(), AllocError>
    requires { y < 2 ^ 80 }
    ensures { OnOk result (bytes.new.items ≡ bytes.old.items ++ lane_bar full y bar.now) }
{
    push_bar_title(bytes, bar)?;
    push_slack_bar(bytes, full, y, bar)?;
    push_main_bar(bytes, full, y, bar)?;
    push_fixed(bytes, "</g>")
}

/// Appends a bar of the load with this number, in the lane of its task.
fn push_placed(
    bytes: &mut Vec<u8>,
    number: usize,
    full: u128,
    lanes: &[Text],
    placed: &PlacedBar,
) -> Result<(), AllocError>
    ensures { OnOk result
        (bytes.new.items ≡ bytes.old.items ++ placed_text number full lanes.now placed.now) }
{
    if placed.load != number {
        return Ok(());
    }
    let lane = lane_of(lanes, placed.bar.name.task.as_str());
    push_lane_bar(bytes, full, 22 * lane as u128 + 25, &placed.bar)
}

/// Appends the bars of the load with this number, each in the lane of its task.
pub(crate) fn push_all_placed(
    bytes: &mut Vec<u8>,
    number: usize,
    full: u128,
    lanes: &[Text],
    bars: &[PlacedBar],
) -> Result<(), AllocError>
    ensures { OnOk result (bytes.new.items
        ≡ bytes.old.items ++ flat_map (placed_text number full lanes.now) bars.now) }
{
    'bars: for placed in bars {
        push_placed(bytes, number, full, lanes, placed)?;
    }
    Ok(())
}

/// Appends a bar of the critical path in the first lane.
fn push_path_bar(
    bytes: &mut Vec<u8>,
    number: usize,
    full: u128,
    placed: &PlacedBar,
) -> Result<(), AllocError>
    ensures { OnOk result
        (bytes.new.items ≡ bytes.old.items ++ path_text number full placed.now) }
{
    if placed.load != number || placed.bar.on_path.get() != 1 {
        return Ok(());
    }
    let bar = &placed.bar;
    push_bar(
        bytes,
        "path",
        span_of(bar.start.get(), end_of(bar), full),
        3,
        16,
    )
}

/// Appends the bars of the critical path in the first lane.
pub(crate) fn push_path(
    bytes: &mut Vec<u8>,
    number: usize,
    full: u128,
    bars: &[PlacedBar],
) -> Result<(), AllocError>
    ensures { OnOk result
        (bytes.new.items ≡ bytes.old.items ++ flat_map (path_text number full) bars.now) }
{
    'bars: for placed in bars {
        push_path_bar(bytes, number, full, placed)?;
    }
    Ok(())
}
