ghost use Rattle.std.specs.Prelude.{◌≡◌, IfOk, OnOk, bytes_eq};
ghost use Rattle.std.specs.List.{list_any};
ghost use Rattle.lanes_picture.specs.Lanes.{lane_of, lanes_of, with_bar, with_task};

use page_rows::PlacedBar;
use std::alloc::{AllocError, Global};
use trace_types::Text;

/// Tells whether a task was seen.
fn is_seen(seen: &[Text], task: &str) -> bool
    ensures { result ≡ list_any (bytes_eq task.now) seen.now }
{
    seen.iter().any(|lane| task == lane.as_str())
}

/// Adds a task, unless it was seen.
fn add_task(alloc: Global, seen: &mut Vec<Text>, task: &Text) -> Result<(), AllocError>
    ensures { OnOk result (seen.new.items ≡ with_task seen.old.items task.now) }
{
    if is_seen(seen, task.as_str()) {
        return Ok(());
    }
    Ok(seen.push(task.copy(alloc)?)?)
}

/// Adds the task of a bar, if it is of the load with this number.
fn add_bar(
    alloc: Global,
    number: usize,
    seen: &mut Vec<Text>,
    placed: &PlacedBar,
) -> Result<(), AllocError>
    ensures { OnOk result (seen.new.items ≡ with_bar number seen.old.items placed.now) }
{
    if placed.load != number {
        return Ok(());
    }
    add_task(alloc, seen, &placed.bar.name.task)
}

/// Finds the lanes of the load with this number.
pub(crate) fn lanes_of(
    alloc: Global,
    number: usize,
    bars: &[PlacedBar],
) -> Result<Vec<Text>, AllocError>
    ensures { IfOk result (λ lanes. lanes.items ≡ lanes_of number bars.now) }
{
    let mut seen = Vec::new(alloc);
    'bars: for placed in bars {
        add_bar(alloc, number, &mut seen, placed)?;
    }
    Ok(seen)
}

/// Tells whether a lane is that of a task.
fn is_lane_of(lane: &Text, task: &str) -> bool
    ensures { result ≡ bytes_eq task.now lane.now }
{
    task == lane.as_str()
}

/// Finds the lane of a task.
pub(crate) fn lane_of(lanes: &[Text], task: &str) -> usize
    ensures { result ≡ lane_of lanes.now task.now }
{
    let mut count = 0;
    'lanes: for lane in lanes {
        if is_lane_of(lane, task) {
            return count;
        }
        count += 1;
    }
    count
}
