ghost use Rattle.std.specs.Prelude.{◌≡◌, ◌+◌, ◌<◌, ◌^◌, ◌++◌, length, OnOk};
ghost use Rattle.lanes_picture.specs.Lanes.{load_text, loads_from, loads_text, picture_text};

use crate::lane_bars::{push_all_placed, push_bar, push_path};
use crate::lane_list::lanes_of;
use crate::load_texts::{
    push_axis, push_bar_rows, push_lane_names, push_lanes_start, push_load_head,
};
use crate::texts::{
    push_lanes_end, push_loads_end, push_loads_start, push_names_start, push_table_end,
};
use page_rows::{LoadRow, Page, PlacedBar};
use picture_parts::span_of;
use std::alloc::{AllocError, Global};
use trace_types::Text;

/// Appends the picture of a load with these lanes.
#[tactic(auto, unfolding(crate::specs::Lanes::picture_text))]
fn push_picture(
    bytes: &mut Vec<u8>,
    number: usize,
    load: &LoadRow,
    bars: &[PlacedBar],
    lanes: &[Text],
) -> Result<(), AllocError>
    ensures { OnOk result (bytes.new.items
        ≡ bytes.old.items ++ picture_text number load.now bars.now lanes.now) }
{
    let latency = load.latency.get();
    push_lanes_start(bytes, lanes.len())?;
    push_bar(bytes, "wait", span_of(0, latency, latency), 3, 16)?;
    push_path(bytes, number, latency, bars)?;
    push_all_placed(bytes, number, latency, lanes, bars)?;
    push_lanes_end(bytes)?;
    push_bar_rows(bytes, number, bars)?;
    push_table_end(bytes)
}

/// Appends the load with this number.
#[tactic(auto, unfolding(crate::specs::Lanes::load_text))]
fn push_load(
    alloc: Global,
    bytes: &mut Vec<u8>,
    number: usize,
    load: &LoadRow,
    bars: &[PlacedBar],
) -> Result<(), AllocError>
    ensures { OnOk result
        (bytes.new.items ≡ bytes.old.items ++ load_text number load.now bars.now) }
{
    let lanes = lanes_of(alloc, number, bars)?;
    push_load_head(bytes, load)?;
    push_names_start(bytes)?;
    push_lane_names(bytes, &lanes)?;
    push_axis(bytes, load.latency.get())?;
    push_picture(bytes, number, load, bars, &lanes)
}

/// Appends loads, numbered from 1.
fn push_all_loads(
    alloc: Global,
    bytes: &mut Vec<u8>,
    bars: &[PlacedBar],
    loads: &[LoadRow],
) -> Result<(), AllocError>
    ensures { OnOk result
        (bytes.new.items ≡ bytes.old.items ++ loads_from 1 bars.now loads.now) }
{
    'loads: for (index, load) in loads.iter().enumerate() {
        push_load(alloc, bytes, index + 1, load, bars)?;
    }
    Ok(())
}

/// Appends the loads of a page. The only error is out of memory, after which the bytes may end in
/// the middle of one.
#[tactic(auto, unfolding(crate::specs::Lanes::loads_text))]
pub fn push_loads(alloc: Global, bytes: &mut Vec<u8>, page: &Page) -> Result<(), AllocError>
    ensures { OnOk result (bytes.new.items ≡ bytes.old.items ++ loads_text page.now) }
{
    push_loads_start(bytes)?;
    push_all_loads(alloc, bytes, page.bars(), page.loads())?;
    push_loads_end(bytes)
}
