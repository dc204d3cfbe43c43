ghost use Rattle.std.specs.Prelude.{◌≡◌, ◌≤◌, IfOk, length};
ghost use Rattle.graph_layers.specs.inner.Depths.{AreSmall};

use crate::Place;
use crate::placing::place_boxes;
use std::alloc::{AllocError, Global};

/// Tells how far to the right a box stands.
fn right_of(places: &[Place], number: usize) -> u64 {
    match places.get(number) {
        Some(place) => u64::from(place.x),
        None => 0,
    }
}

/// Gives the ends of an arrow: the lower one first, if that is asked.
fn turned(arrow: (u32, u32), down: bool) -> (u32, u32) {
    if down { (arrow.1, arrow.0) } else { arrow }
}

/// Finds the mean place of the boxes with an arrow to a box, or of those that it has an arrow to;
/// its own if there are none. In sixteenths of a pixel.
fn mean_place(places: &[Place], arrows: &[(u32, u32)], number: usize, down: bool) -> u64 {
    let mut sum = 0u64;
    let mut count = 0u64;
    'arrows: for arrow in arrows {
        let (here, there) = turned(*arrow, down);
        if here as usize == number {
            sum = sum.saturating_add(right_of(places, there as usize));
            count = count.saturating_add(1);
        }
    }
    if count == 0 {
        return right_of(places, number).saturating_mul(16);
    }
    sum.saturating_mul(16) / count
}

/// Gives each box a key: where its neighbours stand, those above or those below.
fn next_keys(
    alloc: Global,
    places: &[Place],
    arrows: &[(u32, u32)],
    down: bool,
) -> Result<Vec<u64>, AllocError>
    ensures { IfOk result (λ keys. length keys.items ≡ length places.now) }
{
    let mut keys = Vec::with_capacity(alloc, places.len())?;
    'boxes: for number in 0..places.len() {
        keys.push(mean_place(places, arrows, number, down))?;
    }
    Ok(keys)
}

/// Looks for an order of the boxes of each layer in which arrows are short: twelve times each box
/// moves to the mean place of its neighbours, those above and those below in turn. The only error
/// is out of memory.
pub(crate) fn find_keys(
    alloc: Global,
    layers: &[u32],
    arrows: &[(u32, u32)],
) -> Result<Vec<u64>, AllocError>
    requires few { length layers.now ≤ 128 }
    requires small { AreSmall 128 layers.now }
    ensures { IfOk result (λ keys. length keys.items ≡ length layers.now) }
{
    let mut keys = Vec::from_elem(alloc, 0u64, layers.len())?;
    'sweeps: for sweep in 0..12u32 {
        let places = place_boxes(alloc, layers, &keys)?;
        keys = next_keys(alloc, &places, arrows, sweep % 2 == 0)?;
    }
    Ok(keys)
}
