ghost use Rattle.std.specs.Prelude.{◌≡◌, ℕ, ◌+◌, ◌*◌, ◌<◌, ◌≤◌, IfOk, length};
ghost use Rattle.graph_layers.specs.Places.{place_at};
ghost use Rattle.graph_layers.specs.inner.Depths.{AreSmall};
ghost use Rattle.graph_layers.specs.inner.Seats.{AreLow, AreSeats, seat_of, widest_of};

use crate::Place;
use crate::seating::{rank_of, row_length, rows_above, size_of};
use std::alloc::{AllocError, Global};

/// Finds how many boxes stand beside one another at most.
pub(crate) fn widest_of(layers: &[u32]) -> u32
    requires few { length layers.now ≤ 128 }
    ensures value { result ≡ widest_of layers.now (length layers.now) }
    ensures most { result ≤ 8 }
{
    let mut widest = 0u32;
    'boxes: for one in 0..layers.len() {
        widest = widest.max(size_of(layers, layers[one]).min(8));
    }
    widest
}

/// Finds where a box stands: its row is in the middle of the widest one.
fn seat_of(layers: &[u32], keys: &[u64], widest: u32, number: usize) -> Place
    requires few { length layers.now ≤ 128 }
    requires small { AreSmall 128 layers.now }
    requires keys { length keys.now ≡ length layers.now }
    requires widest { widest ≤ 8 }
    requires number { number < length layers.now }
    ensures seat { result ≡ seat_of layers.now keys.now widest number }
    ensures low { result.y ≤ 200000 }
{
    let layer = layers[number];
    let rank = rank_of(layers, keys, number);
    let free = widest.saturating_sub(row_length(size_of(layers, layer), rank));
    Place {
        x: 4 + 82 * free + 164 * (rank % 8),
        y: 4 + 64 * (rows_above(layers, layer) + rank / 8),
    }
}

/// Finds where each box stands: layer by layer, and in each one by rising keys. The only error is
/// out of memory.
pub(crate) fn place_boxes(
    alloc: Global,
    layers: &[u32],
    keys: &[u64],
) -> Result<Vec<Place>, AllocError>
    requires few { length layers.now ≤ 128 }
    requires small { AreSmall 128 layers.now }
    requires keys { length keys.now ≡ length layers.now }
    ensures seats { IfOk result (λ places.
        AreSeats layers.now keys.now (length layers.now) places.items) }
    ensures low { IfOk result (λ places. AreLow places.items) }
{
    let widest = widest_of(layers);
    let mut places = Vec::with_capacity(alloc, layers.len())?;
    'boxes: for number in 0..layers.len() {
        places.push(seat_of(layers, keys, widest, number))?;
    }
    Ok(places)
}

/// Finds where the picture ends below the lowest of these places.
pub(crate) fn height_of(places: &[Place]) -> u32
    requires { AreLow places.now }
    ensures { (a : ℕ) → a < length places.now → (place_at places.now a).y + 64 ≤ result }
{
    let mut height = 0u32;
    'places: for index in 0..places.len() {
        height = height.max(places[index].y + 64);
    }
    height
}
