ghost use Rattle.std.specs.Prelude.{◌≡◌, ◌≤◌, IfOk, length};
ghost use Rattle.implied_pairs.specs.Pairs.{AreBelow};
ghost use Rattle.graph_layers.specs.Layouts.{IsLayout};
ghost use Rattle.graph_layers.specs.Places.{ArePlaces};
ghost use Rattle.graph_layers.specs.inner.Depths.{AreSmall};
ghost use Rattle.graph_layers.specs.inner.Seats.{IsPlaced};

use crate::Place;
use crate::arrows::kept_pairs;
use crate::joining::joined_pairs;
use crate::layering::find_layers;
use crate::ordering::find_keys;
use crate::placing::{height_of, place_boxes, widest_of};
use crate::reaching::reach;
use implied_pairs::laws::the_same_reach;
use std::alloc::{AllocError, Global};

/// A model as a graph in layers.
#[derive(Debug, Drop)]
pub struct Layout {
    /// The relations that are drawn as arrows.
    pub arrows: Vec<(u32, u32)>,
    /// The boxes that a chain of arrows joins, without a relation of their own.
    pub joined: Vec<(u32, u32)>,
    /// The layer of each box, from 0, which is the top one.
    pub layers: Vec<u32>,
    /// Where each box stands.
    pub places: Vec<Place>,
    /// How wide the picture is, in pixels.
    pub width: u32,
    /// How high it is.
    pub height: u32,
}

/// Makes a layout, with the size of its picture. Takes no memory.
fn framed(
    arrows: Vec<(u32, u32)>,
    joined: Vec<(u32, u32)>,
    layers: Vec<u32>,
    places: Vec<Place>,
) -> Layout
    requires few { length layers.items ≤ 128 }
    requires placed { IsPlaced layers.items places.items }
    ensures arrows { result.arrows.items ≡ arrows.items }
    ensures joined { result.joined.items ≡ joined.items }
    ensures layers { result.layers.items ≡ layers.items }
    ensures places { ArePlaces (length layers.items) layers.items result.places.items result.width
        result.height }
{
    let width = 164 * widest_of(&layers);
    let height = height_of(&places);
    Layout {
        arrows,
        joined,
        layers,
        places,
        width,
        height,
    }
}

/// Finds where each box stands, in an order of the boxes of each layer in which arrows are short.
fn find_places(
    alloc: Global,
    layers: &[u32],
    arrows: &[(u32, u32)],
) -> Result<Vec<Place>, AllocError>
    requires few { length layers.now ≤ 128 }
    requires small { AreSmall 128 layers.now }
    ensures { IfOk result (λ places. IsPlaced layers.now places.items) }
{
    let keys = find_keys(alloc, layers, arrows)?;
    place_boxes(alloc, layers, &keys)
}

/// Lays out so many boxes with these relations. It takes time of at most the third power of the
/// count, or the number of relations for each two boxes. The only error is out of memory.
pub fn lay_out(alloc: Global, count: u32, pairs: &[(u32, u32)]) -> Result<Layout, AllocError>
    requires few { count ≤ 128 }
    requires below { AreBelow count pairs.now }
    ensures { IfOk result (IsLayout count pairs.now) }
{
    let size = count as usize;
    let matrix = reach(alloc, size, pairs)?;
    let arrows = kept_pairs(alloc, count, pairs)?;
    let joined = joined_pairs(alloc, size, pairs, &matrix)?;
    let layers = find_layers(alloc, size, pairs, &matrix)?;
    let places = find_places(alloc, &layers, &arrows)?;
    the_same_reach();
    Ok(framed(arrows, joined, layers, places))
}
