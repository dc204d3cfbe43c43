ghost use Rattle.std.specs.Prelude.{◌≡◌, ◌*◌, ◌<◌, ◌≤◌, ℕ, IfOk, length, slice_index};
ghost use Rattle.implied_pairs.specs.Pairs.{AreBelow};
ghost use Rattle.graph_layers.specs.Layers.{AreLayers};
ghost use Rattle.graph_layers.specs.inner.Chains.{IsMatrix, is_above};
ghost use Rattle.graph_layers.specs.inner.Depths.{AreDepths, AreSmall, depth_over};

use std::alloc::{AllocError, Global};

/// Tells whether a chain leads from the one box to the other, and none back.
fn is_above(count: usize, matrix: &[bool], high: usize, low: usize) -> bool
    requires few { count ≤ 128 }
    requires size { length matrix.now ≡ count * count }
    requires high { high < count }
    requires low { low < count }
    ensures { result ≡ is_above count matrix.now high low }
{
    matrix[high * count + low] && !matrix[low * count + high]
}

/// Finds the first layer that is below the layers of all boxes above a box.
fn depth_of(count: usize, matrix: &[bool], layers: &[u32], low: usize) -> u32
    requires few { count ≤ 128 }
    requires size { length matrix.now ≡ count * count }
    requires layers { length layers.now ≡ count }
    requires small { AreSmall 1000 layers.now }
    requires low { low < count }
    ensures { result
        ≡ depth_over (λ a. is_above count matrix.now a low) (slice_index layers.now) count }
{
    let mut depth = 0u32;
    'boxes: for high in 0..count {
        if is_above(count, matrix, high, low) {
            depth = depth.max(layers[high] + 1);
        }
    }
    depth
}

/// Gives each box the first layer that is below those of all boxes above it.
fn next_layers(
    alloc: Global,
    count: usize,
    matrix: &[bool],
    layers: &[u32],
) -> Result<Vec<u32>, AllocError>
    requires few { count ≤ 128 }
    requires size { length matrix.now ≡ count * count }
    requires layers { length layers.now ≡ count }
    requires small { AreSmall 1000 layers.now }
    ensures { IfOk result (λ next. AreDepths count count (is_above count matrix.now)
        (slice_index layers.now) next.items) }
{
    let mut next = Vec::with_capacity(alloc, count)?;
    'boxes: for low in 0..count {
        next.push(depth_of(count, matrix, layers, low))?;
    }
    Ok(next)
}

/// Finds the layer of each box: after as many rounds as there are boxes none moves any more. The
/// only error is out of memory.
pub(crate) fn find_layers(
    alloc: Global,
    count: usize,
    pairs: &[(u32, u32)],
    matrix: &[bool],
) -> Result<Vec<u32>, AllocError>
    requires few { count ≤ 128 }
    requires below { AreBelow count pairs.now }
    requires matrix { IsMatrix count pairs.now matrix.now }
    ensures layers { IfOk result (λ layers. AreLayers count pairs.now layers.items) }
    ensures small { IfOk result (λ layers. AreSmall count layers.items) }
{
    let mut layers = Vec::from_elem(alloc, 0u32, count)?;
    'rounds: for round in 0..count {
        layers = next_layers(alloc, count, matrix, &layers)?;
    }
    Ok(layers)
}
