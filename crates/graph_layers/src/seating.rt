ghost use Rattle.std.specs.Prelude.{◌≡◌, ◌<◌, ◌≤◌, ◌==◌, length, slice_index};
ghost use Rattle.graph_layers.specs.inner.Seats.{is_before, rank_of, row_length, rows_above};
ghost use Rattle.graph_layers.specs.inner.Seats.{size_of};

/// Tells whether the one box stands before the other in its layer.
fn is_before(layers: &[u32], keys: &[u64], one: usize, other: usize) -> bool
    requires keys { length keys.now ≡ length layers.now }
    requires one { one < length layers.now }
    requires other { other < length layers.now }
    ensures { result ≡ is_before layers.now keys.now one other }
{
    layers[one] == layers[other]
        && (keys[one] < keys[other] || (keys[one] == keys[other] && one < other))
}

/// Counts the boxes of its layer that stand before a box.
pub(crate) fn rank_of(layers: &[u32], keys: &[u64], number: usize) -> u32
    requires few { length layers.now ≤ 128 }
    requires keys { length keys.now ≡ length layers.now }
    requires number { number < length layers.now }
    ensures value { result ≡ rank_of (length layers.now) layers.now keys.now number }
    ensures small { result ≤ 128 }
{
    let mut rank = 0u32;
    'boxes: for one in 0..layers.len() {
        if is_before(layers, keys, one, number) {
            rank += 1;
        }
    }
    rank
}

/// Tells whether a box is in a layer.
fn is_in(layers: &[u32], one: usize, layer: u32) -> bool
    requires { one < length layers.now }
    ensures { result ≡ (slice_index layers.now one == layer) }
{
    layers[one] == layer
}

/// Counts the boxes of a layer.
pub(crate) fn size_of(layers: &[u32], layer: u32) -> u32
    requires few { length layers.now ≤ 128 }
    ensures value { result ≡ size_of (length layers.now) layers.now layer }
    ensures small { result ≤ 128 }
{
    let mut size = 0u32;
    'boxes: for one in 0..layers.len() {
        if is_in(layers, one, layer) {
            size += 1;
        }
    }
    size
}

/// Counts the rows of the layers above a layer.
pub(crate) fn rows_above(layers: &[u32], layer: u32) -> u32
    requires few { length layers.now ≤ 128 }
    requires layer { layer ≤ 128 }
    ensures value { result ≡ rows_above (length layers.now) layers.now layer }
    ensures small { result ≤ 2176 }
{
    let mut rows = 0u32;
    'layers: for above in 0..layer {
        rows += (size_of(layers, above) + 7) / 8;
    }
    rows
}

/// Counts the boxes in the row of a box.
pub(crate) fn row_length(size: u32, rank: u32) -> u32
    ensures value { result ≡ row_length size rank }
    ensures most { result ≤ 8 }
{
    size.saturating_sub(rank / 8 * 8).min(8)
}
