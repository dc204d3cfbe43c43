ghost use Rattle.std.specs.Prelude.{◌≤◌, ◌<◌};
ghost use Rattle.worker_limit.specs.Pieces.{MakesAtMost, SharesAmong};
ghost use Rattle.worker_limit.specs.inner.Powers.{IsPowerBelow};

/// Returns how many items a piece of a list of this length has at least: two where there are more
/// items than pieces, since with one a piece of two would be halved again.
fn least_items(length: usize, pieces: usize) -> usize
    ensures some { 1 ≤ result }
    ensures two { pieces < length → 2 ≤ result }
    ensures most { result ≤ 2 }
{
    if length > pieces { 2 } else { 1 }
}

/// A runtime, and how many of its threads may share one piece of work.
#[derive(Drop)]
pub struct WorkerLimit<'r, R> {
    /// The runtime.
    pub runtime: &'r R,
    /// The most threads; 0 is one.
    pub most: u32,
}

impl<'r, R> WorkerLimit<'r, R> {
    /// Returns the greatest power of two that is not above the limit.
    fn most_pieces(&self) -> usize
        ensures { IsPowerBelow self.now.most result }
    {
        1usize << self.most.max(1).ilog2()
    }

    /// Returns the least length of a piece for `with_min_len` of `rayon`, with which a list of this
    /// length is cut into no more pieces than there may be threads. `rayon` halves a list while
    /// both halves are so long, so at most the greatest power of two that is not above the limit is
    /// used, and less where there are few items. A piece has at least `fewest` items.
    pub fn piece_length(&self, length: usize, fewest: usize) -> usize
        ensures fewest { fewest ≤ result }
        ensures most { MakesAtMost self.now.most length result }
        ensures shared { SharesAmong self.now.most length fewest result }
    {
        let pieces = self.most_pieces();
        let even = length / pieces;
        fewest.max(even).max(least_items(length, pieces))
    }
}
