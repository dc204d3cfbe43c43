ghost use Rattle.std.specs.Prelude.{◌≡◌, ◌<◌, ◌≤◌, List, ℕ, Option, length, take, IfOk, OnErr};
ghost use Rattle.std.specs.Io.KnownBytes.{append_known};
ghost use Rattle.mystery_io.specs.Counts.{faults_after};

use crate::Failed;

/// A place that bytes are written to, one after another.
///
/// An object may tell what was written or tell nothing, and never changes that. Clauses on what was
/// written hold where it is told.
pub trait Sink {
    /// All bytes that were written, where they are told.
    ghost written: { Self → Option (List ℕ) };

    /// The number of calls that failed, as far as 64 bits count.
    ghost faults: { Self → ℕ };

    /// Writes a prefix of a piece, at least one byte, and returns its length. After a failure
    /// nothing of it is written.
    fn write(&mut self, piece: &[u8]) -> Result<usize, Failed>
        requires { 0 < length piece.now }
        ensures some { IfOk result (λ n. 0 < n) }
        ensures within { IfOk result (λ n. n ≤ length piece.now) }
        ensures appends { IfOk result
            (λ n. written self.new ≡ append_known (written self.old) (take n piece.now)) }
        ensures stays { OnErr result (written self.new ≡ written self.old) }
        ensures counted { faults self.new ≡ faults_after result (faults self.old) };
}
