ghost use Rattle.std.specs.Prelude.{◌≡◌, ◌<◌, ◌≤◌, List, ℕ, length, take, IfOk, OnErr, OnOk};
ghost use Rattle.mystery_io.specs.Counts.{faults_after};
ghost use Rattle.output_files.specs.Written.{WrittenFile, after_create, after_write, create_faults};

use crate::CreateFault;
use mystery_io::Failed;
use trace_types::Text;

/// Files that are made one after another, and then written in any order.
///
/// Every object tells what was written, the real ones too: they keep it in proofs alone.
pub trait OutputFiles {
    /// The files that were made so far, in their order, each with all bytes that were written to it.
    ghost written: { Self → List WrittenFile };

    /// The number of calls that failed, as far as 64 bits count.
    ghost faults: { Self → ℕ };

    /// Counts the files that were made.
    fn count(&self) -> usize
        ensures { result ≡ length (written self.now) };

    /// Makes an empty file of this name, in place of one that is there. It comes behind those that
    /// were made before.
    fn create(&mut self, name: &Text) -> Result<(), CreateFault>
        ensures made { OnOk result (written self.new ≡ after_create (written self.old) name.now) }
        ensures stays { OnErr result (written self.new ≡ written self.old) }
        ensures tallied { faults self.new ≡ create_faults result (faults self.old) };

    /// Appends a prefix of a piece, at least one byte, to the file with this index, from 0, and
    /// returns its length. After a failure nothing of it is written.
    fn write(&mut self, index: usize, piece: &[u8]) -> Result<usize, Failed>
        requires made { index < length (written self.old) }
        requires something { 0 < length piece.now }
        ensures some { IfOk result (λ n. 0 < n) }
        ensures within { IfOk result (λ n. n ≤ length piece.now) }
        ensures appends { IfOk result (λ n. written self.new
            ≡ after_write (written self.old) index (take n piece.now)) }
        ensures stays { OnErr result (written self.new ≡ written self.old) }
        ensures tallied { faults self.new ≡ faults_after result (faults self.old) };
}
