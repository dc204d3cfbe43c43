ghost use Rattle.std.specs.Prelude.{◌≡◌, ◌<◌, ◌≤◌, Bool, List, ℕ, length, take, is_ok, IfOk, OnErr};
ghost use Rattle.std.specs.Prelude.{if◌then◌else◌};
ghost use Rattle.mystery_io.specs.Counts.{counted_up, faults_after};
ghost use Rattle.mystery_io.specs.Readings.{Reading, after_open, after_read};

/// A call failed, and the object that was called counted one fault.
#[derive(Clone, Copy, Debug, PartialEq, Eq)]
pub struct Failed;

/// Files that are opened by name and read one at a time.
///
/// Every object tells what its calls gave, the real ones too: it keeps a history that exists in
/// proofs alone.
pub trait Files {
    /// What the calls gave so far, one reading a call of `open`.
    ghost given: { Self → List Reading };

    /// Whether a file is open.
    ghost is_open: { Self → Bool };

    /// The number of calls of `open`, as far as 64 bits count.
    ghost opens: { Self → ℕ };

    /// The number of calls that failed, as far as 64 bits count.
    ghost faults: { Self → ℕ };

    /// Opens a file in place of the one before. After a failure no file is open.
    fn open(&mut self, name: &str) -> Result<(), Failed>
        ensures given { given self.new ≡ after_open (given self.old) name.now }
        ensures is_open { is_open self.new ≡ is_ok result }
        ensures counted { opens self.new ≡ counted_up (opens self.old) }
        ensures tallied { faults self.new ≡ faults_after result (faults self.old) };

    /// Reads the next bytes into the first places of `into`, and returns how many. `Ok(0)` says
    /// that nothing is left or that no file is open.
    fn read(&mut self, into: &mut [u8]) -> Result<usize, Failed>
        requires { 0 < length into.old }
        ensures within { IfOk result (λ n. n ≤ length into.new) }
        ensures gives { IfOk result (λ n. given self.new
            ≡ (if is_open self.old then after_read (given self.old) (take n into.new)
            else given self.old)) }
        ensures stays { OnErr result (given self.new ≡ given self.old) }
        ensures is_open { is_open self.new ≡ is_open self.old }
        ensures counted { opens self.new ≡ opens self.old }
        ensures tallied { faults self.new ≡ faults_after result (faults self.old) };
}
