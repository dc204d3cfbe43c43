ghost use Rattle.std.specs.Prelude.{◌≡◌, ◌<◌, ◌≤◌, ◌++◌, [], length, take, IfSome, IfNone};
ghost use Rattle.mystery_io.specs.Counts.{counted_up};
ghost use Rattle.output_files.specs.Objects.{mem_file};

use crate::{CreateFault, OutputFiles};
use mystery_io::Failed;
use std::alloc::Global;
use trace_types::Text;

/// A file in memory that was made.
#[derive(Debug, Drop)]
pub struct MemOutput {
    /// Its name.
    pub name: Text,
    /// What was written to it.
    pub bytes: Vec<u8>,
}

/// Files in memory that fail as planned: the calls of `create` and `write` are numbered from 1, and a
/// call fails where its number is among those that fail, or no memory is left. A write takes at most
/// `most` bytes.
#[derive(Debug, Drop)]
pub struct MemOutputs {
    alloc: Global,
    files: Vec<MemOutput>,
    most: usize,
    failing: Vec<u32>,
    calls: u64,
    faults: u64,
}

impl MemOutputs {
    ghost use Rattle.output_files.specs.Objects.{mem_faults, mem_written};

    /// Makes the object with no file. `failing` has the numbers of the calls that fail.
    pub fn new(alloc: Global, most: usize, failing: Vec<u32>) -> MemOutputs
        ensures empty { mem_written result ≡ [] }
        ensures none { mem_faults result ≡ 0 }
    {
        MemOutputs {
            alloc,
            files: Vec::new(alloc),
            most,
            failing,
            calls: 0,
            faults: 0,
        }
    }

    /// Lends the files that were made.
    pub fn files(&self) -> &[MemOutput] {
        &self.files
    }

    /// Tells how many calls failed.
    pub fn faults(&self) -> u64 {
        self.faults
    }

    /// Counts a call, and tells whether it fails.
    fn fails(&mut self) -> bool
        ensures files { self.new.files ≡ self.old.files }
        ensures faults { self.new.faults ≡ self.old.faults }
    {
        self.calls = self.calls.saturating_add(1);
        let call = self.calls;
        self.failing.iter().any(|number| u64::from(*number) == call)
    }

    /// Counts a fault.
    fn fail(&mut self) -> Failed
        ensures files { self.new.files ≡ self.old.files }
        ensures counted { self.new.faults ≡ counted_up self.old.faults }
    {
        self.faults = self.faults.saturating_add(1);
        Failed
    }
}

/// Appends a prefix of a piece of at most so many bytes, and returns its length. Nothing is appended
/// where it would be empty, or no memory is left.
fn append(file: &mut MemOutput, most: usize, piece: &[u8]) -> Option<usize>
    ensures some { IfSome result (λ n. 0 < n) }
    ensures within { IfSome result (λ n. n ≤ length piece.now) }
    ensures appends { IfSome result (λ n. mem_file file.new
        ≡ record { name = file.old.name; bytes = file.old.bytes.items ++ take n piece.now }) }
    ensures stays { IfNone result (mem_file file.new ≡ mem_file file.old) }
{
    let count = most.min(piece.len());
    if count == 0 || file.bytes.extend_from_slice(&piece[..count]).is_err() {
        return None;
    }
    Some(count)
}

impl OutputFiles for MemOutputs {
    ghost use Rattle.output_files.specs.Objects.{mem_faults, mem_written};

    ghost written = { λ s. mem_written s };

    ghost faults = { λ s. mem_faults s };

    fn count(&self) -> usize {
        self.files.len()
    }

    fn create(&mut self, name: &Text) -> Result<(), CreateFault> {
        if self.fails() {
            self.fail();
            return Err(CreateFault::Failed);
        }
        let file = MemOutput {
            name: name.copy(self.alloc)?,
            bytes: Vec::new(self.alloc),
        };
        self.files.push(file)?;
        Ok(())
    }

    fn write(&mut self, index: usize, piece: &[u8]) -> Result<usize, Failed> {
        if self.fails() {
            return Err(self.fail());
        }
        match append(&mut self.files[index], self.most, piece) {
            Some(count) => Ok(count),
            None => Err(self.fail()),
        }
    }
}
