ghost use Rattle.std.specs.Prelude.{◌≡◌, ◌≤◌, [], Some, None, false, length, take, drop, min};
ghost use Rattle.std.specs.Prelude.{is_some, slice_get, MatchOption};
ghost use Rattle.mystery_io.specs.NamedBytes.{file_named, bytes_named};
ghost use Rattle.mystery_io.specs.inner.OpenFiles.{size_at};

use crate::MemFile;
use std::marker::Model;

/// Files in memory of which one may be open.
#[derive(Debug, Drop)]
pub(crate) struct NamedFiles {
    files: Vec<MemFile>,
    opened: Option<usize>,
    left: usize,
}

impl Model for NamedFiles {
    ghost use Rattle.std.specs.Prelude.{is_some};
    ghost use Rattle.mystery_io.specs.inner.OpenFiles.{OpenState, left_of, HasBytes};

    ghost Value = { OpenState };

    ghost view = { λ a. record {
      files = a.files.items;
      left = left_of a.files.items a.opened a.left;
      is_open = is_some a.opened;
    } };

    ghost invariant = { λ a. HasBytes a.files.items a.opened a.left };
}

impl NamedFiles {
    /// Holds these files, with none open.
    pub(crate) fn new(files: Vec<MemFile>) -> NamedFiles
        ensures { result ≡ record { files = files.items; left = []; is_open = false } }
    {
        NamedFiles {
            files,
            opened: None,
            left: 0,
        }
    }

    /// Opens the first file with this name, or none, and tells whether there is one.
    pub(crate) fn open(&mut self, name: &str) -> bool
        ensures found { result ≡ is_some (file_named self.old.files name.now) }
        ensures opened { self.new
            ≡ record self.old { left = bytes_named self.old.files name.now; is_open = result } }
    {
        self.opened = find_index(&self.files, name);
        self.left = count_bytes(&self.files, self.opened);
        self.opened.is_some()
    }

    /// Leaves no file open.
    pub(crate) fn close(&mut self)
        ensures { self.new ≡ record self.old { left = []; is_open = false } }
    {
        self.opened = None;
        self.left = 0;
    }

    /// Reads the next bytes, at most so many, into the first places of `into`, and returns how
    /// many.
    pub(crate) fn read(&mut self, most: usize, into: &mut [u8]) -> usize
        ensures count { result ≡ min (min most (length self.old.left)) (length into.old) }
        ensures takes { take result into.new ≡ take result self.old.left }
        ensures left { self.new ≡ record self.old { left = drop result self.old.left } }
    {
        let rest = self.rest();
        let count = most.min(rest.len()).min(into.len());
        into[..count].copy_from_slice(&rest[..count]);
        self.skip(count);
        count
    }

    /// Tells whether a file is open.
    pub(crate) fn is_open(&self) -> bool
        ensures { result ≡ self.now.is_open }
    {
        self.opened.is_some()
    }

    /// Returns what is left of the open file.
    fn rest(&self) -> &[u8]
        ensures { result.now ≡ self.now.left }
    {
        let Some(index) = self.opened else {
            return &[];
        };
        match self.files.get(index) {
            None => &[],
            Some(file) => {
                let bytes = file.bytes.items();
                &bytes[bytes.len() - self.left..]
            }
        }
    }

    /// Passes over the next bytes.
    fn skip(&mut self, count: usize)
        requires { count ≤ length self.old.left }
        ensures { self.new ≡ record self.old { left = drop count self.old.left } }
    {
        self.left -= count;
    }
}

/// Finds the index of the first file with this name.
fn find_index(files: &[MemFile], name: &str) -> Option<usize>
    ensures { MatchOption result (file_named files.now name.now ≡ None)
        (λ i. (file : MemFile) × (slice_get files.now i ≡ Some file)
        × (file_named files.now name.now ≡ Some file)) }
{
    for (i, file) in files.iter().enumerate() {
        if file.name.as_str() == name {
            return Some(i);
        }
    }
    None
}

/// Counts the bytes of the open file.
fn count_bytes(files: &[MemFile], opened: Option<usize>) -> usize
    ensures { result ≡ size_at files.now opened }
{
    opened
        .and_then(|i| files.get(i))
        .map_or(0, |file| file.bytes.items().len())
}
