ghost use Rattle.std.specs.Prelude.{◌<◌};

use mystery_io::{ByteList, MemFile, MemFiles, MemSink};
use std::alloc::{AllocError, Global};
use trace_types::Text;

/// How many bytes a sink has room for.
const ROOM: usize = 65_536;

/// What a run meets: its arguments, the files `f` and `g`, the calls on files, on `out` and on
/// `err` that fail, and how many bytes a call gives or takes.
#[derive(Clone, Copy)]
pub struct Setting<'t> {
    pub words: &'t [&'t str],
    pub f: &'t [u8],
    pub g: &'t [u8],
    pub most: usize,
    pub failing: u32,
    pub out_failing: u32,
    pub err_failing: u32,
}

/// The argument `f`, files without bytes, and no call that fails.
pub const SETTING: Setting<'static> = Setting {
    words: &["f"],
    f: b"",
    g: b"",
    most: 4096,
    failing: 0,
    out_failing: 0,
    err_failing: 0,
};

/// Makes a file in memory.
fn mem_file(alloc: Global, name: &str, bytes: &[u8]) -> Result<MemFile, AllocError> {
    Ok(MemFile {
        name: Text::new(alloc, name)?,
        bytes: ByteList::of(bytes.to_vec(alloc)?),
    })
}

impl Setting<'_> {
    /// Makes the list of the arguments. The only error is out of memory.
    pub fn words(&self, alloc: Global) -> Result<Vec<Text>, AllocError> {
        let mut all = Vec::new(alloc);
        for word in self.words {
            all.push(Text::new(alloc, word)?)?;
        }
        Ok(all)
    }

    /// Makes the files `f` and `g` in memory. The only error is out of memory.
    pub fn files(&self, alloc: Global) -> Result<MemFiles, AllocError>
        requires { 0 < self.now.most }
    {
        let mut all = Vec::new(alloc);
        all.push(mem_file(alloc, "f", self.f)?)?;
        all.push(mem_file(alloc, "g", self.g)?)?;
        Ok(MemFiles::new(all, self.most, [self.failing].to_vec(alloc)?))
    }

    /// Makes a sink in memory that fails at this call. The only error is out of memory.
    pub fn sink(&self, alloc: Global, failing: u32) -> Result<MemSink, AllocError>
        requires { 0 < self.now.most }
    {
        MemSink::new(alloc, self.most, [failing].to_vec(alloc)?, ROOM)
    }
}
