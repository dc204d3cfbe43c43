ghost use Rattle.std.specs.Prelude.{◌+◌, ◌<◌, ◌≤◌, length};

use std::alloc::{AllocError, Global};

/// The number of hints for texts of one kind: one for each place of a key.
const HINTS: usize = 4096;

/// Reads four bytes from an index on.
fn four_bytes(bytes: &[u8], at: usize) -> u64
    requires { at + 4 ≤ length bytes.now }
{
    u64::from(u32::from_le_bytes([bytes[at], bytes[at + 1], bytes[at + 2], bytes[at + 3]]))
}

/// Reads eight bytes from an index on.
fn eight_bytes(bytes: &[u8], at: usize) -> u64
    requires { at + 8 ≤ length bytes.now }
{
    u64::from_le_bytes([
        bytes[at],
        bytes[at + 1],
        bytes[at + 2],
        bytes[at + 3],
        bytes[at + 4],
        bytes[at + 5],
        bytes[at + 6],
        bytes[at + 7],
    ])
}

/// Mixes the first bytes of a text, its last ones and their number. A text of up to 16 bytes is
/// mixed whole.
fn digest(text: &str) -> u64 {
    let bytes = text.as_bytes();
    let count = bytes.len();
    let (first, last) = match count {
        0 => (0, 0),
        1..=3 => (
            u64::from(bytes[0]),
            u64::from(bytes[count / 2]) << 8 | u64::from(bytes[count - 1]),
        ),
        4..=7 => (four_bytes(bytes, 0), four_bytes(bytes, count - 4)),
        _ => (eight_bytes(bytes, 0), eight_bytes(bytes, count - 8)),
    };
    first ^ last.rotate_left(29) ^ count as u64
}

/// Where the hint of a text stands, and a tag that few texts share with it.
#[derive(Clone, Copy)]
pub(crate) struct HintKey {
    place: usize,
    tag: u32,
}

/// A number to look at first, and the tag of its text.
#[derive(Clone, Copy)]
struct Hint {
    number: u32,
    tag: u32,
}

/// Gives the key of a text's hint. Texts may share a key.
pub(crate) fn hint_key(text: &str) -> HintKey {
    let mixed = digest(text).wrapping_mul(0x9e37_79b9_7f4a_7c15);
    HintKey {
        place: (mixed >> 52) as usize,
        tag: (mixed >> 20 & 0xffff_ffff) as u32,
    }
}

/// Which number to look at first for a text of one kind. A hint may be stale or of another text:
/// the text under its number is compared before it is taken.
#[derive(Drop)]
pub(crate) struct Hints {
    hints: Vec<Hint>,
}

impl Hints {
    /// Makes hints, which point to the first text.
    fn new(alloc: Global) -> Result<Hints, AllocError> {
        let hints = Vec::from_elem(alloc, Hint { number: 0, tag: 0 }, HINTS)?;
        Ok(Hints { hints })
    }

    /// Gives the number that a hint points to, if its tag is that of the key.
    pub(crate) fn number(&self, key: &HintKey) -> Option<u32> {
        let Hint { number, tag } = *self.hints.get(key.place)?;
        (tag == key.tag).then_some(number)
    }

    /// Points a hint to a number.
    pub(crate) fn set(&mut self, key: &HintKey, number: u32) {
        if key.place < self.hints.len() {
            self.hints[key.place] = Hint {
                number,
                tag: key.tag,
            };
        }
    }
}

/// Where to look for the texts of events first. Made once for each piece of lines and passed to
/// each push: it serves one table after another, and is no part of what any of them is seen as.
#[derive(Drop)]
pub struct TextHints {
    pub(crate) requests: Hints,
    pub(crate) machines: Hints,
    pub(crate) tasks: Hints,
    pub(crate) names: Hints,
}

impl TextHints {
    /// Makes hints of each kind: 128 KiB in all. The only error is out of memory.
    pub fn new(alloc: Global) -> Result<TextHints, AllocError> {
        Ok(TextHints {
            requests: Hints::new(alloc)?,
            machines: Hints::new(alloc)?,
            tasks: Hints::new(alloc)?,
            names: Hints::new(alloc)?,
        })
    }
}
