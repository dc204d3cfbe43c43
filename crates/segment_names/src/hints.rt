ghost use Rattle.std.specs.Prelude.{◌+◌, ◌<◌, ◌≤◌, length};

use trace_types::Text;

/// How many hints there are, one for each number that `hint_of` may give.
pub(crate) const HINTS: usize = 4096;

/// Reads four bytes from an index on.
fn four_bytes(bytes: &[u8], at: usize) -> u64
    requires { at + 4 ≤ length bytes.now }
{
    u64::from(u32::from_le_bytes([bytes[at], bytes[at + 1], bytes[at + 2], bytes[at + 3]]))
}

/// Reads eight bytes from an index on.
fn eight_bytes(bytes: &[u8], at: usize) -> u64
    requires { at + 8 ≤ length bytes.now }
{
    u64::from_le_bytes([
        bytes[at],
        bytes[at + 1],
        bytes[at + 2],
        bytes[at + 3],
        bytes[at + 4],
        bytes[at + 5],
        bytes[at + 6],
        bytes[at + 7],
    ])
}

/// Mixes the first bytes of a text, its last ones and their number. A text of up to 16 bytes is
/// mixed whole.
fn digest(text: &Text) -> u64 {
    let bytes = text.as_str().as_bytes();
    let count = bytes.len();
    let (first, last) = match count {
        0 => (0, 0),
        1..=3 => (
            u64::from(bytes[0]),
            u64::from(bytes[count / 2]) << 8 | u64::from(bytes[count - 1]),
        ),
        4..=7 => (four_bytes(bytes, 0), four_bytes(bytes, count - 4)),
        _ => (eight_bytes(bytes, 0), eight_bytes(bytes, count - 8)),
    };
    first ^ last.rotate_left(29) ^ count as u64
}

/// Gives the number of the hint of a name, by its three texts. Names may share a hint.
pub(crate) fn hint_of(task: &Text, start: &Text, end: &Text) -> usize
    ensures { result < 4096 }
{
    let mixed = digest(task) ^ digest(start).rotate_left(21) ^ digest(end).rotate_left(42);
    (mixed.wrapping_mul(0x9e37_79b9_7f4a_7c15) >> 52) as usize
}
