ghost use Rattle.std.specs.Prelude.{◌≡◌, ◌<◌, ◌∷◌, ◌++◌, ◌+◌, [], drop, length, take, IfSome, MatchOption};
ghost use Rattle.event_lines.specs.Cut.{input_lines};

use memchr::memrchr;

/// What is carried from one piece of a file to the next: the line that has not ended, and the number
/// that it has, as far as 64 bits count.
#[derive(Drop)]
pub(crate) struct Carry {
    /// The bytes of the line so far.
    pub(crate) rest: Vec<u8>,
    /// Its number, from 1.
    pub(crate) number: u64,
}

/// Finds the last line feed.
pub(crate) fn last_line_feed(bytes: &[u8]) -> Option<usize>
    ensures within { IfSome result (λ at. at < length bytes.now) }
    ensures cut { IfSome result
        (λ at. bytes.now ≡ take at bytes.now ++ 10 ∷ drop (at + 1) bytes.now) }
    ensures last { MatchOption result (input_lines bytes.now ≡ bytes.now ∷ [])
        (λ at. input_lines (drop (at + 1) bytes.now) ≡ drop (at + 1) bytes.now ∷ []) }
{
    memrchr(b'\n', bytes)
}
