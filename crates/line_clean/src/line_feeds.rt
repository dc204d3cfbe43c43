ghost use Rattle.std.specs.Prelude.{◌≡◌, ◌<◌, ◌∷◌, ◌++◌, ◌+◌, [], IfSome, MatchOption, drop};
ghost use Rattle.std.specs.Prelude.{length, take};
ghost use Rattle.event_lines.specs.Cut.{input_lines};

use memchr::{memchr, memrchr};

/// Finds the first line feed.
pub(crate) fn first_line_feed(bytes: &[u8]) -> Option<usize>
    ensures within { IfSome result (λ at. at < length bytes.now) }
    ensures cut { IfSome result
        (λ at. bytes.now ≡ take at bytes.now ++ 10 ∷ drop (at + 1) bytes.now) }
    ensures first { MatchOption result (input_lines bytes.now ≡ bytes.now ∷ [])
        (λ at. input_lines (take at bytes.now) ≡ take at bytes.now ∷ []) }
{
    memchr(b'\n', bytes)
}

/// Finds the last line feed.
pub(crate) fn last_line_feed(bytes: &[u8]) -> Option<usize>
    ensures within { IfSome result (λ at. at < length bytes.now) }
    ensures cut { IfSome result
        (λ at. bytes.now ≡ take at bytes.now ++ 10 ∷ drop (at + 1) bytes.now) }
    ensures last { MatchOption result (input_lines bytes.now ≡ bytes.now ∷ [])
        (λ at. input_lines (drop (at + 1) bytes.now) ≡ drop (at + 1) bytes.now ∷ []) }
{
    memrchr(b'\n', bytes)
}
