ghost use Rattle.std.specs.Prelude.{◌≡◌, ◌<◌, ◌≤◌, ◌∷◌, ◌++◌, ◌+◌, [], IfSome, MatchOption, drop};
ghost use Rattle.std.specs.Prelude.{length, take};
ghost use Rattle.event_lines.specs.Cut.{input_lines};
ghost use Rattle.line_quality.specs.inner.FirstLines.{IsFirstLine};

use event_lines::laws::pieces_say_what_the_whole_says;
use memchr::memchr;

/// Lends the bytes before a place.
pub(crate) fn bytes_before(bytes: &[u8], at: usize) -> &[u8]
    requires { at ≤ length bytes.now }
    ensures { result.now ≡ take at bytes.now }
{
    &bytes[..at]
}

/// Lends the bytes from a place on.
pub(crate) fn bytes_from(bytes: &[u8], at: usize) -> &[u8]
    requires { at ≤ length bytes.now }
    ensures { result.now ≡ drop at bytes.now }
{
    &bytes[at..]
}

/// Where the first line of some bytes ends, and where the next one begins: at the end of the bytes
/// where there is none.
#[derive(Clone, Copy, Debug)]
pub(crate) struct FirstLine {
    pub(crate) end: usize,
    pub(crate) next: usize,
}

/// Finds the first line feed.
fn first_line_feed(bytes: &[u8]) -> Option<usize>
    ensures within { IfSome result (λ at. at < length bytes.now) }
    ensures cut { IfSome result
        (λ at. bytes.now ≡ take at bytes.now ++ 10 ∷ drop (at + 1) bytes.now) }
    ensures first { MatchOption result (input_lines bytes.now ≡ bytes.now ∷ [])
        (λ at. input_lines (take at bytes.now) ≡ take at bytes.now ∷ []) }
{
    memchr(b'\n', bytes)
}

impl FirstLine {
    /// Finds the first line of bytes.
    pub(crate) fn of(bytes: &[u8]) -> FirstLine
        ensures { IsFirstLine bytes.now result }
    {
        pieces_say_what_the_whole_says();
        match first_line_feed(bytes) {
            Some(at) => FirstLine {
                end: at,
                next: at + 1,
            },
            None => FirstLine {
                end: bytes.len(),
                next: bytes.len(),
            },
        }
    }
}
