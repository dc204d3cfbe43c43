ghost use Rattle.std.specs.Prelude.{◌≡◌, ◌+◌, length, option_map, IfSome};
ghost use Rattle.digest_reading.specs.Readings.{first_line};

use memchr::memchr;

/// A line without its line feed, and what follows it.
#[derive(Clone, Copy, Debug)]
pub(crate) struct Line<'b> {
    /// The bytes of the line.
    pub(crate) line: &'b [u8],
    /// The bytes after its line feed.
    pub(crate) rest: &'b [u8],
}

/// Cuts the first line off; none where no line feed ends one.
pub(crate) fn first_line(bytes: &[u8]) -> Option<Line<'_>>
    ensures cut { option_map (λ l. (l.line.now, l.rest.now)) result ≡ first_line bytes.now }
    ensures room { IfSome result (λ l.
        length l.line.now + length l.rest.now + 1 ≡ length bytes.now) }
{
    match memchr(b'\n', bytes) {
        Some(end) => Some(Line {
            line: &bytes[..end],
            rest: &bytes[end + 1..],
        }),
        None => None,
    }
}
