ghost use Rattle.std.specs.Prelude.{◌≡◌, ◌+◌, ◌==◌, ◌∷◌, length, option_copied};
ghost use Rattle.std.specs.List.{slice_split};
ghost use Rattle.step_core.specs.LinesLeft.{parts_left, room_left};

use memchr::memchr;

/// The first part of some bytes, and what follows it.
#[derive(Clone, Copy, Debug)]
pub(crate) struct Part<'b> {
    /// The bytes before the first separator.
    pub(crate) first: &'b [u8],
    /// The bytes after it; none where there is no separator.
    pub(crate) rest: Option<&'b [u8]>,
}

/// Cuts the first part off, which ends at the first separator.
pub(crate) fn first_part(bytes: &[u8], separator: u8) -> Part<'_>
    ensures parts { slice_split (λ byte. byte == separator) bytes.now ≡ result.first.now
        ∷ parts_left (λ byte. byte == separator) (option_copied result.rest) }
    ensures room { length result.first.now + room_left (option_copied result.rest)
        ≡ length bytes.now }
{
    match memchr(separator, bytes) {
        Some(end) => Part {
            first: &bytes[..end],
            rest: Some(&bytes[end + 1..]),
        },
        None => Part {
            first: bytes,
            rest: None,
        },
    }
}
