ghost use Rattle.std.specs.Prelude.{◌≡◌};
ghost use Rattle.event_table.specs.inner.TextNumbers.{key_of};

use crate::digest;
use trace_types::Text;

/// Gives the key of a text: its digest, and the text behind it. Keys are compared by the digests
/// first, which tell most texts apart, and by the texts where these are equal.
pub(crate) fn text_key(text: Text) -> (u64, Text)
    ensures { result ≡ key_of text }
{
    (digest(text.as_str().as_bytes()), text)
}
