ghost use Rattle.std.specs.Prelude.{◌≡◌};
ghost use Rattle.event_table.specs.Digests.{digest_of};

use std::hash::{FoldHasher, Hasher};

/// Digests bytes to 64 bits, which tell most texts apart. The seed is fixed, so texts can be made
/// that share a digest.
#[inline]
pub fn digest(bytes: &[u8]) -> u64
    ensures { result ≡ digest_of bytes.now }
{
    let mut hasher = FoldHasher::default();
    hasher.write(bytes);
    hasher.finish()
}
