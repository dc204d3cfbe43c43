ghost use Rattle.std.specs.Prelude.{◌≡◌, ◌<◌};
ghost use Rattle.clock_offsets.specs.inner.Digests.{chain_of};

/// Picks one of so many chains for a digest.
pub(crate) fn pick_chain(count: usize, digest: u64) -> usize
    requires { 0 < count }
    ensures chain { result ≡ chain_of count digest }
    ensures within { result < count }
{
    ((u128::from(digest) * count as u128) >> 64) as usize
}
