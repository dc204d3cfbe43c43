//! A law over the definitions alone: the function does nothing, and its contract is the law.
ghost use Rattle.digest_merging.specs.Merges.{AGivenDigestIsOne};

/// Tables give one digest.
pub fn a_given_digest_is_one()
    ensures { AGivenDigestIsOne }
{}
