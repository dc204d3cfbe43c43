//! Laws over the definitions alone: each function does nothing, and its contract is the law.
ghost use Rattle.std.specs.Prelude.{ℕ, List};
ghost use Rattle.trace_types.specs.Parts.{Parts};
ghost use Rattle.trace_types.specs.Segments.{SegmentName};
ghost use Rattle.digest_laws.specs.ReadingLaws.{CutTextsAreRefused, DigestOfTracesIsReadable};
ghost use Rattle.digest_laws.specs.ReadingLaws.{DigestsAreRead};
ghost use Rattle.digest_laws.specs.ReadingLaws.{MergeIsReadable, MergeOfAllIsReadable};
ghost use Rattle.digest_laws.specs.ReadingLaws.{PrintedDigestIsRead, WhatIsReadGivesADigest};
ghost use Rattle.digest_laws.specs.ReadingLaws.{WhatIsReadIsDigests};

/// States that the texts of digests that can be read, one after another, are read as their tables.
pub fn digests_are_read()
    ensures { DigestsAreRead }
{}

/// States that what is read are the texts of digests that can be read, as their tables.
pub fn what_is_read_is_digests()
    ensures { WhatIsReadIsDigests }
{}

/// States that tables that were read give a digest.
pub fn what_is_read_gives_a_digest()
    ensures { WhatIsReadGivesADigest }
{}

/// States that the merge of two digests that can be read, which passes no limit, can be read.
pub fn a_merge_can_be_read()
    ensures { MergeIsReadable }
{}

/// States that what tables that were read give together can be read, where it passes no limit.
pub fn a_merge_of_all_can_be_read()
    ensures { MergeOfAllIsReadable }
{}

/// States that the text of a digest that can be read is read as its table.
pub fn a_printed_digest_is_read()
    ensures { PrintedDigestIsRead }
{}

/// States that no byte can be left off the end of the text of a digest.
pub fn texts_cut_short_are_refused()
    ensures { CutTextsAreRefused }
{}

/// States that the digest of traces can be read, where its texts and days are as event lines give
/// them and it passes no limit.
pub fn a_digest_of_traces_can_be_read<A, S, E>()
    ensures { (p : Parts A S SegmentName (List ℕ) E) → DigestOfTracesIsReadable p }
{}
