//! Laws over the definitions alone: each function does nothing, and its contract is the law.
ghost use Rattle.summary_laws.specs.GivenJobs.{TheGivenDigestStays};
ghost use Rattle.summary_laws.specs.MergeOrders.{DigestsAreMergedInAnyOrder};
ghost use Rattle.summary_laws.specs.MergeOrders.{DigestsAreMergedInSteps};
ghost use Rattle.summary_laws.specs.OrderLaws.{TracesStandInAnyOrder};
ghost use Rattle.summary_laws.specs.PartLaws.{PartsPrintWhatTheWholePrints};
ghost use Rattle.summary_laws.specs.PlainModels.{NothingGivenChangesNothing, TracesHaveADigest};
ghost use Rattle.summary_laws.specs.PrintedLaws.{WhatSummarizePrintsIsRead};
ghost use Rattle.summary_laws.specs.StandingLaws.{DigestStandsForTraces};
ghost use Rattle.summary_laws.specs.StandingLaws.{MergedDigestStandsForTraces};
ghost use Rattle.summary_laws.specs.StandingLaws.{OwnTracesChangeNothing};

use digest_facts::laws::{digests_merge_freely, names_tell_apart, traces_are_those_of_parts};
use digest_laws::laws::{
    a_digest_of_traces_can_be_read, a_merge_can_be_read, a_printed_digest_is_read,
};
use segment_cut::laws::a_trace_has_one_verdict;
use session_rules::KeptTrace;
use trace_types::{NameText, Segment, Text};

/// Under the digest of past traces kept traces have the model, the digest, the graphs, paths and
/// slacks, the reports and the forecasts that they have where the past traces are kept too; to
/// merge the digest into what is given is to keep them.
pub fn a_digest_stands_for_its_traces()
    ensures alone { DigestStandsForTraces }
    ensures merged { MergedDigestStandsForTraces }
{}

/// Kept traces have a digest.
pub fn traces_have_a_digest()
    ensures { TracesHaveADigest }
{}

/// Where nothing is given, what is printed is judged by the kept traces alone.
pub fn nothing_given_changes_nothing()
    ensures { NothingGivenChangesNothing }
{}

/// Where the given digest has the kept traces already, it refutes what all its traces refute: parts
/// may be judged under the digest of the whole.
pub fn own_traces_change_nothing()
    ensures { OwnTracesChangeNothing }
{}

/// The same traces in another order have one model, one digest and the same graphs.
pub fn traces_stand_in_any_order()
    ensures { TracesStandInAnyOrder }
{}

/// Whatever jobs a session carries out, it has the digest that was given to it: no drop takes it.
pub fn the_given_digest_stays()
    ensures { TheGivenDigestStays }
{}

/// Two batches with no request in both, one after the other: a session that adds the second under
/// the digest of the first prints what one prints that adds both at once, and judges its traces
/// alike.
pub fn parts_print_what_the_whole_prints()
    ensures { PartsPrintWhatTheWholePrints }
{
    a_trace_has_one_verdict();
    traces_are_those_of_parts();
}

/// Digests are merged to one in whatever order they are given, at once or in steps.
pub fn digests_are_merged_in_any_order()
    ensures order { DigestsAreMergedInAnyOrder }
    ensures steps { DigestsAreMergedInSteps }
{
    digests_merge_freely::<NameText, Text>();
    names_tell_apart();
}

/// What is printed of a digest is read again: under a given digest that can be read, the text of the
/// digest of printable traces is read as the table of both, which can be given again.
pub fn what_summarize_prints_is_read()
    ensures { WhatSummarizePrintsIsRead }
{
    a_digest_of_traces_can_be_read::<KeptTrace, Segment, Text>();
    a_merge_can_be_read();
    a_printed_digest_is_read();
}
