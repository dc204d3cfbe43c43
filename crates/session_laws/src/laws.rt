//! Laws over the definitions alone: each function does nothing, and its contract is the law.
ghost use Rattle.session_laws.specs.EndingLaws.{JobDoesOneThing, JobPassesNoLimit};
ghost use Rattle.session_laws.specs.EndingLaws.{JobPassesOneLimit};
ghost use Rattle.session_laws.specs.EndingLaws.{JobsStopAtOneLimit, TextsToLimitAreAlike};
ghost use Rattle.session_laws.specs.EndingLaws.{WholeStopsAtNoLimit, WholeTextsAreAlike};
ghost use Rattle.session_laws.specs.ReadyLaws.{BatchHasFewRequests, JobsAreReady};
ghost use Rattle.session_laws.specs.ReadyLaws.{JobsHaveFewRequests};
ghost use Rattle.session_laws.specs.WatchLaws.{AlikeTextsDifferInNumbers, OnlyWatchNumbersDiffer};
ghost use Rattle.session_laws.specs.WatchLaws.{PartHasOneText};

use digest_facts::laws::a_digest_is_one;
use segment_cut::laws::a_trace_has_one_verdict;
use session_rules::KeptTrace;
use trace_types::laws::{a_list_is_told_in_one_way, names_are_totally_ordered};
use trace_types::{NameText, Segment, Text};

/// The lines of an input without a bad one, further commands, and jobs that follow them make jobs
/// that sessions carry out.
pub fn jobs_are_ready()
    ensures { JobsAreReady }
{}

/// A batch has no more requests than events, and the jobs of lines no more than there are lines.
pub fn jobs_have_few_requests()
    ensures batch { BatchHasFewRequests }
    ensures jobs { JobsHaveFewRequests }
{}

/// A job does one thing and passes no limit, or it passes one limit.
pub fn a_job_does_one_thing()
    ensures one { JobDoesOneThing }
    ensures no_limit { JobPassesNoLimit }
    ensures one_limit { JobPassesOneLimit }
{
    a_trace_has_one_verdict();
    a_list_is_told_in_one_way::<u32>();
    a_list_is_told_in_one_way::<NameText>();
    a_list_is_told_in_one_way::<(NameText, NameText)>();
    a_list_is_told_in_one_way::<(Text, Text)>();
    names_are_totally_ordered::<NameText>();
    names_are_totally_ordered::<Text>();
}

/// Jobs are carried out to their end or stop at one limit, and two texts of the one or the other
/// are texts of the same parts.
pub fn jobs_end_in_one_way()
    ensures no_limit { WholeStopsAtNoLimit }
    ensures one_limit { JobsStopAtOneLimit }
    ensures whole { WholeTextsAreAlike }
    ensures to_limit { TextsToLimitAreAlike }
{
    a_job_does_one_thing();
}

/// Two texts of a part are one, but for watch rows, which have the same day, worker and count in
/// each row; so two texts of the same parts differ in watch numbers alone.
pub fn only_watch_numbers_differ()
    ensures part { PartHasOneText }
    ensures parts { OnlyWatchNumbersDiffer }
    ensures alike { AlikeTextsDifferInNumbers }
{
    a_list_is_told_in_one_way::<u32>();
    a_list_is_told_in_one_way::<NameText>();
    a_list_is_told_in_one_way::<Text>();
    a_list_is_told_in_one_way::<(NameText, NameText)>();
    a_list_is_told_in_one_way::<(Text, Text)>();
    a_list_is_told_in_one_way::<(u32, u32)>();
    names_are_totally_ordered::<NameText>();
    names_are_totally_ordered::<Text>();
    a_digest_is_one::<KeptTrace, Segment, NameText, Text, Text>();
}
