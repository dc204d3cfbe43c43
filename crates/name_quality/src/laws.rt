//! Laws over the definitions alone: each function does nothing, and its contract is the law.
ghost use Rattle.std.specs.Prelude.{◌≡◌, List};
ghost use Rattle.std.specs.List.{AllZip, count_by};
ghost use Rattle.event_table.specs.Texts.{AreDifferent};
ghost use Rattle.segment_names.specs.Known.{same_name};
ghost use Rattle.trace_types.specs.Batch.{PlainTrace};
ghost use Rattle.trace_types.specs.Segments.{SegmentName};
ghost use Rattle.name_quality.specs.Names.{HasNames, all_names, count_traces};

use segment_cut::laws::a_trace_has_one_verdict;

/// States that a trace has at most one segment of a name, so that as many segments have a name as
/// traces have it.
pub fn a_trace_has_a_name_once()
    ensures once { (trace : PlainTrace) (names : List SegmentName) → HasNames trace names
        → AreDifferent names }
    ensures counted { (traces : List PlainTrace) (named : List (List SegmentName))
        (name : SegmentName) → AllZip HasNames traces named
        → count_by (same_name name) (all_names named) ≡ count_traces named name }
{}

/// States that traces fix the names of their segments.
pub fn traces_have_their_names_in_one_way()
    ensures { (traces : List PlainTrace) (named others : List (List SegmentName))
        → AllZip HasNames traces named → AllZip HasNames traces others → named ≡ others }
{
    a_trace_has_one_verdict();
}
