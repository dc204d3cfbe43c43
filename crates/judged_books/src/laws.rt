//! Laws over the definitions alone: each function does nothing, and its contract is the law.
ghost use Rattle.judged_books.specs.JudgedLaws.{GrownBeginsAlike, JudgedGraphIsShown};
ghost use Rattle.judged_books.specs.JudgedLaws.{JudgedWordsTell};

use hypothesis_index::laws::{pairs_follow, places_differ, places_fit};
use session_rules::KeptTrace;
use trace_types::laws::{
    numbering_is_one_to_one, relations_are_symmetric, renamed_traces_leave_alike,
};
use trace_types::{NameText, NamedSegment, NamedTrace, Segment, Text};
use word_rows::laws::below_wider;

/// The words of a judged book tell what its given digest and its kept traces refute.
pub fn judged_words_tell()
    ensures { JudgedWordsTell }
{
    places_differ();
    places_fit();
    pairs_follow();
    below_wider();
    numbering_is_one_to_one::<NameText>();
    numbering_is_one_to_one::<Text>();
    relations_are_symmetric::<KeptTrace, Segment, NameText, Text, Text>();
    renamed_traces_leave_alike::<
        NamedTrace,
        NamedSegment,
        u32,
        u32,
        u32,
        KeptTrace,
        Segment,
        NameText,
        Text,
        Text,
    >();
}

/// The graph of a trace by the words of a judged book is that of the kept trace.
pub fn judged_graph_is_shown()
    ensures { JudgedGraphIsShown }
{
    numbering_is_one_to_one::<NameText>();
}

/// A catalogue that begins with a digest's names and tasks still does after more traces.
pub fn grown_begins_alike()
    ensures { GrownBeginsAlike }
{}
