//! Laws over the definitions alone: each function does nothing, and its contract is the law.
ghost use Rattle.book_laws.specs.BookLaws.{DropShows, NewestShow, SheetsShow, DaysAreCounted};
ghost use Rattle.book_laws.specs.BookLaws.{GrownShows};
ghost use Rattle.book_laws.specs.GraphLaws.{GraphIsShown};
ghost use Rattle.book_laws.specs.NameLaws.{NamesAreListed};
ghost use Rattle.book_laws.specs.PastJobs.{KeptRemain, OneListRemains};
ghost use Rattle.book_laws.specs.TextBounds.{WatchLinesAreToldByText};

use session_rules::KeptTrace;
use trace_graph::laws::renamed_graph_is_the_same;
use trace_types::laws::{
    names_are_totally_ordered, numbering_is_one_to_one, renamed_trace_refutes_alike,
};
use trace_types::{NameText, NamedSegment, NamedTrace, Segment, Text};

/// A day is dropped from the book and from the kept traces alike.
pub fn drop_shows()
    ensures { DropShows }
{}

/// The last days of the book have the kept traces of the last days.
pub fn newest_show()
    ensures { NewestShow }
{}

/// A book with the sheets of more traces has the kept traces with these taken in, and as many days.
pub fn sheets_show()
    ensures shown { SheetsShow }
    ensures counted { DaysAreCounted }
{}

/// Traces keep their numbers in a catalogue that grows.
pub fn grown_shows()
    ensures { GrownShows }
{}

/// The graph of a trace by numbers is that of the kept trace.
pub fn graph_is_shown()
    ensures { GraphIsShown }
{
    numbering_is_one_to_one::<NameText>();
    numbering_is_one_to_one::<Text>();
    renamed_graph_is_the_same::<
        NamedTrace,
        NamedSegment,
        u32,
        u32,
        u32,
        KeptTrace,
        Segment,
        NameText,
        Text,
        Text,
    >();
}

/// The names of kept traces can be listed in name order.
pub fn names_are_listed()
    ensures { NamesAreListed }
{
    names_are_totally_ordered::<NameText>();
}

/// Whatever jobs a session carries out from its start, its kept traces are those that remain of all
/// that the jobs took: a filter, by the jobs that come later.
pub fn kept_traces_remain()
    ensures { KeptRemain }
{}

/// The same jobs leave one list of traces.
pub fn one_list_remains()
    ensures { OneListRemains }
{}

/// Watch lines of traces by number are watch lines of the kept traces that these are.
pub fn watch_lines_are_told_by_text()
    ensures { WatchLinesAreToldByText }
{
    numbering_is_one_to_one::<NameText>();
    numbering_is_one_to_one::<Text>();
    renamed_trace_refutes_alike::<
        NamedTrace,
        NamedSegment,
        u32,
        u32,
        u32,
        KeptTrace,
        Segment,
        NameText,
        Text,
        Text,
    >();
}
