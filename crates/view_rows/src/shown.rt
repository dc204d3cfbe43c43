//! What is found by number is that of the kept traces by text, by laws of the crates below.
ghost use Rattle.view_rows.specs.inner.Shown.{FoundIsShown};
ghost use Rattle.view_rows.specs.inner.ShownForecasts.{ForecastIsShown};
ghost use Rattle.view_rows.specs.inner.ShownPaths.{PathsAreShown};
ghost use Rattle.view_rows.specs.inner.ShownReports.{NamesAreBelow, ReportIsShown, TailIsShown};

use judged_books::laws::{judged_graph_is_shown, judged_words_tell};
use trace_types::laws::{
    a_list_is_told_in_one_way, names_are_totally_ordered, numbering_is_one_to_one,
};
use trace_types::{NameText, Text};

/// What is found of a judged book by number are the figures of its given digest and of the kept
/// traces that it shows.
pub(crate) fn found_is_shown()
    ensures { FoundIsShown }
{
    // For the proof alone.
    judged_words_tell();
    numbering_is_one_to_one::<NameText>();
    numbering_is_one_to_one::<Text>();
}

/// The critical paths of a book's traces show those of the kept traces.
pub(crate) fn paths_are_shown()
    ensures { PathsAreShown }
{
    // For the proof alone.
    judged_graph_is_shown();
    numbering_is_one_to_one::<NameText>();
}

/// The report on a book's traces gives the texts of the report on the kept traces.
pub(crate) fn report_is_shown()
    ensures { ReportIsShown }
{
    paths_are_shown();
    // For the proof alone.
    numbering_is_one_to_one::<NameText>();
    names_are_totally_ordered::<NameText>();
    a_list_is_told_in_one_way::<NameText>();
}

/// The report on the slowest of a book's traces gives the texts of that on the kept traces.
pub(crate) fn tail_is_shown()
    ensures { TailIsShown }
{
    paths_are_shown();
    // For the proof alone.
    numbering_is_one_to_one::<NameText>();
    names_are_totally_ordered::<NameText>();
    a_list_is_told_in_one_way::<NameText>();
}

/// The names of a book's traces are below its number of names.
pub(crate) fn names_are_below()
    ensures { NamesAreBelow }
{}

/// The forecast of a trace by number is that of the kept trace.
pub(crate) fn forecast_is_shown()
    ensures { ForecastIsShown }
{
    // For the proof alone.
    judged_graph_is_shown();
    numbering_is_one_to_one::<NameText>();
}
