//! Laws over the definitions alone: each function does nothing, and its contract is the law.
ghost use Rattle.session.specs.AddLaws.{AddIsTold, AddLeadsOn, AddPassesDays, AddPassesTraces};
ghost use Rattle.session.specs.AddLaws.{NamesGrow, NoMoreAreSheeted, NoMoreAreValid};

use book_laws::laws::{grown_shows, sheets_show};
use judged_books::laws::grown_begins_alike;

/// A catalogue has no fewer names after traces are added.
pub fn names_grow()
    ensures { NamesGrow }
{}

/// A batch has no more valid traces than requests.
pub fn no_more_are_valid()
    ensures { NoMoreAreValid }
{}

/// The sheets of traces have no more traces than there are.
pub fn no_more_are_sheeted()
    ensures { NoMoreAreSheeted }
{}

/// An add of recorded sheets leads a session on as the definition of an add says.
pub fn add_leads_on()
    ensures { AddLeadsOn }
{
    grown_shows();
    sheets_show();
    grown_begins_alike();
}

/// Where there would be too many days, the add passes the limit of days.
pub fn add_passes_days()
    ensures { AddPassesDays }
{
    grown_shows();
    sheets_show();
}

/// Where there would be more traces than 64 bits count, the add passes the limit of traces.
pub fn add_passes_traces()
    ensures { AddPassesTraces }
{
    grown_shows();
    sheets_show();
}

/// The rows of the refused traces and the watch rows by day are a text of the parts of an add.
pub fn add_is_told()
    ensures { AddIsTold }
{}
