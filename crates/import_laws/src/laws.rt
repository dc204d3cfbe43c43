//! Laws over the definitions alone: each function does nothing, and its contract is the law.
ghost use Rattle.import_laws.specs.Laws.{AllElseStays, NamesOfPiecesDiffer, NothingWaits};

/// Two pieces of tasks have one name only if they are one piece of one task.
pub fn names_of_pieces_differ()
    ensures { NamesOfPiecesDiffer }
{}

/// Of the lines without waits no event ends a wait.
pub fn nothing_waits()
    ensures { NothingWaits }
{}

/// There are as many lines as before, in the same order, and all but the tasks of events stays.
pub fn all_else_stays()
    ensures { AllElseStays }
{}
