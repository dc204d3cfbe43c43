//! What follows from the definitions alone. Each law is the contract of a function that does
//! nothing.
ghost use Rattle.day_partitions.specs.Kept.{CallsKeep, NothingIsKept, OneListIsKept};
ghost use Rattle.day_partitions.specs.Meets.{FewAreMet};

/// Before the first command no trace is kept.
pub fn nothing_is_kept()
    ensures { NothingIsKept }
{}

/// After an add, a drop or a keep the days of a book have exactly the traces that are kept by the
/// definition: a filter of all that were ever taken.
pub fn calls_keep()
    ensures { CallsKeep }
{}

/// The definition leaves one list of days.
pub fn one_list_is_kept()
    ensures { OneListIsKept }
{}

/// A counted add meets at most seven rows, a counted drop at most six.
pub fn few_are_met()
    ensures { FewAreMet }
{}
