//! What follows from the definitions alone. Each law is the contract of a function that does
//! nothing.
ghost use Rattle.live_book.specs.Laws.{FrontsAgree, LaterFindsMore, OneIsInTurn};
ghost use Rattle.live_book.specs.Laws.{PositionsDiffer, PositionsStand, TicketsDiffer, TurnsAgree};

/// Between any two atomic steps of any threads, of any two fronts one is a prefix of the other, no
/// two callers hold one ticket or are in their turn, no two have one position, none stands past the
/// entries, and the turns of any two are of one history.
pub fn rule_says()
    ensures fronts { FrontsAgree }
    ensures tickets { TicketsDiffer }
    ensures turn { OneIsInTurn }
    ensures positions { PositionsDiffer }
    ensures stand { PositionsStand }
    ensures turns { TurnsAgree }
{}

/// Of two turns of one history the later found all that the earlier left.
pub fn later_finds_more()
    ensures { LaterFindsMore }
{}
