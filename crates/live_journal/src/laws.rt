//! What follows from the definitions alone. Each law is the contract of a function that does
//! nothing.
ghost use Rattle.live_journal.specs.Replays.{ReplayIsKept};

use day_partitions::laws::{calls_keep, nothing_is_kept};

/// The days of a replay have exactly the traces that are kept by the definition of a book of days:
/// a filter of all that were ever taken.
pub fn replay_is_kept()
    ensures { ReplayIsKept }
{
    nothing_is_kept();
    calls_keep();
}
