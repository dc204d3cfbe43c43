//! Laws over the definitions alone: each function does nothing, and its contract is the law.
ghost use Rattle.model_meet.specs.CountLaws.{CountsAreOne, NoLineIsLeftOut, NumbersAreOrdered};
ghost use Rattle.model_meet.specs.Telling.{WordsTell};

use hypothesis_index::laws::{places_differ, places_fit};
use trace_types::laws::a_list_is_told_in_one_way;

/// The words of the survivors of a list of traces tell of every relation between their names, and
/// between tasks, whether it survives.
pub fn words_tell()
    ensures { WordsTell }
{
    places_differ();
    places_fit();
}

/// Where the traces have no name and no task at or above the bounds, the numbers below the bounds
/// are those of all lines.
pub fn no_line_is_left_out()
    ensures { NoLineIsLeftOut }
{}

/// Numbers are in one order, so exclusions can be counted with the lesser number first.
pub fn numbers_are_ordered()
    ensures { NumbersAreOrdered }
{}

/// Traces have one number of lines of each kind.
pub fn counts_are_one()
    ensures { CountsAreOne }
{
    numbers_are_ordered();
    a_list_is_told_in_one_way::<(u32, u32)>();
}
