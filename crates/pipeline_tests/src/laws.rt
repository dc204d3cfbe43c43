//! Laws over the definitions alone: each function does nothing, and its contract is the law.
ghost use Rattle.pipeline_tests.specs.DayLaws.{CommonLacks, FullWordsSurvive};
ghost use Rattle.pipeline_tests.specs.DayLaws.{MetRowsSurvive, OrderOfTracesIsFree};
ghost use Rattle.pipeline_tests.specs.DayLaws.{RowsClearRefuted, SurvivorsAreUnique};
ghost use Rattle.pipeline_tests.specs.DayLaws.{WidenedLacks, WidenedSurvive};

use hypothesis_index::laws::places_fit;
use word_rows::laws::{meet_begins, meet_is_unique};

/// Whole rows of traces clear exactly the places of the relations that some of the traces refutes.
pub fn rows_clear_refuted()
    ensures { RowsClearRefuted }
{}

/// Full words met by one whole row of each trace are the survivors of the traces.
pub fn met_rows_survive()
    ensures { MetRowsSurvive }
{}

/// Full words are the survivors of no trace.
pub fn full_words_survive()
    ensures { FullWordsSurvive }
{}

/// What two lists of words have in common lacks exactly what the traces of either refute.
pub fn common_lacks()
    ensures { CommonLacks }
{}

/// The survivors of traces do not depend on their order.
pub fn order_of_traces_is_free()
    ensures { OrderOfTracesIsFree }
{}

/// Words that lack exactly what traces refute whose names fit the words still do when full words are
/// appended.
pub fn widened_lacks()
    ensures { WidenedLacks }
{
    places_fit();
}

/// Survivors of traces whose names fit the words stay survivors when full words are appended.
pub fn widened_survive()
    ensures { WidenedSurvive }
{
    places_fit();
}

/// Traces have one list of survivors of each width.
pub fn survivors_are_unique()
    ensures { SurvivorsAreUnique }
{
    meet_begins();
    meet_is_unique();
}
