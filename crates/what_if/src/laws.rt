//! Laws over the definitions alone: each function does nothing, and its contract is the law.
ghost use Rattle.what_if.specs.ForecastLaws.{ChangesRaiseNoWeight, GraphHasSegments, LosesNoMore};
ghost use Rattle.what_if.specs.ForecastLaws.{SlackLosesNothing};

/// The graph of a trace has its segments, as `predict` asks.
pub fn graph_has_segments()
    ensures { GraphHasSegments }
{}

/// Changes make no weight greater.
pub fn changes_raise_no_weight()
    ensures { ChangesRaiseNoWeight }
{}

/// With weights that are not greater the longest length is not greater, and it is less by at most
/// what all weights lose.
pub fn loses_no_more()
    ensures { LosesNoMore }
{}

/// Where one vertex alone may have a lesser weight, and its slack is above 0, the longest length stays.
pub fn slack_loses_nothing()
    ensures { SlackLosesNothing }
{}
