ghost use Rattle.std.specs.Prelude.{◌↔◌, IsTrue};
ghost use Rattle.trace_types.specs.EventLines.{LinesRise};

use trace_types::Event;

/// Tells whether each event has a greater line than the one before it, as a batch of events
/// requires.
pub fn lines_rise(events: &[Event]) -> bool
    ensures { IsTrue result ↔ LinesRise events.now }
{
    for index in 1..events.len() {
        if events[index].line <= events[index - 1].line {
            return false;
        }
    }
    true
}
