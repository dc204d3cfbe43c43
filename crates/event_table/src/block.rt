ghost use Rattle.std.specs.Prelude.{length};
ghost use Rattle.event_table.specs.inner.Cuts.{AreStops, AreStops-prop};

use crate::event_numbers::EventNumbers;

/// Events in groups that stand one after another, and where each group ends.
#[derive(Drop)]
pub(crate) struct Block {
    pub(crate) events: Vec<EventNumbers>,
    pub(crate) ends: Vec<u32>,
    ghost cut: { AreStops 0 ends.items (length events.items) } by { AreStops-prop 0 ends.items (length events.items) },
}
