ghost use Rattle.std.specs.Prelude.{All, length};
ghost use Rattle.event_table.specs.inner.PartNumbers.{AreOfPart};

use crate::event_numbers::EventNumbers;

/// The numbers that the texts of a part have in the whole tables.
#[derive(Drop)]
pub(crate) struct TextNumbers {
    pub(crate) requests: Vec<u32>,
    pub(crate) machines: Vec<u32>,
    pub(crate) tasks: Vec<u32>,
    pub(crate) names: Vec<u32>,
}

/// The events of a part, and what their numbers and places are in the whole tables and lists.
#[derive(Drop)]
pub(crate) struct NumberedPart {
    pub(crate) numbers: TextNumbers,
    /// How many messages the parts before this one sent.
    pub(crate) sends: u32,
    /// How many messages they received.
    pub(crate) receipts: u32,
    /// The events, by the part's own numbers.
    pub(crate) events: Vec<EventNumbers>,
    ghost own: { All (AreOfPart (length numbers.requests.items) (length numbers.machines.items)
        (length numbers.tasks.items) (length numbers.names.items) sends receipts) events.items },
}
