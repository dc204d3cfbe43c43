/// The name number of an empty slot: no name has it.
pub(crate) const NO_NAME: u16 = 512;

/// The three numbers that stand for a name in the texts of a batch, and what a catalogue has for
/// the name.
#[derive(Clone, Copy)]
pub(crate) struct Slot {
    /// The number of its task among the tasks of the batch.
    pub task: u32,
    /// The number of its start event among the event names of the batch.
    pub start_event: u32,
    /// The number of its end event among them.
    pub end_event: u32,
    /// The number of the name in the catalogue, or `NO_NAME` where the slot is empty.
    pub name: u16,
    /// The number of the task in the catalogue.
    pub known_task: u8,
    /// Whether the name of the start event gives a data element.
    pub has_element: bool,
}

/// An empty slot.
pub(crate) const EMPTY: Slot = Slot {
    task: 0,
    start_event: 0,
    end_event: 0,
    name: NO_NAME,
    known_task: 0,
    has_element: false,
};
