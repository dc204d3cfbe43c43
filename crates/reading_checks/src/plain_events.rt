//! Events as plain numbers of texts, and the tables that are made of them.
use event_table::{EventFields, EventTable, TextHints, TextTable};
use std::alloc::{AllocError, Global};
use std::process::Abort;

/// Texts of many lengths. The last two have the same length, first bytes and last bytes, so that
/// they share a hint.
pub(crate) const TEXTS: [&str; 12] = [
    "",
    "a",
    "b",
    "seven77",
    "eight888",
    "sixteen_bytes_16",
    "seventeen_bytes_7",
    "a_text_of_thirty_bytes_0123456",
    "a_text_of_thirty_one_bytes_0123",
    "a_text_of_sixty_four_bytes_0123456789_0123456789_0123456789_0123",
    "the same start, 1, the same end",
    "the same start, 2, the same end",
];

/// Gives a text of the list.
pub(crate) fn text_of(at: usize) -> &'static str {
    TEXTS.get(at).copied().unwrap_or("")
}

/// Tells whether the number is that of the text.
pub(crate) fn is_number_of(texts: &TextTable, number: u32, text: &str) -> bool {
    (number as usize) < texts.len() && texts.text(number).as_str() == text
}

/// An event of the plain lists: its texts are indices of `TEXTS`, and its name is `name`.
#[derive(Clone, Copy)]
pub(crate) struct PlainEvent {
    pub(crate) line: u32,
    pub(crate) time: u64,
    pub(crate) request: usize,
    pub(crate) machine: usize,
    pub(crate) task: usize,
    pub(crate) send: Option<usize>,
    pub(crate) recv: Option<usize>,
}

/// Makes the table of these events.
pub(crate) fn table_of(
    rt: &impl Abort,
    alloc: Global,
    hints: &mut TextHints,
    events: &[PlainEvent],
) -> Result<EventTable, AllocError> {
    let mut table = EventTable::new(alloc);
    for event in events {
        assert!(rt; table.len() < 20_000);
        let fields = EventFields {
            request: text_of(event.request),
            machine: text_of(event.machine),
            task: text_of(event.task),
            event: "name",
            time: event.time,
            send: event.send.map(text_of),
            recv: event.recv.map(text_of),
        };
        table.push(alloc, hints, event.line, &fields)?;
    }
    Ok(table)
}

/// Tells whether this is the message.
pub(crate) fn is_message(message: Option<&[u8]>, text: Option<usize>) -> bool {
    match (message, text) {
        (Some(message), Some(text)) => message == text_of(text).as_bytes(),
        (None, None) => true,
        _ => false,
    }
}
