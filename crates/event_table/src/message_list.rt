ghost use Rattle.std.specs.Prelude.{◌≡◌, ◌+◌, ◌<◌, ◌≤◌, ◌++◌, ◌∷◌, [], ℕ, List, length, map};
ghost use Rattle.std.specs.Prelude.{IfOk, OnErr, OnOk, Some, slice_get, slice_index, slice_range};
ghost use Rattle.std.specs.Prelude.{option_copied};
ghost use Rattle.event_table.specs.inner.Cuts.{AreStops};
ghost use Rattle.event_table.specs.Numbers.{message_under, no_message};
ghost use Rattle.event_table.specs.inner.Tables.{IsPlace};

use crate::event_numbers::NO_MESSAGE;
use std::alloc::{AllocError, Global};
use std::marker::Model;

/// Messages in the order in which they came, equal ones are kept apart; seen as the list of their
/// bytes. All bytes stand in one piece of memory, one message after another.
#[derive(Drop)]
pub struct MessageList {
    bytes: Vec<u8>,
    ends: Vec<usize>,
}

impl Model for MessageList {
    ghost use Rattle.std.specs.Prelude.{List, ℕ, length};
    ghost use Rattle.event_table.specs.inner.Cuts.{AreStops, cut_at};

    ghost Value = { List (List ℕ) };

    ghost view = { λ m. cut_at 0 m.ends.items m.bytes.items };

    ghost invariant = { λ m. AreStops 0 m.ends.items (length m.bytes.items) };
}

/// Lends the bytes from one index up to another.
fn bytes_between(bytes: &[u8], start: usize, end: usize) -> &[u8]
    requires rising { start ≤ end }
    requires within { end ≤ length bytes.now }
    ensures { result.now ≡ slice_range bytes.now start end }
{
    &bytes[start..end]
}

/// Gives where the message at this place starts: where the one before it ends.
fn start_of(ends: &[usize], place: usize) -> usize
    requires { place < length ends.now }
    ensures { result ≡ slice_index (0 ∷ ends.now) place }
{
    if place == 0 { 0 } else { ends[place - 1] }
}

/// Lends the message at this place.
fn message_at<'a>(bytes: &'a [u8], ends: &[usize], place: usize) -> &'a [u8]
    requires within { place < length ends.now }
    requires stops { AreStops 0 ends.now (length bytes.now) }
    ensures { result.now
        ≡ slice_range bytes.now (slice_index (0 ∷ ends.now) place) (slice_index ends.now place) }
{
    let start = start_of(ends, place);
    bytes_between(bytes, start, ends[place])
}

/// Appends bytes, and their ends after those that were there. After an error both lists may have
/// more than before.
fn append_parts(
    bytes: &mut Vec<u8>,
    ends: &mut Vec<usize>,
    later_bytes: &[u8],
    later_ends: &[usize],
) -> Result<(), AllocError>
    requires { AreStops 0 later_ends.now (length later_bytes.now) }
    ensures bytes { OnOk result (bytes.new.items ≡ bytes.old.items ++ later_bytes.now) }
    ensures ends { OnOk result (ends.new.items
        ≡ ends.old.items ++ map (λ end. length bytes.old.items + end) later_ends.now) }
    ensures bytes_kept { OnErr result ((more : List ℕ)
        × (bytes.new.items ≡ bytes.old.items ++ more)) }
    ensures ends_kept { OnErr result ((more : List ℕ) × (ends.new.items ≡ ends.old.items ++ more)) }
{
    let offset = bytes.len();
    bytes.extend_from_slice(later_bytes)?;
    ends.reserve(later_ends.len())?;
    for end in later_ends {
        ends.push(offset + *end)?;
    }
    Ok(())
}

impl MessageList {
    /// Makes an empty list. Takes no memory.
    pub(crate) fn new(alloc: Global) -> MessageList
        ensures { result ≡ [] }
    {
        MessageList {
            bytes: Vec::new(alloc),
            ends: Vec::new(alloc),
        }
    }

    /// Counts the messages.
    pub(crate) fn len(&self) -> usize
        ensures { result ≡ length self.now }
    {
        self.ends.len()
    }

    /// Lends the message at this place.
    pub(crate) fn get(&self, place: u32) -> &[u8]
        requires { place < length self.now }
        ensures { slice_get self.now place ≡ Some result.now }
    {
        message_at(&self.bytes, &self.ends, place as usize)
    }

    /// Lends the message at this place, if it is the place of one.
    pub(crate) fn message(&self, place: u32) -> Option<&[u8]>
        requires { IsPlace (length self.now) place }
        ensures { option_copied result ≡ message_under self.now place }
    {
        if place == NO_MESSAGE {
            return None;
        }
        Some(self.get(place))
    }

    /// Appends a message and gives its place. The only error is out of memory, and it changes
    /// nothing.
    pub(crate) fn push(&mut self, message: &str) -> Result<u32, AllocError>
        requires { length self.old < no_message }
        ensures messages { OnOk result (self.new ≡ self.old ++ message.now ∷ []) }
        ensures place { IfOk result (λ place. place ≡ length self.old) }
        ensures error { OnErr result (self.new ≡ self.old) }
    {
        let place = self.ends.len() as u32;
        let size = self.bytes.len();
        self.bytes.extend_from_slice(message.as_bytes())?;
        match self.ends.push(self.bytes.len()) {
            Ok(()) => Ok(place),
            Err(_) => {
                self.bytes.truncate(size);
                Err(AllocError)
            }
        }
    }

    /// Appends later messages: the place of each is the number of those that were there before, and
    /// its own. The only error is out of memory, and it changes nothing.
    pub(crate) fn append(&mut self, later: MessageList) -> Result<(), AllocError>
        ensures messages { OnOk result (self.new ≡ self.old ++ later) }
        ensures error { OnErr result (self.new ≡ self.old) }
    {
        if self.ends.is_empty() {
            *self = later;
            return Ok(());
        }
        let count = self.ends.len();
        let size = self.bytes.len();
        match append_parts(&mut self.bytes, &mut self.ends, &later.bytes, &later.ends) {
            Ok(()) => Ok(()),
            Err(error) => {
                self.bytes.truncate(size);
                self.ends.truncate(count);
                Err(error)
            }
        }
    }
}
