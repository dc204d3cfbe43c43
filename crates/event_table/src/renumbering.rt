ghost use Rattle.std.specs.Prelude.{◌≡◌, ◌<◌, length, slice_index};
ghost use Rattle.event_table.specs.inner.PartNumbers.{IsPlaceAfter};
ghost use Rattle.event_table.specs.inner.Renumbering.{IsOwn, place_after, renumbered};

use crate::event_numbers::{EventNumbers, NO_MESSAGE};
use crate::numbered_part::NumberedPart;

/// Gives the place of a message after so many earlier ones.
fn place_message(earlier: u32, place: u32) -> u32
    requires { IsPlaceAfter earlier place }
    ensures { result ≡ place_after earlier place }
{
    if place == NO_MESSAGE {
        NO_MESSAGE
    } else {
        earlier + place
    }
}

impl NumberedPart {
    /// Gives the number in the whole table of an event's request.
    pub(crate) fn request(&self, event: &EventNumbers) -> u32
        requires { event.now.request < length self.now.numbers.requests.items }
        ensures { result ≡ slice_index self.now.numbers.requests.items event.now.request }
    {
        self.numbers.requests[event.request as usize]
    }

    /// Gives an event under the numbers of the whole tables.
    pub(crate) fn renumber(&self, event: &EventNumbers) -> EventNumbers
        requires { IsOwn self.now event.now }
        ensures { result ≡ renumbered self.now event.now }
    {
        EventNumbers {
            time: event.time,
            line: event.line,
            request: self.numbers.requests[event.request as usize],
            machine: self.numbers.machines[event.machine as usize],
            task: self.numbers.tasks[event.task as usize],
            event: self.numbers.names[event.event as usize],
            send: place_message(self.sends, event.send),
            recv: place_message(self.receipts, event.recv),
        }
    }
}
