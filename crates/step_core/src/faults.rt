ghost use Rattle.std.specs.Prelude.{◌≡◌, Option, Some, None, if◌then◌else◌};
ghost use Rattle.std.specs.Option.{option_map};
ghost use Rattle.word_rows.specs.Rows.{below};
ghost use Rattle.word_rows.specs.Machine.{fault_of, first_past as first_past_width};
ghost use Rattle.step_core.specs.inner.Naming.{step_fault as named};

use crate::StepFault;
use crate::tables::Tables;
use word_rows::{Entry, Row, StepEvent};

/// The first word of the row that is not below the width.
fn first_past(entries: &[Entry], width: u32) -> Option<u32>
    ensures { result ≡ (if below width entries.now then None
        else Some (first_past_width width entries.now)) }
{
    'entries: for entry in entries {
        if entry.word >= width {
            return Some(entry.word);
        }
    }
    None
}

impl Tables {
    /// The first fault of a clear.
    fn clear_fault(&self, seat: u32, row: &Row) -> Option<StepFault>
        ensures { result ≡ option_map named (fault_of self.now (StepEvent.Clear seat row.now)) }
    {
        let Some(view) = self.live_seat(seat) else {
            return Some(StepFault::NoSeat { seat });
        };
        if !view.can_clear(row) {
            return Some(StepFault::RowOpen { seat });
        }
        if view.shares() == 0 {
            return Some(StepFault::BadShare { have: 0, asked: 1 });
        }
        let width = self.width;
        match first_past(row.entries(), width) {
            Some(word) => Some(StepFault::BadWord { word, width }),
            None => None,
        }
    }

    /// The first fault of a load.
    fn load_fault(&self, seat: u32, word: u32) -> Option<StepFault>
        ensures { result ≡ option_map named (fault_of self.now (StepEvent.Load seat word)) }
    {
        let Some(view) = self.live_seat(seat) else {
            return Some(StepFault::NoSeat { seat });
        };
        if !view.is_idle() {
            return Some(StepFault::RowOpen { seat });
        }
        let width = self.width;
        if word >= width {
            return Some(StepFault::BadWord { word, width });
        }
        None
    }

    /// The first fault of a split.
    fn split_fault(&self, seat: u32, shares: u32) -> Option<StepFault>
        ensures { result ≡ option_map named (fault_of self.now (StepEvent.Split seat shares)) }
    {
        let Some(view) = self.live_seat(seat) else {
            return Some(StepFault::NoSeat { seat });
        };
        let have = view.shares();
        if !view.is_idle() {
            return Some(StepFault::RowOpen { seat });
        }
        if shares >= have {
            return Some(StepFault::BadShare {
                have,
                asked: shares,
            });
        }
        None
    }

    /// The first fault of a join.
    fn join_fault(&self, seat: u32, other: u32) -> Option<StepFault>
        ensures { result ≡ option_map named (fault_of self.now (StepEvent.Join seat other)) }
    {
        let Some(view) = self.live_seat(seat) else {
            return Some(StepFault::NoSeat { seat });
        };
        if seat == other {
            return Some(StepFault::NoSeat { seat: other });
        }
        let Some(other_view) = self.live_seat(other) else {
            return Some(StepFault::NoSeat { seat: other });
        };
        if !view.is_idle() {
            return Some(StepFault::RowOpen { seat });
        }
        if !other_view.is_idle() {
            return Some(StepFault::RowOpen { seat: other });
        }
        None
    }

    /// The first fault of a close.
    fn close_fault(&self, seat: u32) -> Option<StepFault>
        ensures { result ≡ option_map named (fault_of self.now (StepEvent.Close seat)) }
    {
        let Some(view) = self.live_seat(seat) else {
            return Some(StepFault::NoSeat { seat });
        };
        if !view.is_idle() {
            return Some(StepFault::RowOpen { seat });
        }
        let (have, all) = (view.shares(), self.all);
        if have < all {
            return Some(StepFault::SharesOut { have, all });
        }
        None
    }

    /// The first fault of an event, in this order: no seat, a row open, a bad share, a bad word,
    /// shares out.
    pub(crate) fn fault(&self, event: &StepEvent) -> Option<StepFault>
        ensures { result ≡ option_map named (fault_of self.now event.now) }
    {
        match event {
            StepEvent::Clear { seat, row } => self.clear_fault(*seat, row),
            StepEvent::Load { seat, word } => self.load_fault(*seat, *word),
            StepEvent::Split { seat, shares } => self.split_fault(*seat, *shares),
            StepEvent::Join { seat, other } => self.join_fault(*seat, *other),
            StepEvent::Close { seat } => self.close_fault(*seat),
        }
    }
}
