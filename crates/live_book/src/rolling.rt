ghost use Rattle.std.specs.Prelude.{◌≡◌, ◌+◌, ◌<◌, ◌≤◌, length, IfErr, IfOk, OnErr};
ghost use Rattle.day_partitions.specs.Books.{IsSheetOf};
ghost use Rattle.live_journal.specs.declared.entry.Entry.TheVariants.{Rolled};
ghost use Rattle.live_journal.specs.Faults.{IsOneTooMany, IsRollFault};
ghost use Rattle.live_journal.specs.Replays.{replay};
ghost use Rattle.live_book.specs.Callers.{AddsEntry, AddsNothing, HasTurn, IsOfBook, all_but_last};

use crate::callers::Caller;
use crate::live_book::LiveBook;
use crate::turns::{begin_turn, commit_turn, end_turn};
use live_journal::RollFault;
use pipeline_tests::DaySheet;
use std::sync::Wait;

impl LiveBook {
    /// Waits for a turn and rolls the sheet of a day into the book. It answers the position of the
    /// new entry, the last of the caller's front.
    pub fn roll<R: Wait>(
        &self,
        rt: &R,
        caller: &mut Caller,
        day: u32,
        sheet: DaySheet,
    ) -> Result<u32, RollFault>
        requires book { IsOfBook self.now caller.old }
        requires turn { 0 < caller.old.turns }
        requires sheet { IsSheetOf self.now.names day sheet }
        requires most { length sheet.traces ≤ 429496 }
        ensures turn { HasTurn caller.old caller.new }
        ensures added { IfOk result
            (λ _. AddsEntry (Rolled day sheet.traces) caller.old caller.new) }
        ensures position { IfOk result
            (λ position. position ≡ length (all_but_last caller.new.front)) }
        ensures fits { IfOk result
            (λ _. IsOneTooMany (replay (all_but_last caller.new.front)) day → ⊥) }
        ensures nothing { IfErr result (λ _. AddsNothing caller.old caller.new) }
        ensures fault { IfErr result (IsRollFault caller.new.front day sheet) }
    {
        caller.turns -= 1;
        let mut book = begin_turn(rt, &self.table.shared, &mut caller.seat);
        match book.roll(day, sheet) {
            Ok(position) => {
                commit_turn(&self.table.shared, &mut caller.seat, book);
                Ok(position)
            }
            Err(fault) => {
                end_turn(&self.table.shared, &mut caller.seat, book);
                Err(fault)
            }
        }
    }
}
