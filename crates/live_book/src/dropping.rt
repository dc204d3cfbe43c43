ghost use Rattle.std.specs.Prelude.{◌≡◌, ◌<◌, IfErr, IfOk};
ghost use Rattle.live_journal.specs.declared.entry.Entry.TheVariants.{Dropped, Kept};
ghost use Rattle.live_journal.specs.Faults.{IsDeedFault};
ghost use Rattle.live_journal.specs.Replays.{dropped_by};
ghost use Rattle.live_book.specs.Callers.{AddsEntry, AddsNothing, HasTurn, IsOfBook, all_but_last};

use crate::callers::Caller;
use crate::live_book::LiveBook;
use crate::turns::{begin_turn, commit_turn, end_turn};
use live_journal::DeedFault;
use std::sync::Wait;

impl LiveBook {
    /// Waits for a turn and drops a day with all its traces. It answers how many there were.
    pub fn drop_day<R: Wait>(&self, rt: &R, caller: &mut Caller, day: u32) -> Result<u32, DeedFault>
        requires book { IsOfBook self.now caller.old }
        requires turn { 0 < caller.old.turns }
        ensures turn { HasTurn caller.old caller.new }
        ensures added { IfOk result (λ _. AddsEntry (Dropped day) caller.old caller.new) }
        ensures count { IfOk result
            (λ n. n ≡ dropped_by (all_but_last caller.new.front) (Dropped day)) }
        ensures nothing { IfErr result (λ _. AddsNothing caller.old caller.new) }
        ensures fault { IfErr result (IsDeedFault caller.new.front) }
    {
        caller.turns -= 1;
        let mut book = begin_turn(rt, &self.table.shared, &mut caller.seat);
        match book.drop_day(day) {
            Ok(dropped) => {
                commit_turn(&self.table.shared, &mut caller.seat, book);
                Ok(dropped)
            }
            Err(fault) => {
                end_turn(&self.table.shared, &mut caller.seat, book);
                Err(fault)
            }
        }
    }

    /// Waits for a turn and drops all days but so many of the newest. It answers how many traces
    /// they had.
    pub fn keep_newest<R: Wait>(
        &self,
        rt: &R,
        caller: &mut Caller,
        days: u32,
    ) -> Result<u32, DeedFault>
        requires book { IsOfBook self.now caller.old }
        requires turn { 0 < caller.old.turns }
        ensures turn { HasTurn caller.old caller.new }
        ensures added { IfOk result (λ _. AddsEntry (Kept days) caller.old caller.new) }
        ensures count { IfOk result
            (λ n. n ≡ dropped_by (all_but_last caller.new.front) (Kept days)) }
        ensures nothing { IfErr result (λ _. AddsNothing caller.old caller.new) }
        ensures fault { IfErr result (IsDeedFault caller.new.front) }
    {
        caller.turns -= 1;
        let mut book = begin_turn(rt, &self.table.shared, &mut caller.seat);
        match book.keep_newest(days) {
            Ok(dropped) => {
                commit_turn(&self.table.shared, &mut caller.seat, book);
                Ok(dropped)
            }
            Err(fault) => {
                end_turn(&self.table.shared, &mut caller.seat, book);
                Err(fault)
            }
        }
    }
}
