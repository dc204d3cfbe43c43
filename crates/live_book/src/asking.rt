ghost use Rattle.std.specs.Prelude.{◌≡◌, ◌<◌, length};
ghost use Rattle.hypothesis_index.specs.Places.{width_of};
ghost use Rattle.refute_tests.specs.Survivors.{AreSurvivors};
ghost use Rattle.day_partitions.specs.Books.{all_traces};
ghost use Rattle.live_journal.specs.Replays.{replay};
ghost use Rattle.live_book.specs.Callers.{AddsNothing, HasTurn, IsOfBook};

use crate::callers::Caller;
use crate::live_book::LiveBook;
use crate::turns::{begin_turn, end_turn};
use std::sync::Wait;

impl LiveBook {
    /// Waits for a turn and writes the words: a bit is 1 exactly where it is not the place of a
    /// relation that some trace refutes which the replay of the caller's front then keeps. It takes
    /// no memory.
    pub fn ask<R: Wait>(&self, rt: &R, caller: &mut Caller, into: &mut [u64])
        requires book { IsOfBook self.now caller.old }
        requires turn { 0 < caller.old.turns }
        requires width { length into.old ≡ width_of self.now.names }
        ensures turn { HasTurn caller.old caller.new }
        ensures nothing { AddsNothing caller.old caller.new }
        ensures survivors { AreSurvivors (all_traces (replay caller.new.front)) into.new }
        ensures width { length into.new ≡ width_of self.now.names }
    {
        caller.turns -= 1;
        let book = begin_turn(rt, &self.table.shared, &mut caller.seat);
        into.copy_from_slice(book.words());
        end_turn(&self.table.shared, &mut caller.seat, book);
    }
}
