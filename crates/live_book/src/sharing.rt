ghost use Rattle.std.specs.Prelude.{◌≡◌, ◌≤◌};
ghost use Rattle.live_book.specs.Callers.{IsOfBook, SplitsOff, TakesIn};

use crate::callers::Caller;
use crate::live_book::LiveBook;
use crate::single_steps::{join_seats, split_turns, tell};
use std::marker::Brand;

impl LiveBook {
    /// Makes a new caller with so many of the caller's turns and the same front. It takes no memory
    /// and does not wait.
    pub fn split(&self, caller: &mut Caller, turns: u64) -> Caller
        requires book { IsOfBook self.now caller.old }
        requires most { turns ≤ caller.old.turns }
        ensures { SplitsOff turns caller.old caller.new result }
    {
        let seat = split_turns::<Brand>(&self.table.shared, &mut caller.seat, turns);
        caller.turns -= turns;
        Caller { seat, turns }
    }

    /// Takes in another caller: its turns add up, its positions follow the caller's, and the front
    /// is the longer of the two. It takes no memory and does not wait.
    pub fn join(&self, caller: &mut Caller, other: Caller)
        requires caller { IsOfBook self.now caller.old }
        requires other { IsOfBook self.now other }
        ensures { TakesIn caller.old other caller.new }
    {
        let Caller { seat, turns } = other;
        join_seats(&self.table.shared, &mut caller.seat, seat);
        tell(&self.table.shared, &mut caller.seat);
        caller.turns += turns;
    }
}
