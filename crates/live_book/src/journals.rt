ghost use Rattle.std.specs.Prelude.{◌≡◌, ◌<◌, drop, IfOk};
ghost use Rattle.live_book.specs.Callers.{AddsNothing, HasTurn, IsOfBook};

use crate::callers::Caller;
use crate::live_book::LiveBook;
use crate::turns::{begin_turn, end_turn};
use live_journal::Entry;
use std::alloc::AllocError;
use std::sync::Wait;

impl LiveBook {
    /// Waits for a turn and copies the journal from a position on: no entry where it is not longer.
    /// The only error is that memory ran out.
    pub fn journal<R: Wait>(
        &self,
        rt: &R,
        caller: &mut Caller,
        from: u32,
    ) -> Result<Vec<Entry>, AllocError>
        requires book { IsOfBook self.now caller.old }
        requires turn { 0 < caller.old.turns }
        ensures turn { HasTurn caller.old caller.new }
        ensures nothing { AddsNothing caller.old caller.new }
        ensures entries { IfOk result (λ entries. entries.items ≡ drop from caller.new.front) }
    {
        caller.turns -= 1;
        let book = begin_turn(rt, &self.table.shared, &mut caller.seat);
        let entries = book.copy_from(from);
        end_turn(&self.table.shared, &mut caller.seat, book);
        entries
    }
}
