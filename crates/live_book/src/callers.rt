use crate::single_steps::BookSeat;
use std::marker::Model;

/// One who may use a shared book, from one thread at a time. Contracts see of which book it is, the
/// calls that it may still make, the journal as far as it has seen it, the positions of its own
/// entries, and its turns so far. A caller that is dropped keeps its turns out: nobody can make
/// those calls.
#[derive(Drop)]
pub struct Caller {
    pub(crate) seat: BookSeat,
    pub(crate) turns: u64,
}

impl Model for Caller {
    ghost use Rattle.live_book.specs.Callers.{CallerState, caller_of};
    ghost use Rattle.live_book.specs.inner.Seats.{IsCaller};

    ghost Value = { CallerState };

    ghost view = { λ c. caller_of c.seat.table_id c.seat.me.0 };

    ghost invariant = { λ c. IsCaller c.turns c.seat.me };
}

impl Caller {
    ghost use Rattle.std.specs.Prelude.{◌≡◌};

    /// How many of the calls that wait the caller may still make.
    pub fn turns(&self) -> u64
        ensures { result ≡ self.now.turns }
    {
        self.turns
    }
}
