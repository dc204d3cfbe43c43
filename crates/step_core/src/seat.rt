use std::alloc::{AllocError, Global};
use std::marker::Model;
use word_rows::{Entry, Row};

/// What a seat keeps: its shares, its row in progress and how many entries of it are cleared.
/// Contracts see it as a view whose other lists are empty.
#[derive(Drop)]
pub(crate) struct Seat {
    shares: u32,
    row: Vec<Entry>,
    cleared: usize,
}

impl Model for Seat {
    ghost use Rattle.std.specs.Prelude.{[]};
    ghost use Rattle.word_rows.specs.declared.views.View.{View};

    ghost Value = { View };

    ghost view = { λ s. record {
      all = 0;
      shares = s.shares;
      done = [];
      row = s.row.items;
      cleared = s.cleared;
      seen = [];
      readings = [];
    } };
}

impl Seat {
    ghost use Rattle.std.specs.Prelude.{◌≡◌, ◌+◌, ◌<◌, length, IfOk};
    ghost use Rattle.word_rows.specs.Changes.{empty_view, is_idle, next_view};
    ghost use Rattle.word_rows.specs.Machine.{can_clear};
    ghost use Rattle.step_core.specs.inner.Briefs.{brief_view};

    /// Makes a seat with these shares and no row in progress. It takes no memory.
    pub(crate) fn new(alloc: Global, shares: u32) -> Seat
        ensures { result ≡ record empty_view { shares = shares } }
    {
        Seat {
            shares,
            row: Vec::new(alloc),
            cleared: 0,
        }
    }

    /// The shares of the seat.
    pub(crate) fn shares(&self) -> u32
        ensures { result ≡ self.now.shares }
    {
        self.shares
    }

    /// Changes the shares of the seat.
    pub(crate) fn set_shares(&mut self, shares: u32)
        ensures { self.new ≡ record self.old { shares = shares } }
    {
        self.shares = shares;
    }

    /// How many entries of the row in progress are cleared.
    pub(crate) fn cleared(&self) -> usize
        ensures { result ≡ self.now.cleared }
    {
        self.cleared
    }

    /// Tests whether no row is in progress.
    pub(crate) fn is_idle(&self) -> bool
        ensures { result ≡ is_idle self.now }
    {
        self.row.is_empty() && self.cleared == 0
    }

    /// Tests whether no row is in progress, or this one is.
    pub(crate) fn can_clear(&self, row: &Row) -> bool
        ensures { result ≡ can_clear self.now row.now }
    {
        self.is_idle() || self.row.as_slice() == row.entries()
    }

    /// Makes the seat as it is once the next entry of the row is cleared. The only error is that
    /// memory ran out.
    pub(crate) fn with_cleared(&self, alloc: Global, row: &Row) -> Result<Seat, AllocError>
        requires { self.now.cleared < length row.now }
        ensures { IfOk result (λ s. s ≡ brief_view (next_view self.now row.now)) }
    {
        let entries = row.entries();
        let count = entries.len();
        let cleared = self.cleared + 1;
        if cleared == count {
            return Ok(Seat::new(alloc, self.shares));
        }
        Ok(Seat {
            shares: self.shares,
            row: Vec::from_slice(alloc, entries)?,
            cleared,
        })
    }
}
