use crate::rule::Knowledge;
use atomic_table::Seat;
use std::marker::Model;

/// A seat at a table with at least one share, which may offer rows and read. Contracts see its
/// table, its view and the pasts that it knows. Dropping a pass does not return its shares, so the
/// table can then not be closed.
#[derive(Drop)]
pub struct Pass {
    pub(crate) seat: Seat<(), Knowledge>,
    pub(crate) shares: u32,
}

impl Model for Pass {
    ghost use Rattle.word_rule.specs.Holdings.{Holding};
    ghost use Rattle.word_rule.specs.inner.Keeping.{IsPass};

    ghost Value = { Holding };

    ghost view = { λ p. record {
      table_id = p.seat.table_id;
      view = p.seat.me.0.view;
      pasts = p.seat.me.0.pasts;
    } };

    ghost invariant = { λ p. IsPass p.shares p.seat.me };
}

impl Pass {
    ghost use Rattle.std.specs.Prelude.{◌≡◌, ◌<◌, IsTrue};
    ghost use Rattle.word_rows.specs.Changes.{is_idle};

    /// Tells the shares of this pass.
    pub fn shares(&self) -> u32
        ensures shares { result ≡ self.now.view.shares }
        ensures some { 0 < result }
        ensures rests { IsTrue (is_idle self.now.view) }
    {
        self.shares
    }
}
