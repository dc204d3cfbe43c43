use crate::seat::Seat;
use std::alloc::{AllocError, Global};
use std::marker::Model;

/// The words, and of each seat whether it is live, its shares and its row in progress. Contracts
/// see it as a state whose views are brief.
#[derive(Drop)]
pub(crate) struct Tables {
    pub(crate) words: Vec<u64>,
    pub(crate) width: u32,
    pub(crate) all: u32,
    pub(crate) live: Vec<bool>,
    pub(crate) seats: Vec<Seat>,
}

impl Model for Tables {
    ghost use Rattle.std.specs.Prelude.{◌≡◌, length};
    ghost use Rattle.word_rows.specs.Machine.{StepState};

    ghost Value = { StepState };

    ghost view = { λ t. record {
      words = t.words.items;
      all = t.all;
      views = t.seats.items;
      live = t.live.items;
    } };

    ghost invariant = { λ t. (length t.words.items ≡ t.width)
        × (length t.live.items ≡ length t.seats.items) };
}

impl Tables {
    ghost use Rattle.std.specs.Prelude.{◌≡◌, ◌<◌, length, true, false, IfOk, MatchOption};
    ghost use Rattle.word_rows.specs.Words.{AreWords};
    ghost use Rattle.word_rows.specs.Machine.{is_live, opening_state, view_at};
    ghost use Rattle.step_core.specs.inner.Briefs.{brief_state};

    /// Makes so many words with all bits 1, and seat 0 with all shares. The only error is that
    /// memory ran out.
    pub(crate) fn new(alloc: Global, width: u32, shares: u32) -> Result<Tables, AllocError>
        ensures { IfOk result (λ t. t ≡ brief_state (opening_state width shares)) }
    {
        let words = Vec::from_elem(alloc, u64::MAX, width as usize)?;
        let live = Vec::from_array(alloc, [true])?;
        let mut seats = Vec::with_capacity(alloc, 1)?;
        seats.push_reserved(Seat::new(alloc, shares));
        Ok(Tables {
            words,
            width,
            all: shares,
            live,
            seats,
        })
    }

    /// Lends the words.
    pub(crate) fn words(&self) -> &[u64]
        ensures { result.now ≡ self.now.words }
    {
        self.words.as_slice()
    }

    /// The number of words.
    pub(crate) fn width(&self) -> u32
        ensures { result ≡ length self.now.words }
    {
        self.width
    }

    /// The number of all shares.
    pub(crate) fn all(&self) -> u32
        ensures { result ≡ self.now.all }
    {
        self.all
    }

    /// Tests whether the seat is live.
    pub(crate) fn is_live(&self, seat: u32) -> bool
        ensures { result ≡ is_live self.now seat }
    {
        self.live.get(seat as usize).copied().unwrap_or(false)
    }

    /// Lends the seat with this number, or `None` where it is not live.
    pub(crate) fn live_seat(&self, seat: u32) -> Option<&Seat>
        ensures { MatchOption result (is_live self.now seat ≡ false)
            (λ s. (is_live self.now seat ≡ true) × (s.now ≡ view_at self.now seat)) }
    {
        if self.is_live(seat) {
            self.seats.get(seat as usize)
        } else {
            None
        }
    }
}
