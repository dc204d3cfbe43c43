ghost use Rattle.std.specs.Prelude.{◌≡◌, ◌<◌, None, length, IfOk, OnErr, OnOk};
ghost use Rattle.word_rows.specs.Words.{without};
ghost use Rattle.word_rows.specs.Machine.{fault_of, reply_of};
ghost use Rattle.step_core.specs.inner.Briefs.{Follows, IsSteady};

use crate::seat::Seat;
use crate::tables::Tables;
use std::alloc::{AllocError, Global};
use word_rows::laws::{complement_clears, same_row_is_one};
use word_rows::{Reply, Row, Sheet, StepEvent};

/// The word without the bits of the mask.
fn cleared_word(word: u64, mask: u64) -> u64
    ensures { result ≡ without word mask }
{
    // For the proof alone.
    complement_clears();
    word & !mask
}

impl Tables {
    /// Clears the next entry of the row. The only error is that memory ran out, and then nothing is
    /// changed.
    fn clear(&mut self, alloc: Global, seat: u32, row: &Row) -> Result<Reply, AllocError>
        requires allowed { fault_of self.old (StepEvent.Clear seat row.now) ≡ None }
        requires steady { IsSteady self.old }
        ensures reply { IfOk result (λ r. r ≡ reply_of self.old (StepEvent.Clear seat row.now)) }
        ensures follows { OnOk result (Follows self.old (StepEvent.Clear seat row.now) self.new) }
        ensures err { OnErr result (self.new ≡ self.old) }
    {
        // For the proof alone.
        same_row_is_one();
        let place = seat as usize;
        let entries = row.entries();
        let view = &self.seats[place];
        let cleared = view.cleared();
        let next = view.with_cleared(alloc, row)?;
        let entry = entries[cleared];
        let word = entry.word as usize;
        let old = self.words[word];
        self.words[word] = cleared_word(old, entry.mask);
        self.seats[place] = next;
        Ok(Reply::Cleared { old })
    }

    /// Loads a word, which the tables do not keep.
    fn load(&self, seat: u32, word: u32) -> Reply
        requires { fault_of self.now (StepEvent.Load seat word) ≡ None }
        ensures reply { result ≡ reply_of self.now (StepEvent.Load seat word) }
        ensures follows { Follows self.now (StepEvent.Load seat word) self.now }
    {
        Reply::Loaded {
            value: self.words[word as usize],
        }
    }

    /// Makes a seat of these shares of the seat. The only error is that memory ran out, and then
    /// nothing is changed.
    fn split(&mut self, alloc: Global, seat: u32, shares: u32) -> Result<Reply, AllocError>
        requires allowed { fault_of self.old (StepEvent.Split seat shares) ≡ None }
        requires seats { length self.old.views < 4294967295 }
        ensures reply { IfOk result (λ r. r ≡ reply_of self.old (StepEvent.Split seat shares)) }
        ensures follows { OnOk result (Follows self.old (StepEvent.Split seat shares) self.new) }
        ensures err { OnErr result (self.new ≡ self.old) }
    {
        self.seats.reserve(1)?;
        self.live.reserve(1)?;
        let new = self.seats.len() as u32;
        let view = &mut self.seats[seat as usize];
        let left = view.shares() - shares;
        view.set_shares(left);
        self.seats.push_reserved(Seat::new(alloc, shares));
        self.live.push_reserved(true);
        Ok(Reply::Split { seat: new })
    }

    /// Adds the shares of the other seat to those of the seat. The other is then not live. It takes
    /// no memory.
    fn join(&mut self, alloc: Global, seat: u32, other: u32) -> Reply
        requires allowed { fault_of self.old (StepEvent.Join seat other) ≡ None }
        requires steady { IsSteady self.old }
        ensures reply { result ≡ reply_of self.old (StepEvent.Join seat other) }
        ensures follows { Follows self.old (StepEvent.Join seat other) self.new }
    {
        let place = other as usize;
        let more = self.seats[place].shares();
        let view = &mut self.seats[seat as usize];
        let shares = view.shares() + more;
        view.set_shares(shares);
        self.seats[place] = Seat::new(alloc, 0);
        self.live[place] = false;
        Reply::Joined
    }

    /// Gives the words. No seat is then live. The only error is that memory ran out, and then
    /// nothing is changed.
    fn close(&mut self, alloc: Global, seat: u32) -> Result<Reply, AllocError>
        requires { fault_of self.old (StepEvent.Close seat) ≡ None }
        ensures reply { IfOk result (λ r. r ≡ reply_of self.old (StepEvent.Close seat)) }
        ensures follows { OnOk result (Follows self.old (StepEvent.Close seat) self.new) }
        ensures err { OnErr result (self.new ≡ self.old) }
    {
        let words = Vec::from_slice(alloc, self.words.as_slice())?;
        self.live.as_mut_slice().fill(false);
        Ok(Reply::Closed {
            words: Sheet::of(words),
        })
    }

    /// Makes a step that has no fault. The only error is that memory ran out, and then nothing is
    /// changed.
    pub(crate) fn change(&mut self, alloc: Global, event: &StepEvent) -> Result<Reply, AllocError>
        requires allowed { fault_of self.old event.now ≡ None }
        requires steady { IsSteady self.old }
        requires seats { length self.old.views < 4294967295 }
        ensures reply { IfOk result (λ r. r ≡ reply_of self.old event.now) }
        ensures follows { OnOk result (Follows self.old event.now self.new) }
        ensures err { OnErr result (self.new ≡ self.old) }
    {
        match event {
            StepEvent::Clear { seat, row } => self.clear(alloc, *seat, row),
            StepEvent::Load { seat, word } => Ok(self.load(*seat, *word)),
            StepEvent::Split { seat, shares } => self.split(alloc, *seat, *shares),
            StepEvent::Join { seat, other } => Ok(self.join(alloc, *seat, *other)),
            StepEvent::Close { seat } => self.close(alloc, *seat),
        }
    }
}
