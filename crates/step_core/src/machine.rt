use crate::StepFault;
use crate::copy::copy_event;
use crate::tables::Tables;
use std::alloc::{AllocError, Global};
use std::marker::Model;
use word_rows::laws::{opening_is_sound, step_keeps_sound};
use word_rows::{Reply, StepEvent};

/// The plain machine. It keeps the words, the number of all shares, of each live seat its shares
/// and its row in progress, and the steps that were made. Contracts see it as the state after an
/// opening and these steps.
#[derive(Drop)]
pub struct Machine {
    alloc: Global,
    width: u32,
    shares: u32,
    events: Vec<StepEvent>,
    tables: Tables,
}

impl Model for Machine {
    ghost use Rattle.word_rows.specs.Machine.{StepState, after};
    ghost use Rattle.step_core.specs.inner.Briefs.{AreBriefOf};

    ghost Value = { StepState };

    ghost view = { λ m. (after m.width m.shares m.events.items).0 };

    ghost invariant = { λ m. AreBriefOf m.tables (after m.width m.shares m.events.items).0 };
}

impl Machine {
    ghost use Rattle.std.specs.Prelude.{◌≡◌, ◌+◌, ◌<◌, ◌≤◌, length, Ok, IfOk, IfErr, OnErr};
    ghost use Rattle.word_rows.specs.Machine.{IsSoundState, opening_state, step};
    ghost use Rattle.step_core.specs.StepFaults.{HasStepFault};

    /// Opens a machine with so many words, all bits of which are 1, and seat 0, which has all
    /// shares. The only error is that memory ran out.
    pub fn new(alloc: Global, width: u32, shares: u32) -> Result<Machine, AllocError>
        requires width { 0 < width }
        requires shares { 0 < shares }
        ensures { IfOk result (λ m. m ≡ opening_state width shares) }
    {
        // For the proof alone.
        opening_is_sound();
        Ok(Machine {
            alloc,
            width,
            shares,
            events: Vec::new(alloc),
            tables: Tables::new(alloc, width, shares)?,
        })
    }

    /// Makes one step, and gives its reply. Fewer than 4,294,967,295 seats were made until then. Of
    /// several faults it tells the first in this order: no seat, a row open, a bad share, a bad
    /// word, shares out. After a fault, also where memory ran out, the machine is unchanged.
    pub fn step(&mut self, event: &StepEvent) -> Result<Reply, StepFault>
        requires { length self.old.views < 4294967295 }
        ensures ok { IfOk result (λ reply. step self.old event.now ≡ (self.new, Ok reply)) }
        ensures fault { IfErr result (HasStepFault self.old event.now) }
        ensures unchanged { OnErr result (self.new ≡ self.old) }
        ensures seats { length self.new.views ≤ length self.old.views + 1 }
        ensures sound { IsSoundState self.new }
    {
        // For the proof alone.
        step_keeps_sound();
        if let Some(fault) = self.tables.fault(event) {
            return Err(fault);
        }
        let kept = copy_event(self.alloc, event)?;
        self.events.reserve(1)?;
        let reply = self.tables.change(self.alloc, event)?;
        self.events.push_reserved(kept);
        Ok(reply)
    }

    /// Lends the words as they are now.
    pub fn words(&self) -> &[u64]
        ensures words { result.now ≡ self.now.words }
        ensures sound { IsSoundState self.now }
    {
        self.tables.words()
    }

    /// The number of words.
    pub fn width(&self) -> u32
        ensures { result ≡ length self.now.words }
    {
        self.tables.width()
    }

    /// The number of all shares.
    pub fn all_shares(&self) -> u32
        ensures { result ≡ self.now.all }
    {
        self.tables.all()
    }
}
