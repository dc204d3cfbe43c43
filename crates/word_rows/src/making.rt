use crate::entries::{Entry, Row};
use std::alloc::{AllocError, Global};
use std::marker::Model;

/// A row that is made bit by bit, its words never falling. It is seen as the row so far.
#[derive(Debug, Drop)]
pub struct RowMaker {
    finished: Vec<Entry>,
    word: u32,
    mask: u64,
}

impl Model for RowMaker {
    ghost use Rattle.std.specs.Prelude.{List, ◌++◌, ◌∷◌, []};
    ghost use Rattle.word_rows.specs.declared.entries.Entry.{Entry};
    ghost use Rattle.word_rows.specs.inner.Making.{IsMaking};

    ghost Value = { List Entry };

    ghost view = { λ m. m.finished.items ++ record { word = m.word; mask = m.mask } ∷ [] };

    ghost invariant = { λ m. IsMaking m.finished.items m.word m.mask };
}

impl RowMaker {
    ghost use Rattle.std.specs.Prelude.{◌≡◌, ◌+◌, ◌<◌, [], ◌∷◌, OnOk, OnErr, IfOk, IsTrue};
    ghost use Rattle.word_rows.specs.Rows.{AddsBit, AddsMask, below};

    /// Begins with the row that clears nothing.
    pub fn new(alloc: Global) -> RowMaker
        ensures { result ≡ record { word = 0; mask = 0 } ∷ [] }
    {
        RowMaker {
            finished: Vec::new(alloc),
            word: 0,
            mask: 0,
        }
    }

    /// Begins with the row that clears nothing, in the memory of these entries, which are dropped.
    /// Memory for so many entries is taken at once, where they have less. The only error is that
    /// memory ran out.
    pub fn over(mut entries: Vec<Entry>, room: usize) -> Result<RowMaker, AllocError>
        ensures { IfOk result (λ maker. maker ≡ record { word = 0; mask = 0 } ∷ []) }
    {
        entries.clear();
        entries.reserve(room)?;
        Ok(RowMaker {
            finished: entries,
            word: 0,
            mask: 0,
        })
    }

    /// Clears this bit of this word too, no later word having been begun. The only error is that
    /// memory ran out.
    #[tactic(auto, using(crate::proofs::MakerLemmas::one_bit_adds))]
    pub fn clear(&mut self, word: u32, bit: u32) -> Result<(), AllocError>
        requires no_later { IsTrue (below (word + 1) self.old) }
        requires bit { bit < 64 }
        ensures clears { OnOk result (AddsBit self.old word bit self.new) }
        ensures no_later { OnOk result (IsTrue (below (word + 1) self.new)) }
        ensures err { OnErr result (self.new ≡ self.old) }
    {
        self.clear_mask(word, 1 << bit)
    }

    /// Clears these bits of this word too; no later word may have been begun. The only error is that
    /// memory ran out.
    pub fn clear_mask(&mut self, word: u32, mask: u64) -> Result<(), AllocError>
        requires { IsTrue (below (word + 1) self.old) }
        ensures clears { OnOk result (AddsMask self.old word mask self.new) }
        ensures no_later { OnOk result (IsTrue (below (word + 1) self.new)) }
        ensures err { OnErr result (self.new ≡ self.old) }
    {
        if mask == 0 {
            return Ok(());
        }
        if self.mask == 0 || self.word == word {
            self.word = word;
            self.mask |= mask;
            return Ok(());
        }
        self.finished.push(Entry {
            word: self.word,
            mask: self.mask,
        })?;
        self.word = word;
        self.mask = mask;
        Ok(())
    }

    /// Gives the row, which is (0, 0) where nothing was cleared. The only error is that memory ran
    /// out.
    pub fn finish(self) -> Result<Row, AllocError>
        ensures { IfOk result (λ r. r ≡ self) }
    {
        let mut entries = self.finished;
        entries.push(Entry {
            word: self.word,
            mask: self.mask,
        })?;
        Ok(Row::of(entries))
    }
}
