//! The words of all rows of a pool, one row after another, in one block that can grow.
ghost use Rattle.std.specs.Prelude.{◌≡◌, ◌≢◌, ◌+◌, ◌-◌, ◌*◌, ◌^◌, ◌<◌, ◌≤◌, ◌++◌, [], length};
ghost use Rattle.std.specs.Prelude.{replicate, slice_set, IfOk, OnOk, OnErr};
ghost use Rattle.word_rows.specs.Words.{full_words as full};
ghost use Rattle.row_pool.specs.inner.Layout.{IsRow, WritesRow, Meets, Widens};

use crate::words::{copy_words, fill_row, meet_rows, widen_row, write_row};
use std::alloc::{AllocError, Global};
use std::marker::Model;
use word_block::WordBlock;

/// Rows side by side. There is no block until the first row is made.
#[derive(Drop)]
pub(crate) struct Storage {
    block: Option<WordBlock>,
    alloc: Global,
}

impl Model for Storage {
    ghost use Rattle.std.specs.Prelude.{List, ℕ};
    ghost use Rattle.row_pool.specs.Pools.{words_or_none};

    ghost Value = { List ℕ };

    ghost view = { λ s. words_or_none s.block };
}

impl Storage {
    /// Makes storage without a row. It takes no memory.
    pub(crate) fn new(alloc: Global) -> Storage
        ensures { result ≡ [] }
    {
        Storage { block: None, alloc }
    }

    /// Lends the words of all rows.
    pub(crate) fn words(&self) -> &[u64]
        ensures { result.now ≡ self.now }
    {
        match &self.block {
            Some(block) => block.as_slice(),
            None => &[],
        }
    }

    /// Writes one word.
    pub(crate) fn set(&mut self, index: usize, word: u64)
        requires { index < length self.old }
        ensures { self.new ≡ slice_set self.old index word }
    {
        let Some(block) = &mut self.block else {
            return;
        };
        block.as_mut_slice()[index] = word;
    }

    /// Sets all bits of a row.
    pub(crate) fn fill(&mut self, width: usize, row: usize)
        requires { IsRow width row self.old }
        ensures { WritesRow width row self.old self.new (full width) }
    {
        let Some(block) = &mut self.block else {
            return;
        };
        fill_row(block.as_mut_slice(), width, row);
    }

    /// Copies words into a row.
    pub(crate) fn write(&mut self, width: usize, row: usize, from: &[u64])
        requires row { IsRow width row self.old }
        requires width { length from.now ≡ width }
        ensures { WritesRow width row self.old self.new from.now }
    {
        let Some(block) = &mut self.block else {
            return;
        };
        write_row(block.as_mut_slice(), width, row, from);
    }

    /// Makes the row `to` the meet of `a` and `b`.
    pub(crate) fn meet(&mut self, width: usize, to: usize, a: usize, b: usize)
        requires rows { IsRow width to self.old × IsRow width a self.old × IsRow width b self.old }
        requires apart { (to ≢ a) × (to ≢ b) }
        ensures { Meets width to a b self.old self.new }
    {
        let Some(block) = &mut self.block else {
            return;
        };
        meet_rows(block.as_mut_slice(), width, to, a, b);
    }

    /// Makes room for `len` words: a block with fewer is moved to one of `room` words, zeros after
    /// its own.
    pub(crate) fn grow(&mut self, len: usize, room: usize) -> Result<(), AllocError>
        requires { len ≤ room }
        ensures ok { OnOk result
            (self.new ≡ self.old ++ replicate (length self.new - length self.old) 0) }
        ensures long { OnOk result (len ≤ length self.new) }
        ensures same { len ≤ length self.old → length self.new ≡ length self.old }
        ensures moved { OnOk result (length self.old < len → length self.new ≡ room) }
        ensures err { OnErr result (self.new ≡ self.old) }
    {
        let count = self.words().len();
        if len <= count {
            return Ok(());
        }
        let mut block = WordBlock::zeros(self.alloc, room)?;
        copy_words(block.as_mut_slice(), self.words());
        self.block = Some(block);
        Ok(())
    }

    /// Makes new storage with the same rows at a greater width, full words after each.
    pub(crate) fn widened(&self, rows: usize, old: usize, new: usize) -> Result<Storage, AllocError>
        requires widths { (0 < old) × (old ≤ new) × (new < 2 ^ 32) }
        requires rows { (rows < 2 ^ 32) × (rows * old ≤ length self.now) }
        ensures { IfOk result (λ s. Widens old new rows self.now s) }
    {
        let mut block = WordBlock::zeros(self.alloc, rows * new)?;
        'rows: for row in 0..rows {
            widen_row(block.as_mut_slice(), new, self.words(), old, row);
        }
        Ok(Storage {
            block: Some(block),
            alloc: self.alloc,
        })
    }
}
