ghost use Rattle.std.specs.Prelude.{◌≡◌, ◌<◌, ◌↔◌, [], ◌∷◌, length, IfOk, IsTrue, OnErr, OnOk};
ghost use Rattle.word_rows.specs.Rows.{below};
ghost use Rattle.word_rows.specs.Words.{AreWords, IsCommon, IsMeet, bit_of, full_words, widened_words};

use crate::{Entry, Row};
use std::alloc::{AllocError, Global};
use std::marker::Model;

/// A list of words of 64 bits each.
#[derive(Debug, Drop)]
pub struct Sheet {
    words: Vec<u64>,
}

impl Model for Sheet {
    ghost use Rattle.std.specs.Prelude.{List, ℕ};

    ghost Value = { List ℕ };

    ghost view = { λ s. s.words.items };
}

/// Takes the bits of these entries from the words.
fn clear_entries(words: &mut [u64], entries: &[Entry])
    requires { IsTrue (below (length words.old) entries.now) }
    ensures { IsMeet words.old (entries.now ∷ []) words.new }
{
    for entry in entries {
        words[entry.word as usize] &= !entry.mask;
    }
}

/// Takes the bits that the others lack from the words.
fn keep_common(words: &mut [u64], others: &[u64])
    requires { length others.now ≡ length words.old }
    ensures { IsCommon words.old others.now words.new }
{
    for (index, word) in words.iter_mut().enumerate() {
        *word &= others[index];
    }
}

/// Lends the words, each of which has 64 bits.
fn lent(words: &[u64]) -> &[u64]
    ensures same { result.now ≡ words.now }
    ensures bound { AreWords words.now }
{
    words
}

impl Sheet {
    /// Makes as many words as the width, with all bits 1. The only error is that memory ran out.
    pub fn full(alloc: Global, width: u32) -> Result<Sheet, AllocError>
        ensures { IfOk result (λ s. s ≡ full_words width) }
    {
        Ok(Sheet {
            words: Vec::from_elem(alloc, u64::MAX, width as usize)?,
        })
    }

    /// Makes the sheet of just these words, and takes no memory.
    pub fn of(words: Vec<u64>) -> Sheet
        ensures { result ≡ words.items }
    {
        Sheet { words }
    }

    /// Takes the bits of the row, whose words are all in the sheet, from the words.
    pub fn meet_row(&mut self, row: &Row)
        requires { IsTrue (below (length self.old) row.now) }
        ensures { IsMeet self.old (row.now ∷ []) self.new }
    {
        clear_entries(self.words.as_mut_slice(), row.entries());
    }

    /// Takes the bits that the other sheet, of the same width, lacks from the words.
    pub fn meet_sheet(&mut self, other: &Sheet)
        requires { length other.now ≡ length self.old }
        ensures { IsCommon self.old other.now self.new }
    {
        keep_common(self.words.as_mut_slice(), other.words());
    }

    /// Tests whether this bit, counted from 0, of this word is 1.
    pub fn bit(&self, word: u32, bit: u32) -> bool
        requires word { word < length self.now }
        requires bit { bit < 64 }
        ensures { IsTrue result ↔ (bit_of self.now word bit ≡ 1) }
    {
        (self.words[word as usize] >> bit) & 1 == 1
    }

    /// Sets all bits to 1 again.
    pub fn fill(&mut self)
        ensures { self.new ≡ full_words (length self.old) }
    {
        self.words.as_mut_slice().fill(u64::MAX);
    }

    /// Appends so many words with all bits 1. The only error is that memory ran out.
    pub fn widen(&mut self, more: u32) -> Result<(), AllocError>
        ensures ok { OnOk result (self.new ≡ widened_words self.old more) }
        ensures err { OnErr result (self.new ≡ self.old) }
    {
        let width = self.words.len() + more as usize;
        self.words.resize(width, u64::MAX)
    }

    /// Lends the words.
    pub fn words(&self) -> &[u64]
        ensures same { result.now ≡ self.now }
        ensures bound { AreWords self.now }
    {
        lent(self.words.as_slice())
    }

    /// Gives the words back, and takes no memory.
    pub fn into_words(self) -> Vec<u64>
        ensures { result.items ≡ self }
    {
        self.words
    }
}
