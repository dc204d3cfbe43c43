use std::alloc::{AllocError, Global};
use std::marker::Model;

/// A set of numbers below a size, a bit for each.
#[derive(Drop)]
pub(crate) struct BitSet {
    words: Vec<u64>,
}

impl Model for BitSet {
    ghost use Rattle.std.specs.Prelude.{List, ℕ};

    ghost Value = { List ℕ };

    ghost view = { λ s. s.words.items };
}

impl BitSet {
    ghost use Rattle.std.specs.Prelude.{◌≡◌, ℕ, ◌/◌, ◌<◌, ◌↔◌, ◌⊎◌, length, IfOk, IsTrue};
    ghost use Rattle.weighted_dag.specs.inner.BitSets.{Has, words_for};

    /// Makes the empty set, with room for the numbers below the size.
    pub(crate) fn empty(alloc: Global, size: usize) -> Result<BitSet, AllocError>
        ensures none { IfOk result (λ set. (k : ℕ) → ¬ Has set k) }
        ensures room { IfOk result (λ set. length set ≡ words_for size) }
    {
        let words = vec![in alloc; 0u64; size / 64 + 1]?;
        Ok(BitSet { words })
    }

    /// Tells whether the set has the number.
    pub(crate) fn contains(&self, number: u32) -> bool
        requires { number / 64 < length self.now }
        ensures { IsTrue result ↔ Has self.now number }
    {
        let word = self.words[number as usize / 64];
        (word >> (number % 64)) & 1 == 1
    }

    /// Adds the number.
    pub(crate) fn insert(&mut self, number: u32)
        requires { number / 64 < length self.old }
        ensures has { (k : ℕ) → Has self.new k ↔ (Has self.old k ⊎ (k ≡ number)) }
        ensures room { length self.new ≡ length self.old }
    {
        let index = number as usize / 64;
        let bit = 1u64 << (number % 64);
        self.words[index] |= bit;
    }

    /// Adds the numbers of another set with the same room, given by its words.
    pub(crate) fn unite(&mut self, words: &[u64])
        requires { length self.old ≡ length words.now }
        ensures has { (k : ℕ) → Has self.new k ↔ (Has self.old k ⊎ Has words.now k) }
        ensures room { length self.new ≡ length self.old }
    {
        'words: for index in 0..words.len() {
            self.words[index] |= words[index];
        }
    }

    /// Removes all numbers.
    pub(crate) fn clear(&mut self)
        ensures none { (k : ℕ) → ¬ Has self.new k }
        ensures room { length self.new ≡ length self.old }
    {
        self.words.fill(0);
    }

    /// Returns the words of the set, a bit for each number.
    pub(crate) fn words(&self) -> &[u64]
        ensures { result.now ≡ self.now }
    {
        self.words.as_slice()
    }
}
