ghost use Rattle.std.specs.Prelude.{◌≡◌, replicate, IfOk};
ghost use Rattle.std.specs.Borrow.{sem};

use crate::allocation::{allocate, deallocate};
use crate::places::{Base, Deed, Places};
use std::alloc::{AllocError, Global};
use std::marker::Model;

/// A fixed number of words of 64 bits each, in a block of their own. Dropping it gives the block
/// back.
pub struct WordBlock {
    base: Base,
    len: usize,
    places: Places,
    deed: Deed<Global>,
    alloc: Global,
}

impl Model for WordBlock {
    ghost use Rattle.std.specs.Prelude.{List, ℕ};

    ghost Value = { List ℕ };

    ghost use Rattle.word_block.specs.inner.Blocks.{block_words, IsBlock};

    ghost view = { block_words };

    ghost invariant = { IsBlock };
}

impl Drop for WordBlock {
    fn drop(self) {
        let WordBlock {
            base,
            len,
            places,
            deed,
            alloc,
        } = self;
        deallocate(&alloc, base, len, places, deed);
    }
}

impl WordBlock {
    ghost use Rattle.word_block.specs.Lends.{lends_words};

    /// Takes a block of so many words, all 0.
    pub fn zeros(alloc: Global, len: usize) -> Result<WordBlock, AllocError>
        ensures { IfOk result (λ b. b ≡ replicate len 0) }
    {
        // A block has fewer than 2^63 bytes.
        if len >= 0x1000_0000_0000_0000 {
            return Err(AllocError);
        }
        let (base, mut places, deed) = allocate(&alloc, len)?;
        'places: for index in 0..len {
            places.write(base, index, 0);
        }
        Ok(WordBlock {
            base,
            len,
            places,
            deed,
            alloc,
        })
    }

    /// Lends the words.
    pub fn as_slice(&self) -> &[u64]
        ensures { result.now ≡ self.now }
    {
        self.places.slice(self.base, self.len)
    }

    /// Lends the words to be written.
    pub fn as_mut_slice(&mut self) -> &mut [u64]
        ensures* lends { sem 𝓛 (lends_words self.entry result) }
        ensures value { result.now ≡ self.old }
    {
        self.places.slice_mut(self.base, self.len)
    }
}
