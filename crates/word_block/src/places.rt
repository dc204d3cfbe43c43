//! Places for words of 64 bits, side by side in one block of memory, each empty or holding a word.
ghost use Rattle.std.specs.Prelude.{◌≡◌, ℕ, List, Option, Some, slice_set};
ghost use Rattle.std.specs.Borrow.{sem};
ghost use base.Fml.{ftrue};
ghost use denote.RawPtr.{Ptr};
ghost use Rattle.word_block.specs.inner.Filling.{words_of, IsEmptyAt, IsFilled};
ghost use Rattle.word_block.specs.inner.Ownership.{places_own, places_lent, deed_owns};

use std::alloc::Allocator;
use std::marker::{Model, PhantomData, Send, Sync};
use std::slice;

/// Where a block begins. It owns nothing.
#[derive(Clone, Copy)]
pub struct Base {
    pub(crate) ptr: *mut u64,
}

unsafe impl Send for Base {}

unsafe impl Sync for Base {}

/// The owner of all places of a block. It takes no bytes: the block keeps its pointer and length.
pub struct Places {
    pub(crate) mark: PhantomData<*const u64>,
    ghost at: { Ptr },
    ghost held: { List (Option ℕ) },
}

impl Model for Places {
    ghost also_owns = { λ p. places_own p.at p.held };

    ghost also_shares = { λ p _ κ. places_lent p.at p.held κ };
}

unsafe impl Send for Places {}

unsafe impl Sync for Places {}

/// The right to give a block of `len` places at `at` back to `alloc`. It takes no bytes.
pub struct Deed<A: Allocator> {
    pub(crate) mark: PhantomData<*const A>,
    ghost at: { Ptr },
    ghost len: { ℕ },
    ghost alloc: { A },
}

impl<A: Allocator> Model for Deed<A> {
    ghost also_owns = { λ d. deed_owns (A.dealloc_token d.alloc) d.at d.len };

    ghost also_shares = { λ _ _ _. ftrue };
}

unsafe impl<A: Allocator + Send> Send for Deed<A> {}

// A `&` to it holds nothing.
unsafe impl<A: Allocator> Sync for Deed<A> {}

impl Places {
    ghost use Rattle.word_block.specs.inner.PlaceLends.{lends_places, with_held};

    /// Writes a word to one empty place: the 8 bytes of the block that begin `index * 8` after its
    /// base.
    pub(crate) fn write(&mut self, base: Base, index: usize, word: u64)
        requires { (base.ptr ≡ self.old.at) × IsEmptyAt index self.old.held }
        ensures { self.new ≡ with_held self.old (slice_set self.old.held index (Some word)) }
    {
        unsafe { base.ptr.add(index).write(word) }
    }

    /// Lends the words in all `len` places of the block: the `len * 8` bytes from its base on.
    pub(crate) fn slice(&self, base: Base, len: usize) -> &[u64]
        requires { (base.ptr ≡ self.now.at) × IsFilled len self.now.held }
        ensures { result.now ≡ words_of self.now.held }
    {
        unsafe { slice::from_raw_parts(base.ptr, len) }
    }

    /// Lends the words in all `len` places of the block to be written: the `len * 8` bytes from its
    /// base on.
    pub(crate) fn slice_mut(&mut self, base: Base, len: usize) -> &mut [u64]
        requires { (base.ptr ≡ self.old.at) × IsFilled len self.old.held }
        ensures* writes_back { sem 𝓛 (lends_places self.entry result) }
        ensures value { result.now ≡ words_of self.old.held }
    {
        unsafe { slice::from_raw_parts_mut(base.ptr, len) }
    }
}
