ghost use Rattle.std.specs.Prelude.{◌≡◌, ℕ, ◌+◌, ◌*◌, ◌^◌, ◌<◌, ◌≤◌, map, max, IfOk, length};
ghost use Rattle.std.specs.Prelude.{if◌then◌else◌, slice_index};
ghost use Rattle.path_gains.specs.inner.Spans.{HaveRoom, RaisesBlock, RaisesIn, has_block, shown_at};

use std::alloc::{AllocError, Global};
use weighted_dag::Length;

/// Counts the levels whose blocks can have so many numbers: blocks of 1, of 2, of 4, and so on.
fn count_levels(count: usize) -> usize
    requires { count < 2 ^ 32 }
    ensures levels { (level : ℕ) → 2 ^ level ≤ count → level < result }
    ensures few { result ≤ 32 }
{
    if count == 0 {
        0
    } else {
        count.ilog2() as usize + 1
    }
}

/// Makes the blocks of so many numbers, each 0: a block of 2^level numbers from each index on, for
/// each level that has one, level by level.
pub(crate) fn zero_blocks<L: Length>(alloc: Global, count: usize) -> Result<Vec<L>, AllocError>
    requires { count < 2 ^ 32 }
    ensures room { IfOk result (λ blocks. HaveRoom count (length blocks.items)) }
    ensures zero { IfOk result (λ blocks. (v : ℕ) → shown_at count (map L.value blocks.items) v ≡ 0) }
{
    let levels = count_levels(count);
    vec![in alloc; L::of(0); levels * count]
}

/// Raises the numbers from `low` to before `high` to the least value that they may have: by the two
/// greatest blocks that cover the span.
pub(crate) fn raise_span<L: Length>(
    blocks: &mut [L],
    count: usize,
    low: usize,
    high: usize,
    least: L,
)
    requires high { high ≤ count }
    requires room { HaveRoom count (length blocks.old) }
    ensures raises { (v : ℕ) → v < count → RaisesIn low high (L.value least) v
        (shown_at count (map L.value blocks.old) v)
        (shown_at count (map L.value blocks.new) v) }
{
    if low < high {
        let level = (high - low).ilog2();
        let row = level as usize * count;
        raise_block(blocks, count, row + low, least);
        raise_block(blocks, count, row + high - (1 << level), least);
    }
}

/// Raises the block with this place.
fn raise_block<L: Length>(blocks: &mut [L], count: usize, place: usize, least: L)
    requires { place < length blocks.old }
    ensures { (v : ℕ) → RaisesBlock count place (L.value least) v
        (shown_at count (map L.value blocks.old) v)
        (shown_at count (map L.value blocks.new) v) }
{
    blocks[place] = blocks[place].or_greater(least);
}

/// Hands the number of the block that comes next after these on to its two halves, where the block
/// is within the count.
fn hand_on<L: Length>(blocks: &mut [L], count: usize, number: L)
    requires small { count < 2 ^ 32 }
    requires row { count ≤ length blocks.old }
    requires few { length blocks.old < 64 * count }
    ensures { (v : ℕ) → shown_at count (map L.value blocks.new) v
        ≡ max (shown_at count (map L.value blocks.old) v)
        (if has_block count (length blocks.old) v then L.value number else 0) }
{
    let level = blocks.len() / count;
    let index = blocks.len() % count;
    let half = 1usize << (level - 1);
    if index + 2 * half <= count {
        let row = (level - 1) * count;
        raise_block(blocks, count, row + index, number);
        raise_block(blocks, count, row + index + half, number);
    }
}

/// Takes the numbers out of the blocks: hands each block on to its two halves, the greatest first.
pub(crate) fn into_numbers<L: Length>(blocks: Vec<L>, count: usize) -> Vec<L>
    requires { HaveRoom count (length blocks.items) }
    ensures count { length result.items ≡ count }
    ensures numbers { (v : ℕ) → v < count → slice_index (map L.value result.items) v
        ≡ shown_at count (map L.value blocks.items) v }
{
    let mut blocks = blocks;
    'halving: while blocks.len() > count {
        let Some(number) = blocks.pop() else {
            return blocks;
        };
        hand_on(&mut blocks, count, number);
    }
    blocks
}
