//! Marks of names, and of pairs of names by their number, four bits each: mark c of number n is bit
//! 4 * (n % 16) + c of word n / 16.
ghost use Rattle.std.specs.Prelude.{◌≡◌, ℕ, ◌+◌, ◌-◌, ◌*◌, ◌/◌, ◌%◌, ◌<◌, ◌≤◌, ◌&&◌, ◌||◌, ◌==◌};
ghost use Rattle.std.specs.Prelude.{nat_lt, length};
ghost use Rattle.std.specs.Int.{bit_at};
ghost use Rattle.hypothesis_index.specs.Places.{pairs_below};
ghost use Rattle.refute_tests.specs.inner.Marks.{has_mark, in_row};

use crate::pairs::row_slot;
use hypothesis_index::laws::pairs_follow;

/// Gives a name a mark.
pub(crate) fn add_mark(marks: &mut [u64; 32], name: u32, mark: u32)
    requires name { name < 512 }
    requires mark { mark < 4 }
    ensures { (n c : ℕ) → c < 4 → has_mark marks.new n c
        ≡ (has_mark marks.old n c || ((n == name) && (c == mark))) }
{
    let word = (name / 16) as usize;
    marks[word] |= 1 << (4 * (name % 16) + mark);
}

/// Gives the marks of sixteen names, from this word on, and none of a name that is not below the
/// greater one.
#[inline(always)]
pub(crate) fn word_below(marks: &[u64; 32], word: u32, greater: u32) -> u64
    requires small { greater < 512 }
    requires word { word < 64 }
    ensures { (k c : ℕ) → k < 16 → c < 4 → (bit_at result (4 * k + c) == 1)
        ≡ (nat_lt (16 * word + k) greater && has_mark marks.now (16 * word + k) c) }
{
    let first = 16 * word;
    if first >= greater {
        return 0;
    }
    let all = marks[word as usize];
    let names = greater - first;
    if names >= 16 {
        return all;
    }
    all & ((1 << (4 * names)) - 1)
}

/// Adds the words of a row that hold marks of lesser names alone, and gives the bits that the next
/// word begins with. The pairs of the row are counted from this one on.
#[inline(always)]
fn add_full_words(table: &mut [u64], marks: &[u64; 32], greater: u32, row: u32) -> u64
    requires small { greater < 512 }
    requires few { row ≤ 130816 }
    requires row { row ≡ pairs_below greater }
    requires room { row + greater ≤ 16 * length table.old }
    ensures added { (p c : ℕ) → c < 4 → has_mark table.new p c ≡ (has_mark table.old p c
        || (nat_lt p (16 * (row / 16 + greater / 16))
        && (in_row greater p && has_mark marks.now (p - pairs_below greater) c))) }
    ensures carried { (k c : ℕ) → k < 16 → c < 4 → (bit_at result (4 * k + c) == 1)
        ≡ (nat_lt (4 * k) (4 * (row % 16))
        && (in_row greater (16 * (row / 16 + greater / 16) + k) && has_mark marks.now
        (16 * (row / 16 + greater / 16) + k - pairs_below greater) c)) }
{
    let shift = 4 * (row % 16);
    let first = (row / 16) as usize;
    let mut carry = 0;
    for word in first..first + (greater / 16) as usize {
        let marked = marks[word - first];
        table[word] |= carry | marked << shift;
        carry = marked >> (60 - shift) >> 4;
    }
    carry
}

/// Gives each pair of this name and a lesser one the marks of the lesser name.
pub(crate) fn add_row(table: &mut [u64], marks: &[u64; 32], greater: u32)
    requires small { greater < 512 }
    requires room { pairs_below greater + greater ≤ 16 * length table.old }
    ensures { (p c : ℕ) → c < 4 → has_mark table.new p c ≡ (has_mark table.old p c
        || (in_row greater p && has_mark marks.now (p - pairs_below greater) c)) }
{
    if greater == 0 {
        return;
    }
    let row = row_slot(greater) - 2016;
    let mut carry = add_full_words(table, marks, greater, row);
    let shift = 4 * (row % 16);
    let first = row / 16;
    let last = (row + greater - 1) / 16;
    for word in first + greater / 16..last + 1 {
        let marked = word_below(marks, word - first, greater);
        table[word as usize] |= carry | marked << shift;
        carry = marked >> (60 - shift) >> 4;
    }
}
