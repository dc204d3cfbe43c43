ghost use Rattle.std.specs.Prelude.{◌≡◌, ◌==◌, ◌<◌, ◌≤◌, ◌≢◌, All, IfOk, length, map, max, min};
ghost use Rattle.hypothesis_index.specs.Places.{IsRelation, NamesBelow, width_of};
ghost use Rattle.model_meet.specs.RelationBits.{relation_bit};
ghost use Rattle.judged_books.specs.inner.KeptRows.{name_mark, task_mark};
ghost use Rattle.digest_facts.specs.Tables.{pair_byte};

use hypothesis_index::laws::places_fit;
use hypothesis_index::{Relation, place};
use kept_names::Listed;
use std::alloc::{AllocError, Global};
use trace_types::{NameText, Text};

/// Tells whether the words lack the bit of a relation, which some trace then refutes.
fn is_refuted(words: &[u64], count: u32, relation: Relation) -> bool
    requires few { count ≤ 512 }
    requires width { length words.now ≡ width_of count }
    requires relation { IsRelation relation }
    requires names { NamesBelow count relation }
    ensures { result ≡ (relation_bit words.now relation == 0) }
{
    // For the proof alone.
    places_fit();
    let place = place(relation);
    (words[place.word as usize] >> place.bit) & 1 == 0
}

/// Gives the two numbers, the lesser first.
fn rising(a: u32, b: u32) -> (u32, u32)
    ensures low { result.0 ≡ min a b }
    ensures high { result.1 ≡ max a b }
{
    if a < b { (a, b) } else { (b, a) }
}

/// Makes the mark of a pair: `.` where no trace has both, and else the digit of the refuted.
fn make_mark(both: bool, before: bool, after: bool, exclusive: bool) -> u8
    ensures { result ≡ pair_byte both before after exclusive }
{
    if !both {
        return b'.';
    }
    b'0' + u8::from(before) + 2 * u8::from(after) + 4 * u8::from(exclusive)
}

/// Makes the mark of two names.
fn name_mark(words: &[u64], count: u32, first: u32, second: u32) -> u8
    requires few { count ≤ 512 }
    requires width { length words.now ≡ width_of count }
    requires differ { first ≢ second }
    requires first { first < count }
    requires second { second < count }
    ensures { result ≡ name_mark words.now first second }
{
    let (low, high) = rising(first, second);
    make_mark(
        is_refuted(words, count, Relation::Apart { low, high }),
        is_refuted(words, count, Relation::Before { first, second }),
        is_refuted(
            words,
            count,
            Relation::Before {
                first: second,
                second: first,
            },
        ),
        is_refuted(words, count, Relation::Exclusive { low, high }),
    )
}

/// Makes the mark of two tasks.
fn task_mark(words: &[u64], count: u32, from: u32, to: u32) -> u8
    requires few { count ≤ 512 }
    requires width { length words.now ≡ width_of count }
    requires differ { from ≢ to }
    requires first { from < 64 }
    requires second { to < 64 }
    ensures { result ≡ task_mark words.now from to }
{
    let (low, high) = rising(from, to);
    make_mark(
        is_refuted(words, count, Relation::Unshared { low, high }),
        is_refuted(words, count, Relation::Pipe { from, to }),
        is_refuted(words, count, Relation::Pipe { from: to, to: from }),
        false,
    )
}

/// Makes the marks of a name and each one before it. The only error is out of memory.
pub(crate) fn mark_names(
    alloc: Global,
    words: &[u64],
    count: u32,
    earlier: &[Listed<'_, NameText>],
    number: u32,
) -> Result<Vec<u8>, AllocError>
    requires few { count ≤ 512 }
    requires width { length words.now ≡ width_of count }
    requires below { number < count }
    requires listed { All (λ i. (i.1 < count) × (i.1 ≢ number)) earlier.now }
    ensures { IfOk result (λ marks.
        marks.items ≡ map (λ i. name_mark words.now i.1 number) earlier.now) }
{
    let mut marks = Vec::with_capacity(alloc, earlier.len())?;
    'names: for item in earlier {
        marks.push(name_mark(words, count, item.number(), number))?;
    }
    Ok(marks)
}

/// Makes the marks of a task and each one before it. The only error is out of memory.
pub(crate) fn mark_tasks(
    alloc: Global,
    words: &[u64],
    count: u32,
    earlier: &[Listed<'_, Text>],
    number: u32,
) -> Result<Vec<u8>, AllocError>
    requires few { count ≤ 512 }
    requires width { length words.now ≡ width_of count }
    requires below { number < 64 }
    requires listed { All (λ i. (i.1 < 64) × (i.1 ≢ number)) earlier.now }
    ensures { IfOk result (λ marks.
        marks.items ≡ map (λ i. task_mark words.now i.1 number) earlier.now) }
{
    let mut marks = Vec::with_capacity(alloc, earlier.len())?;
    'tasks: for item in earlier {
        marks.push(task_mark(words, count, item.number(), number))?;
    }
    Ok(marks)
}
