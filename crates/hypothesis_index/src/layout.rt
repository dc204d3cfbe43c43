ghost use Rattle.std.specs.Prelude.{◌≡◌, ◌<◌, ◌≤◌};
ghost use Rattle.hypothesis_index.specs.declared.relation.Relation.TheVariants.{Exclusive};
ghost use Rattle.hypothesis_index.specs.Places.{IsRelation, pair_place, place_of, width_of};

use crate::pairs::count_pairs;
use crate::{BitPlace, Relation};

/// Pairs of tasks fill this many words, and those of names follow.
pub(crate) const TASK_WORDS: u32 = 126;

/// Gives the bit of this kind of a pair, where the pairs begin at this word.
fn place_in(begin: u32, low: u32, high: u32, kind: u32) -> BitPlace
    requires rises { low < high }
    requires small { high < 512 }
    requires first { begin ≤ 126 }
    requires one { kind < 4 }
    ensures { result ≡ pair_place begin low high kind }
{
    let number = count_pairs(high) + low;
    BitPlace {
        word: begin + number / 16,
        bit: 4 * (number % 16) + kind,
    }
}

/// Finds the place of the mutual exclusion of two names, the lesser first. It takes no memory.
pub fn exclusion_place(low: u32, high: u32) -> BitPlace
    requires { IsRelation (Exclusive low high) }
    ensures { result ≡ place_of (Exclusive low high) }
{
    place_in(TASK_WORDS, low, high, 2)
}

/// The place of a relation. It takes no memory.
pub fn place(relation: Relation) -> BitPlace
    requires { IsRelation relation }
    ensures { result ≡ place_of relation }
{
    match relation {
        Relation::Before { first, second } => {
            if first < second {
                place_in(TASK_WORDS, first, second, 0)
            } else {
                place_in(TASK_WORDS, second, first, 1)
            }
        }
        Relation::Exclusive { low, high } => exclusion_place(low, high),
        Relation::Apart { low, high } => place_in(TASK_WORDS, low, high, 3),
        Relation::Pipe { from, to } => {
            if from < to {
                place_in(0, from, to, 0)
            } else {
                place_in(0, to, from, 1)
            }
        }
        Relation::Unshared { low, high } => place_in(0, low, high, 2),
    }
}

/// How many words hold the places of all tasks and of this many names. It takes no memory.
pub fn width(names: u32) -> u32
    requires { names ≤ 512 }
    ensures { result ≡ width_of names }
{
    TASK_WORDS + count_pairs(names).div_ceil(16)
}
