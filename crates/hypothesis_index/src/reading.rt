ghost use Rattle.std.specs.Prelude.{◌≡◌, ◌<◌, IfSome, MatchOption};
ghost use Rattle.hypothesis_index.specs.declared.relation.Relation.{Relation};
ghost use Rattle.hypothesis_index.specs.Places.{IsRelation, pair_place, place_of};

use crate::layout::TASK_WORDS;
use crate::pairs::unpair;
use crate::{BitPlace, Relation};

/// The words of all tasks and of 512 names.
const ALL_WORDS: u32 = 8302;

/// Gives the relation of this kind of a pair of tasks; the last bit of a pair has none.
fn task_relation(low: u32, high: u32, kind: u32) -> Option<Relation>
    requires rises { low < high }
    requires small { high < 64 }
    requires one { kind < 4 }
    ensures { MatchOption result (kind ≡ 3)
        (λ r. IsRelation r × (place_of r ≡ pair_place 0 low high kind)) }
{
    match kind {
        0 => Some(Relation::Pipe {
            from: low,
            to: high,
        }),
        1 => Some(Relation::Pipe {
            from: high,
            to: low,
        }),
        2 => Some(Relation::Unshared { low, high }),
        _ => None,
    }
}

/// Gives the relation of this kind of a pair of names.
fn name_relation(low: u32, high: u32, kind: u32) -> Relation
    requires rises { low < high }
    requires small { high < 512 }
    requires one { kind < 4 }
    ensures { IsRelation result × (place_of result ≡ pair_place 126 low high kind) }
{
    match kind {
        0 => Relation::Before {
            first: low,
            second: high,
        },
        1 => Relation::Before {
            first: high,
            second: low,
        },
        2 => Relation::Exclusive { low, high },
        _ => Relation::Apart { low, high },
    }
}

/// The relation that has this place, or `None` where none has it. It takes no memory.
pub fn unplace(place: BitPlace) -> Option<Relation>
    ensures has_it { IfSome result (λ r. IsRelation r × (place_of r ≡ place)) }
    ensures finds { (r : Relation) → IsRelation r → place_of r ≡ place → result ≡ Some r }
{
    if place.bit >= 64 || place.word >= ALL_WORDS {
        return None;
    }
    let kind = place.bit % 4;
    if place.word < TASK_WORDS {
        let (low, high) = unpair(16 * place.word + place.bit / 4);
        task_relation(low, high, kind)
    } else {
        let (low, high) = unpair(16 * (place.word - TASK_WORDS) + place.bit / 4);
        Some(name_relation(low, high, kind))
    }
}
