ghost use Rattle.std.specs.Prelude.{◌≡◌, ◌≢◌, ◌<◌, ◌+◌, drop, length};
ghost use Rattle.certificate_rows.specs.inner.Pairs.{number_limit, relation_of_kind, seconds_of};
ghost use Rattle.hypothesis_index.specs.Places.{IsRelation};

use hypothesis_index::Relation;

/// A kind of relations that a certificate lists.
#[derive(Clone, Copy, Debug, PartialEq, Eq)]
pub(crate) enum Kind {
    /// The first name happens before the second.
    Before,
    /// The two names are mutually exclusive.
    Exclusive,
    /// Data elements pass from the first task to the second.
    Pipe,
}

impl Kind {
    /// Makes the relation of this kind between two different numbers.
    pub(crate) fn relation(self, one: u32, other: u32) -> Relation
        requires differ { one ≢ other }
        requires one { one < number_limit self }
        requires other { other < number_limit self }
        ensures relation { result ≡ relation_of_kind self one other }
        ensures placed { IsRelation result }
    {
        match self {
            Kind::Before => Relation::Before {
                first: one,
                second: other,
            },
            Kind::Exclusive => Relation::Exclusive {
                low: one.min(other),
                high: one.max(other),
            },
            Kind::Pipe => Relation::Pipe {
                from: one,
                to: other,
            },
        }
    }

    /// Lends the numbers that are asked beside the one at this index: all of them, or those after
    /// it where the order of the two does not matter.
    pub(crate) fn seconds(self, numbers: &[u32], at: usize) -> &[u32]
        requires { at < length numbers.now }
        ensures { result.now ≡ seconds_of self numbers.now (drop (at + 1) numbers.now) }
    {
        match self {
            Kind::Exclusive => &numbers[at + 1..],
            Kind::Before | Kind::Pipe => numbers,
        }
    }
}
