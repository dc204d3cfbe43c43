ghost use Rattle.std.specs.Prelude.{◌≡◌, ◌↔◌, true};
ghost use Rattle.counterexamples.specs.ShownClaims.{IsShownClaim, matter_numbers};
ghost use Rattle.counterexamples.specs.ShownClaims.{relation_between, relation_of};
ghost use Rattle.day_partitions.specs.Books.{traces_kept_on};

use crate::refutes;
use certificates::{Claim, Matter};
use day_partitions::DayBook;
use hypothesis_index::Relation;
use segment_names::Catalogue;
use trace_types::NamedTrace;

/// Finds the numbers of the two names or tasks; none where the catalogue lacks one.
fn matter_numbers(catalogue: &Catalogue, matter: &Matter) -> Option<(u32, u32)>
    ensures { result ≡ matter_numbers catalogue.now matter.now }
{
    match matter {
        Matter::Before { first, second } | Matter::Exclusive { first, second } => {
            Some((catalogue.find(first)?, catalogue.find(second)?))
        }
        Matter::Pipe { from, to } => Some((catalogue.find_task(from)?, catalogue.find_task(to)?)),
    }
}

/// Makes the relation between the two numbers.
fn relation_between(matter: &Matter, one: u32, other: u32) -> Relation
    ensures { result ≡ relation_between matter.now one other }
{
    match matter {
        Matter::Before { .. } => Relation::Before {
            first: one,
            second: other,
        },
        Matter::Exclusive { .. } => Relation::Exclusive {
            low: one.min(other),
            high: one.max(other),
        },
        Matter::Pipe { .. } => Relation::Pipe {
            from: one,
            to: other,
        },
    }
}

/// Finds the relation under the numbers of a catalogue; none where it lacks one of the two, or they
/// are one.
fn relation_of(catalogue: &Catalogue, matter: &Matter) -> Option<Relation>
    ensures { result ≡ relation_of catalogue.now matter.now }
{
    let (one, other) = matter_numbers(catalogue, matter)?;
    if one == other {
        return None;
    }
    Some(relation_between(matter, one, other))
}

/// Lends the traces of a day; none where it is not kept.
fn traces_of(book: &DayBook, day: u32) -> &[NamedTrace]
    ensures { result.now ≡ traces_kept_on book.now.days day }
{
    'days: for place in 0..book.days() {
        if book.day(place) == day {
            return book.traces(place);
        }
    }
    &[]
}

/// Tells whether the kept traces of a book show a claim, under the numbers of a catalogue: the
/// trace of the claim's day and index has its request and refutes its relation. The trace need not
/// be the first that does. It takes no memory.
pub fn shown(book: &DayBook, catalogue: &Catalogue, claim: &Claim) -> bool
    ensures { (result ≡ true) ↔ IsShownClaim catalogue.now book.now.days claim.now }
{
    let Some(relation) = relation_of(catalogue, &claim.matter) else {
        return false;
    };
    let Some(trace) = traces_of(book, claim.day).get(claim.index as usize) else {
        return false;
    };
    trace.request == claim.request && refutes(trace, relation)
}
