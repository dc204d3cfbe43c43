ghost use Rattle.std.specs.Prelude.{◌≡◌, ◌↔◌, ℕ, None, IfSome, MatchOption};
ghost use Rattle.counterexamples.specs.Findings.{IsFirstRefuter};
ghost use Rattle.counterexamples.specs.inner.Firsts.{IsFirstOf};
ghost use Rattle.day_partitions.specs.Books.{all_traces};
ghost use Rattle.hypothesis_index.specs.Refuting.{Refutes};
ghost use Rattle.trace_types.specs.Surviving.{Survives};

use crate::{Finding, refutes};
use day_partitions::DayBook;
use hypothesis_index::Relation;
use trace_types::NamedTrace;

/// Finds the index of the first of the traces that refutes the relation.
fn find_among(traces: &[NamedTrace], relation: Relation) -> Option<usize>
    ensures { MatchOption result (Survives (Refutes relation) traces.now)
        (IsFirstOf relation traces.now) }
{
    'traces: for index in 0..traces.len() {
        if refutes(&traces[index], relation) {
            return Some(index);
        }
    }
    None
}

/// Finds the first kept trace of a book that refutes a relation, by day, and within a day in the
/// order in which the traces were taken. It takes no memory.
pub fn find(book: &DayBook, relation: Relation) -> Option<Finding>
    ensures none { (result ≡ None) ↔ Survives (Refutes relation) (all_traces book.now.days) }
    ensures first { IfSome result (IsFirstRefuter book.now.days relation) }
{
    'days: for place in 0..book.days() {
        if let Some(index) = find_among(book.traces(place), relation) {
            return Some(Finding {
                place,
                index: index as u32,
            });
        }
    }
    None
}
