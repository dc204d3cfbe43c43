ghost use Rattle.std.specs.Prelude.{◌≡◌, ◌↔◌, true};
ghost use Rattle.hypothesis_index.specs.Refuting.{Refutes};

use crate::names::{refutes_apart, refutes_before, refutes_exclusive};
use crate::pipes::{refutes_pipe, refutes_unshared};
use hypothesis_index::Relation;
use trace_types::NamedTrace;

/// Tells whether a trace refutes a relation, straight from its times, in time of at most the square
/// of its segments. It takes no memory.
pub fn refutes(trace: &NamedTrace, relation: Relation) -> bool
    ensures { (result ≡ true) ↔ Refutes relation trace.now }
{
    match relation {
        Relation::Before { first, second } => refutes_before(trace, first, second),
        Relation::Exclusive { low, high } => refutes_exclusive(trace, low, high),
        Relation::Apart { low, high } => refutes_apart(trace, low, high),
        Relation::Pipe { from, to } => refutes_pipe(trace, from, to),
        Relation::Unshared { low, high } => refutes_unshared(trace, low, high),
    }
}
