ghost use Rattle.std.specs.Prelude.{◌≡◌, ◌∷◌, [], IfOk, List, ℕ, length, map};
ghost use Rattle.trace_types.specs.Segments.{SegmentName, name_of, task_of};
ghost use Rattle.digest_facts.specs.Digests.{Digest};
ghost use Rattle.digest_merging.specs.Merges.{IsGivenTable, IsTableOf};
ghost use Rattle.judged_books.specs.GivenDigests.{known_of};

use digest_text::DigestTable;
use segment_names::Catalogue;
use std::alloc::{AllocError, Global};
use trace_types::{NameText, Segment, SegmentList, Text, Trace};

/// Makes a trace of one segment that has this name, by which a catalogue takes the name in.
fn trace_named(alloc: Global, name: &NameText) -> Result<Trace, AllocError>
    ensures names { IfOk result (λ t. map name_of t.segments ≡ name.now ∷ []) }
    ensures tasks { IfOk result (λ t. map task_of t.segments ≡ name.now.0 ∷ []) }
    ensures one { IfOk result (λ t. length t.segments ≡ 1) }
{
    let segment = Segment {
        task: name.task.copy(alloc)?,
        start_event: name.start.copy(alloc)?,
        end_event: name.end.copy(alloc)?,
        start: 0,
        end: 0,
        element: None,
    };
    let mut segments = Vec::with_capacity(alloc, 1)?;
    segments.push(segment)?;
    Ok(Trace {
        request: Text::new(alloc, "")?,
        day: 0,
        latency: 0,
        segments: SegmentList::of(segments),
    })
}

/// Makes the catalogue of a given digest's names and tasks. They are within its limits, so the only
/// error is out of memory.
pub(crate) fn list_given(alloc: Global, table: &DigestTable) -> Result<Catalogue, AllocError>
    requires { IsGivenTable table.now }
    ensures { IfOk result (λ catalogue. (given : Digest SegmentName (List ℕ))
        → IsTableOf given table.now → catalogue ≡ known_of given) }
{
    let mut catalogue = Catalogue::new(alloc);
    'rows: for row in &table.names {
        let trace = trace_named(alloc, &row.name)?;
        let Ok(()) = catalogue.add(alloc, &trace) else {
            return Err(AllocError);
        };
    }
    Ok(catalogue)
}
