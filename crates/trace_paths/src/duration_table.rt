ghost use Rattle.std.specs.Prelude.{◌≡◌};
ghost use Rattle.trace_rules.specs.Durations.{duration};
ghost use Rattle.trace_types.specs.Parts.{by_number};

use std::alloc::{AllocError, Global};
use std::marker::Model;
use trace_types::NamedSegment;

/// Tells how long a segment lasts, in nanoseconds. It takes no memory.
pub fn duration_of(segment: &NamedSegment) -> u64
    ensures { result ≡ duration by_number segment.now }
{
    segment.end.abs_diff(segment.start)
}

/// How long segments last, in nanoseconds: a list for each number of a name.
#[derive(Drop)]
pub struct DurationTable {
    lists: Vec<Vec<u64>>,
}

impl Model for DurationTable {
    ghost use Rattle.std.specs.Prelude.{List, ℕ, map};
    ghost use Rattle.std.specs.declared.vec.Vec.{Vec};

    ghost Value = { List (List ℕ) };

    ghost view = { λ t. map (λ v. v.items) t.lists.items };
}

impl DurationTable {
    ghost use Rattle.std.specs.Prelude.{◌≡◌, ◌<◌, ◌++◌, [], List, All, IfOk, OnOk, Some, length};
    ghost use Rattle.std.specs.Prelude.{ℕ, ◌≤◌, map, slice_get, take};
    ghost use Rattle.trace_paths.specs.Tables.{IsTableOf};
    ghost use Rattle.trace_types.specs.declared.named_segment.NamedSegment.{NamedSegment};

    /// Makes a table of no segments, for so many names.
    pub fn new(alloc: Global, names: u32) -> Result<DurationTable, AllocError>
        ensures { IfOk result (IsTableOf names []) }
    {
        let mut lists = Vec::with_capacity(alloc, names as usize)?;
        'names: for _number in 0..names {
            lists.push(Vec::new(alloc))?;
        }
        Ok(DurationTable { lists })
    }

    /// Appends how long each of the segments lasts to the list of its name. The only error is that
    /// memory ran out; then the first of the segments are in the table, and the others are not.
    pub fn add(&mut self, segments: &[NamedSegment]) -> Result<(), AllocError>
        requires { All (λ (s : NamedSegment). s.name < length self.old) segments.now }
        ensures added { OnOk result ((before : List NamedSegment)
            → IsTableOf (length self.old) before self.old
            → IsTableOf (length self.old) (before ++ segments.now) self.new) }
        ensures partial { (before : List NamedSegment) → IsTableOf (length self.old) before self.old
            → (count : ℕ) × (count ≤ length segments.now)
            × IsTableOf (length self.old) (before ++ take count segments.now) self.new }
    {
        'segments: for segment in segments {
            let list = &mut self.lists[segment.name as usize];
            list.push(duration_of(segment))?;
        }
        Ok(())
    }

    /// Lends the list of a name.
    pub fn of(&self, name: u32) -> &[u64]
        requires { name < length self.now }
        ensures { slice_get self.now name ≡ Some result.now }
    {
        &self.lists[name as usize]
    }

    /// Gives the lists. It takes no memory.
    pub fn into_lists(self) -> Vec<Vec<u64>>
        ensures { map (λ v. v.items) result.items ≡ self }
    {
        self.lists
    }
}
