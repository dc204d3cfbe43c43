ghost use Rattle.std.specs.Prelude.{◌≡◌, List, All, IfOk, length};
ghost use Rattle.std.specs.List.{flat_map};
ghost use Rattle.trace_paths.specs.NumberedPaths.{IsNamedPath};
ghost use Rattle.trace_paths.specs.Tables.{IsTableOf};
ghost use Rattle.trace_rules.specs.SlowTraces.{marked, unmarked};
ghost use Rattle.trace_types.specs.declared.named_segment.NamedSegment.{NamedSegment};

use std::alloc::{AllocError, Global};
use trace_paths::DurationTable;
use trace_types::NamedSegmentList;

/// How long segments on critical paths last, by the numbers of their names: on the paths of slow
/// traces, and on those of the rest.
#[derive(Drop)]
pub(crate) struct PathTables {
    pub(crate) slow: DurationTable,
    pub(crate) rest: DurationTable,
}

/// Lists how long the segments on the paths last; there is a mark for each path, `true` where its
/// trace is slow.
pub(crate) fn tabulate_paths(
    alloc: Global,
    names: u32,
    paths: &[NamedSegmentList],
    marks: &[bool],
) -> Result<PathTables, AllocError>
    requires named { All (IsNamedPath names) paths.now }
    requires count { length marks.now ≡ length paths.now }
    ensures slow { IfOk result (λ tables. IsTableOf names
        (flat_map (λ (path : List NamedSegment). path) (marked marks.now paths.now)) tables.slow) }
    ensures rest { IfOk result (λ tables. IsTableOf names
        (flat_map (λ (path : List NamedSegment). path) (unmarked marks.now paths.now))
        tables.rest) }
{
    let mut slow = DurationTable::new(alloc, names)?;
    let mut rest = DurationTable::new(alloc, names)?;
    'paths: for index in 0..paths.len() {
        let path = paths[index].items();
        if marks[index] {
            slow.add(path)?;
        } else {
            rest.add(path)?;
        }
    }
    Ok(PathTables { slow, rest })
}
