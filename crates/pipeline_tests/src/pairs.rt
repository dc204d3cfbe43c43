ghost use Rattle.std.specs.Prelude.{◌≡◌, ◌+◌, ◌<◌, ◌||◌, ℕ, IsTrue, List, OnOk};
ghost use Rattle.hypothesis_index.specs.Refuting.{RefutesTasks};
ghost use Rattle.pipeline_tests.specs.inner.Groups.{IsGroup};
ghost use Rattle.pipeline_tests.specs.inner.Meetings.{IsSharing, Meeting};
ghost use Rattle.pipeline_tests.specs.inner.Pairs.{IsBetween, pair_hits, task_word};
ghost use Rattle.refute_tests.specs.Clearing.{AddsExactly};
ghost use Rattle.word_rows.specs.Rows.{below, clears};

use crate::groups::TaskStays;
use crate::meetings::{Sharing, compare};
use hypothesis_index::Relation;
use refute_tests::clear_if;
use std::alloc::AllocError;
use trace_types::NamedTrace;
use word_rows::RowMaker;

/// Clears what two tasks refute, given how they handle the elements of both.
fn clear_hits(
    maker: &mut RowMaker,
    sharing: &Sharing,
    low: u32,
    high: u32,
) -> Result<(), AllocError>
    requires rises { low < high }
    requires small { high < 64 }
    requires no_later { IsTrue (below (task_word low high + 1) maker.old) }
    ensures cleared { OnOk result ((grace : ℕ) (met : List Meeting) → IsSharing grace met sharing.now
        → (i b : ℕ)
        → clears maker.new i b ≡ (clears maker.old i b || pair_hits grace met low high i b)) }
    ensures no_later { OnOk result (IsTrue (below (task_word low high + 1) maker.new)) }
{
    clear_if(
        maker,
        sharing.upward | sharing.turned,
        Relation::Pipe {
            from: low,
            to: high,
        },
    )?;
    clear_if(
        maker,
        sharing.downward | sharing.turned,
        Relation::Pipe {
            from: high,
            to: low,
        },
    )?;
    clear_if(maker, sharing.shared, Relation::Unshared { low, high })?;
    Ok(())
}

/// Clears what two tasks refute, the first of which has the lesser number.
pub(crate) fn clear_pair(
    maker: &mut RowMaker,
    trace: &NamedTrace,
    low: &TaskStays<'_>,
    high: &TaskStays<'_>,
) -> Result<(), AllocError>
    requires low { IsGroup trace.now low.now }
    requires high { IsGroup trace.now high.now }
    requires rises { low.now.task < high.now.task }
    requires no_later { IsTrue (below (task_word low.now.task high.now.task + 1) maker.old) }
    ensures cleared { OnOk result (AddsExactly maker.old
        (λ r. IsBetween low.now.task high.now.task r × RefutesTasks r trace.now) maker.new) }
    ensures no_later { OnOk result
        (IsTrue (below (task_word low.now.task high.now.task + 1) maker.new)) }
{
    let sharing = compare(low.stays, high.stays, trace.grace);
    clear_hits(maker, &sharing, low.task, high.task)?;
    Ok(())
}
