ghost use Rattle.std.specs.Prelude.{◌≡◌, ◌++◌, ◌∷◌, [], Contains, map, if◌then◌else◌, IfOk, OnOk};
ghost use Rattle.trace_types.specs.Listing.{ListsExactly};
ghost use Rattle.trace_types.specs.NameOrder.{name_cmp, pair_cmp};
ghost use Rattle.trace_types.specs.Parts.{by_text, segments_of};
ghost use Rattle.trace_types.specs.Relations.{HappensBefore, ExcludesUnordered};
ghost use Rattle.trace_types.specs.Segments.{name_of};
ghost use Rattle.model_checks.specs.inner.Growing.{AppendsExactly};

use crate::plain_pair::PlainPair;
use crate::refuted::refuted_row;
use crate::standing::standing_of;
use std::alloc::{AllocError, Global};
use trace_types::{NameText, Trace};

/// The pairs of the model's two kinds of lines.
#[derive(Debug, Drop)]
pub(crate) struct PairLists {
    /// The pairs of which the first happens before the second.
    pub before: Vec<PlainPair>,
    /// The pairs that are mutually exclusive in no fixed order.
    pub exclusive: Vec<PlainPair>,
}

/// Appends the pair where it is wanted.
fn push_where(
    alloc: Global,
    wanted: bool,
    pairs: &mut Vec<PlainPair>,
    first: &NameText,
    second: &NameText,
) -> Result<(), AllocError>
    ensures { OnOk result (pairs.new.items
        ≡ (if wanted then pairs.old.items ++ (first.now, second.now) ∷ [] else pairs.old.items)) }
{
    if wanted {
        pairs.push(PlainPair {
            first: first.copy(alloc)?,
            second: second.copy(alloc)?,
        })?;
    }
    Ok(())
}

/// Appends the pairs with this first name.
fn add_row(
    alloc: Global,
    traces: &[Trace],
    names: &[NameText],
    first: &NameText,
    lists: &mut PairLists,
) -> Result<(), AllocError>
    requires { ListsExactly name_cmp
        (Contains (map name_of (segments_of by_text traces.now))) names.now }
    ensures before { OnOk result (AppendsExactly (pair_cmp name_cmp)
        (λ pair. (pair.0 ≡ first.now) × HappensBefore by_text traces.now pair.0 pair.1)
        lists.old.before.items lists.new.before.items) }
    ensures exclusive { OnOk result (AppendsExactly (pair_cmp name_cmp)
        (λ pair. (pair.0 ≡ first.now) × ExcludesUnordered by_text name_cmp traces.now pair.0 pair.1)
        lists.old.exclusive.items lists.new.exclusive.items) }
{
    let row = refuted_row(alloc, traces, first, names)?;
    for place in 0..names.len() {
        let second = &names[place];
        let standing = standing_of(row[place], first, second);
        push_where(
            alloc,
            standing.happens_before,
            &mut lists.before,
            first,
            second,
        )?;
        push_where(
            alloc,
            standing.excludes_unordered,
            &mut lists.exclusive,
            first,
            second,
        )?;
    }
    Ok(())
}

/// Lists the pairs of the names, by the first name and then by the second.
pub(crate) fn pair_lists(
    alloc: Global,
    traces: &[Trace],
    names: &[NameText],
) -> Result<PairLists, AllocError>
    requires { ListsExactly name_cmp
        (Contains (map name_of (segments_of by_text traces.now))) names.now }
    ensures before { IfOk result (λ lists. ListsExactly (pair_cmp name_cmp)
        (λ pair. HappensBefore by_text traces.now pair.0 pair.1) lists.before.items) }
    ensures exclusive { IfOk result (λ lists. ListsExactly (pair_cmp name_cmp)
        (λ pair. ExcludesUnordered by_text name_cmp traces.now pair.0 pair.1)
        lists.exclusive.items) }
{
    let mut lists = PairLists {
        before: Vec::new(alloc),
        exclusive: Vec::new(alloc),
    };
    for first in names {
        add_row(alloc, traces, names, first, &mut lists)?;
    }
    Ok(lists)
}
