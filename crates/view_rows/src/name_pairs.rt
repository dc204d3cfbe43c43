ghost use Rattle.std.specs.Prelude.{◌≡◌, ◌≢◌, ◌↔◌, ◌<◌, ◌++◌, ◌∷◌, [], ℕ, length, IsTrue, IfOk};
ghost use Rattle.std.specs.Prelude.{OnOk, Some, slice_get, if◌then◌else◌};
ghost use Rattle.view_rows.specs.inner.Growing.{AppendsExactly};
ghost use Rattle.kept_names.specs.Listings.{AreItemsBelow};
ghost use Rattle.view_rows.specs.inner.Listings.{IsExclusion, IsOrder};
ghost use Rattle.model_meet.specs.RelationBits.{HasExclusion, HasOrder};
ghost use Rattle.trace_types.specs.Listing.{ListsExactly};
ghost use Rattle.trace_types.specs.NameOrder.{name_cmp, pair_cmp};
ghost use Rattle.trace_types.specs.Segments.{SegmentName};

use crate::name_pair::NamePair;
use kept_names::Listed;
use model_meet::Model;
use std::alloc::{AllocError, Global};
use trace_types::NameText;

/// The pairs of names that the model prints.
#[derive(Debug, Drop)]
pub(crate) struct NamePairs<'a> {
    /// The pairs of which the first happens before the second.
    pub before: Vec<NamePair<'a>>,
    /// The pairs that are mutually exclusive with no fixed order, the lesser name first.
    pub exclusive: Vec<NamePair<'a>>,
}

/// Tells whether the model lists an order of two numbers. None is before itself.
fn is_before(model: &Model<'_>, first: u32, second: u32) -> bool
    requires first { first < model.now.names }
    requires second { second < model.now.names }
    ensures { IsTrue result ↔ HasOrder model.now.words first second }
{
    first != second && model.lists_order(first, second)
}

/// Tells whether the model lists that two different numbers are mutually exclusive with no fixed
/// order, and their names rise.
fn is_exclusive(model: &Model<'_>, rises: bool, first: u32, second: u32) -> bool
    requires first { first < model.now.names }
    requires second { second < model.now.names }
    ensures { IsTrue result ↔ (IsTrue rises × (first ≢ second)
        × HasExclusion model.now.words first second) }
{
    if !rises {
        return false;
    }
    if first == second {
        return false;
    }
    model.lists_exclusion(first, second)
}

/// Appends the pair where it is wanted.
fn push_where<'a>(
    wanted: bool,
    pairs: &mut Vec<NamePair<'a>>,
    first: &Listed<'a, NameText>,
    second: &Listed<'a, NameText>,
) -> Result<(), AllocError>
    ensures { OnOk result (pairs.new.items ≡ (if wanted
        then pairs.old.items ++ (first.now.0, second.now.0) ∷ [] else pairs.old.items)) }
{
    if wanted {
        pairs.push(NamePair {
            first: first.text,
            second: second.text,
        })?;
    }
    Ok(())
}

/// Appends the pairs with the name at this place for the first.
fn add_row<'a>(
    model: &Model<'_>,
    names: &[Listed<'a, NameText>],
    at: usize,
    pairs: &mut NamePairs<'a>,
) -> Result<(), AllocError>
    requires listed { AreItemsBelow name_cmp model.now.names names.now }
    requires within { at < length names.now }
    ensures before { OnOk result ((first : SegmentName × ℕ) → slice_get names.now at ≡ Some first
        → AppendsExactly (pair_cmp name_cmp)
        (λ pair. (pair.0 ≡ first.0) × IsOrder names.now model.now.words pair.0 pair.1)
        pairs.old.before.items pairs.new.before.items) }
    ensures exclusive { OnOk result ((first : SegmentName × ℕ) → slice_get names.now at ≡ Some first
        → AppendsExactly (pair_cmp name_cmp)
        (λ pair. (pair.0 ≡ first.0) × IsExclusion names.now model.now.words pair.0 pair.1)
        pairs.old.exclusive.items pairs.new.exclusive.items) }
{
    let first = &names[at];
    let from = first.number();
    for place in 0..names.len() {
        let second = &names[place];
        let to = second.number();
        let before = is_before(model, from, to);
        let exclusive = is_exclusive(model, at < place, from, to);
        push_where(before, &mut pairs.before, first, second)?;
        push_where(exclusive, &mut pairs.exclusive, first, second)?;
    }
    Ok(())
}

/// Lists the pairs of the names that the model prints, by the first name and then by the second.
/// It asks the model for each ordered pair once. The only error is out of memory.
pub(crate) fn name_pairs<'a>(
    alloc: Global,
    model: &Model<'_>,
    names: &[Listed<'a, NameText>],
) -> Result<NamePairs<'a>, AllocError>
    requires { AreItemsBelow name_cmp model.now.names names.now }
    ensures before { IfOk result (λ pairs. ListsExactly (pair_cmp name_cmp)
        (λ pair. IsOrder names.now model.now.words pair.0 pair.1) pairs.before.items) }
    ensures exclusive { IfOk result (λ pairs. ListsExactly (pair_cmp name_cmp)
        (λ pair. IsExclusion names.now model.now.words pair.0 pair.1) pairs.exclusive.items) }
{
    let mut pairs = NamePairs {
        before: Vec::new(alloc),
        exclusive: Vec::new(alloc),
    };
    for at in 0..names.len() {
        add_row(model, names, at, &mut pairs)?;
    }
    Ok(pairs)
}
