ghost use Rattle.std.specs.Prelude.{◌≡◌, ◌<◌, ℕ, All, Some, length, map, slice_get, IfOk};
ghost use Rattle.call_contexts.specs.ContextOrder.{AreOrdered, all_above, first_of, title_of};
ghost use Rattle.call_contexts.specs.Contexts.{HaveAbove, frame_of, frames_of};
ghost use Rattle.call_contexts.specs.inner.TitleKeys.{title_of_key, titles_of_keys};

use crate::Context;
use crate::title_key::TitleKey;
use call_trees::{NumberList, group_below, order_by, walk};
use std::alloc::{AllocError, Global};

/// Contexts in order, by number.
#[derive(Debug, Drop)]
pub struct ContextOrder {
    /// Each context, followed by all below it.
    pub order: Vec<usize>,
    /// For each context those right below it, by service, operation and ordinal.
    pub below: Vec<NumberList>,
}

/// Gives what a context is ordered by.
fn title_key<'a>(context: &Context<'a>) -> TitleKey<'a>
    ensures { title_of_key result ≡ title_of (frame_of context.now) }
{
    TitleKey {
        service: context.service,
        name: context.name,
        ordinal: context.ordinal,
    }
}

/// Makes the keys of contexts. The only error is out of memory.
fn title_keys<'a>(alloc: Global, contexts: &[Context<'a>]) -> Result<Vec<TitleKey<'a>>, AllocError>
    ensures { IfOk result
        (λ keys. titles_of_keys keys.items ≡ map title_of (frames_of contexts.now)) }
{
    let mut keys = Vec::with_capacity(alloc, contexts.len())?;
    for context in contexts {
        keys.push(title_key(context))?;
    }
    Ok(keys)
}

/// Gives the context above each. The only error is out of memory.
fn list_above(alloc: Global, contexts: &[Context<'_>]) -> Result<Vec<Option<usize>>, AllocError>
    ensures { IfOk result (λ above. above.items ≡ all_above (frames_of contexts.now)) }
{
    let mut above = Vec::with_capacity(alloc, contexts.len())?;
    for context in contexts {
        above.push(context.above)?;
    }
    Ok(above)
}

/// Gives those of these contexts that have none above them, in order. The only error is out of
/// memory.
fn find_first(
    alloc: Global,
    above: &[Option<usize>],
    order: &[usize],
) -> Result<Vec<usize>, AllocError>
    requires { All (λ i. i < length above.now) order.now }
    ensures { IfOk result (λ first. first.items ≡ first_of above.now order.now) }
{
    let mut first = Vec::new(alloc);
    for number in order {
        if above[*number].is_none() {
            first.push(*number)?;
        }
    }
    Ok(first)
}

/// Orders contexts: each one is followed by all below it, which stand by service, operation and
/// ordinal. The only error is out of memory.
pub fn order_contexts(alloc: Global, contexts: &[Context<'_>]) -> Result<ContextOrder, AllocError>
    requires { HaveAbove (frames_of contexts.now) }
    ensures ordered { IfOk result (λ found.
        AreOrdered (frames_of contexts.now) found.order.items found.below.items) }
    ensures within { IfOk result
        (λ found. All (λ i. i < length contexts.now) found.order.items) }
{
    let keys = title_keys(alloc, contexts)?;
    let titled = order_by(alloc, &keys)?;
    let above = list_above(alloc, contexts)?;
    let below = group_below(alloc, &above, &titled)?;
    let first = find_first(alloc, &above, &titled)?;
    let order = walk(alloc, &below, &first)?;
    Ok(ContextOrder { order, below })
}
