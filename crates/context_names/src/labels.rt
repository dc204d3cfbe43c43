ghost use Rattle.std.specs.Prelude.{◌≡◌, ◌<◌, All, length, map, IfOk};
ghost use Rattle.call_contexts.specs.Contexts.{frames_of};
ghost use Rattle.context_names.specs.Bases.{event_base};
ghost use Rattle.context_names.specs.Labels.{label_at, label_numbers, labels_of};
ghost use Rattle.context_names.specs.inner.Keys.{labels_of_keys};

use crate::bases::make_bases;
use crate::label_key::LabelKey;
use crate::numbers::make_names;
use crate::scattering::scatter;
use call_contexts::Context;
use call_trees::find_ordinals;
use std::alloc::{AllocError, Global};
use trace_types::Text;

/// The most bytes of the base of a label.
const MOST: usize = 48;

/// Makes the keys of the labels of contexts, in their order.
fn label_keys<'a>(
    alloc: Global,
    order: &[usize],
    threads: &[usize],
    bases: &'a [Text],
) -> Result<Vec<LabelKey<'a>>, AllocError>
    requires same { length threads.now ≡ length bases.now }
    requires within { All (λ x. x < length bases.now) order.now }
    ensures { IfOk result (λ keys.
        labels_of_keys keys.items ≡ map (label_at threads.now bases.now) order.now) }
{
    let mut keys = Vec::with_capacity(alloc, order.len())?;
    for number in order {
        keys.push(LabelKey {
            thread: threads[*number],
            base: bases[*number].as_str(),
        })?;
    }
    Ok(keys)
}

/// Gives the number of each context among those of its thread with its base.
fn number_labels(
    alloc: Global,
    order: &[usize],
    threads: &[usize],
    bases: &[Text],
) -> Result<Vec<usize>, AllocError>
    requires same { length threads.now ≡ length bases.now }
    requires within { All (λ x. x < length bases.now) order.now }
    ensures { IfOk result (λ numbers.
        numbers.items ≡ label_numbers order.now threads.now bases.now) }
{
    let keys = label_keys(alloc, order, threads, bases)?;
    let ordinals = find_ordinals(alloc, &keys)?;
    scatter(alloc, order, &ordinals, bases.len())
}

/// Names each context, in its thread. The only error is out of memory.
pub fn name_contexts(
    alloc: Global,
    contexts: &[Context<'_>],
    order: &[usize],
    threads: &[usize],
) -> Result<Vec<Text>, AllocError>
    requires same { length threads.now ≡ length contexts.now }
    requires within { All (λ x. x < length contexts.now) order.now }
    ensures { IfOk result (λ labels. labels.items
        ≡ labels_of order.now threads.now (map event_base (frames_of contexts.now))) }
{
    let bases = make_bases(alloc, contexts, MOST)?;
    let numbers = number_labels(alloc, order, threads, &bases)?;
    make_names(alloc, &bases, &numbers)
}
