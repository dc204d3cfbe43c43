ghost use Rattle.std.specs.Prelude.{◌≡◌, ◌<◌, All, length, map, IfOk};
ghost use Rattle.context_names.specs.Numbers.{base_at, base_numbers, numbered_names};
ghost use Rattle.context_names.specs.inner.Keys.{lent_bases};

use crate::scattering::scatter;
use call_trees::find_ordinals;
use span_names::numbered_name;
use std::alloc::{AllocError, Global};
use trace_types::Text;

/// Lends the bases of these numbers, in order.
fn lend_bases<'a>(
    alloc: Global,
    order: &[usize],
    bases: &'a [Text],
) -> Result<Vec<&'a str>, AllocError>
    requires { All (λ x. x < length bases.now) order.now }
    ensures { IfOk result (λ lent. lent_bases lent.items ≡ map (base_at bases.now) order.now) }
{
    let mut lent = Vec::with_capacity(alloc, order.len())?;
    for number in order {
        lent.push(bases[*number].as_str())?;
    }
    Ok(lent)
}

/// Gives which of those with its base each of these numbers is, from 1; 0 for any other. The only
/// error is out of memory.
pub(crate) fn number_bases(
    alloc: Global,
    order: &[usize],
    bases: &[Text],
) -> Result<Vec<usize>, AllocError>
    requires { All (λ x. x < length bases.now) order.now }
    ensures { IfOk result (λ numbers. numbers.items ≡ base_numbers bases.now order.now) }
{
    let keys = lend_bases(alloc, order, bases)?;
    let ordinals = find_ordinals(alloc, &keys)?;
    scatter(alloc, order, &ordinals, bases.len())
}

/// Makes the names with these bases and numbers. The only error is out of memory.
pub(crate) fn make_names(
    alloc: Global,
    bases: &[Text],
    numbers: &[usize],
) -> Result<Vec<Text>, AllocError>
    requires { length numbers.now ≡ length bases.now }
    ensures { IfOk result (λ names. names.items ≡ numbered_names bases.now numbers.now) }
{
    let mut names = Vec::with_capacity(alloc, bases.len())?;
    for at in 0..bases.len() {
        names.push(numbered_name(alloc, bases[at].as_str(), numbers[at] as u64, None)?)?;
    }
    Ok(names)
}
