ghost use Rattle.std.specs.Prelude.{◌≡◌, IfOk};
ghost use Rattle.std.specs.List.{range_with_len};
ghost use Rattle.context_forks.specs.Forks.{callers_of, calls_below};
ghost use Rattle.span_calls.specs.Calls.{AreBefore};

use call_trees::{NumberList, group_below};
use span_calls::Call;
use std::alloc::{AllocError, Global};

/// Gives the callers of calls. The only error is out of memory.
fn callers_of(alloc: Global, calls: &[Call<'_>]) -> Result<Vec<Option<usize>>, AllocError>
    ensures { IfOk result (λ callers. callers.items ≡ callers_of calls.now) }
{
    let mut callers = Vec::with_capacity(alloc, calls.len())?;
    for call in calls {
        callers.push(call.caller)?;
    }
    Ok(callers)
}

/// Gives the numbers up to a bound, in order.
fn all_numbers(alloc: Global, count: usize) -> Result<Vec<usize>, AllocError>
    ensures { IfOk result (λ numbers. numbers.items ≡ range_with_len 0 count) }
{
    let mut numbers = Vec::with_capacity(alloc, count)?;
    for at in 0..count {
        numbers.push(at)?;
    }
    Ok(numbers)
}

/// Gives for each call the calls that it makes, in order. The only error is out of memory.
pub fn calls_below(alloc: Global, calls: &[Call<'_>]) -> Result<Vec<NumberList>, AllocError>
    requires { AreBefore calls.now }
    ensures { IfOk result (λ below. below.items ≡ calls_below calls.now) }
{
    let callers = callers_of(alloc, calls)?;
    let order = all_numbers(alloc, calls.len())?;
    group_below(alloc, &callers, &order)
}
