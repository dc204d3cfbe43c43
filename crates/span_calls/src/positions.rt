ghost use Rattle.std.specs.Prelude.{◌≡◌, ◌<◌, All, None, length, replicate, slice_index_or, IfOk, IfSome};
ghost use Rattle.std.specs.Option.{option_and_then};
ghost use Rattle.call_trees.specs.Tables.{table_of};
ghost use Rattle.span_calls.specs.Calls.{position_at};
ghost use Rattle.span_calls.specs.inner.Places.{place_with, with_place};
ghost use Rattle.span_requests.specs.CallerNumbers.{AreCallers};

use std::alloc::{AllocError, Global};

/// Gives the place of a caller, if there is one.
fn place_of(places: &[Option<usize>], caller: Option<usize>) -> Option<usize>
    requires { IfSome caller (λ c. c < length places.now) }
    ensures { result ≡ option_and_then (λ c. slice_index_or places.now c None) caller }
{
    match caller {
        Some(caller) => places[caller],
        None => None,
    }
}

/// Gives the place of a number that stands at this index too.
fn first_place(place: Option<usize>, at: usize) -> Option<usize>
    ensures { result ≡ place_with place at }
{
    match place {
        Some(first) => Some(first),
        None => Some(at),
    }
}

/// Notes that a number stands at this index.
fn note_place(places: &mut [Option<usize>], number: usize, at: usize)
    requires { number < length places.old }
    ensures { places.new ≡ with_place places.old number at }
{
    places[number] = first_place(places[number], at);
}

/// Gives for each of these numbers where the number of its caller stands first before it, with
/// places to begin with.
fn fill_positions(
    alloc: Global,
    numbers: &[usize],
    callers: &[Option<usize>],
    places: &mut [Option<usize>],
) -> Result<Vec<Option<usize>>, AllocError>
    requires callers { AreCallers callers.now }
    requires within { All (λ n. n < length callers.now) numbers.now }
    requires places { places.old ≡ replicate (length callers.now) None }
    ensures { IfOk result (λ positions. positions.items
        ≡ table_of (position_at callers.now numbers.now) (length numbers.now)) }
{
    let mut positions = Vec::with_capacity(alloc, numbers.len())?;
    for at in 0..numbers.len() {
        let number = numbers[at];
        positions.push(place_of(places, callers[number]))?;
        note_place(places, number, at);
    }
    Ok(positions)
}

/// Gives for each of these numbers where the number of its caller stands first before it. The only
/// error is out of memory.
pub(crate) fn find_positions(
    alloc: Global,
    numbers: &[usize],
    callers: &[Option<usize>],
) -> Result<Vec<Option<usize>>, AllocError>
    requires callers { AreCallers callers.now }
    requires within { All (λ n. n < length callers.now) numbers.now }
    ensures { IfOk result (λ positions. positions.items
        ≡ table_of (position_at callers.now numbers.now) (length numbers.now)) }
{
    let mut places = vec![in alloc; None; callers.len()]?;
    fill_positions(alloc, numbers, callers, &mut places)
}
