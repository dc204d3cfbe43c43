ghost use Rattle.std.specs.Prelude.{◌≡◌, ◌==◌, ◌<◌, ◌++◌, ◌∷◌, [], if◌then◌else◌, length, IfOk, IfSome, OnOk};
ghost use Rattle.std.specs.Prelude.{slice_index_or};
ghost use Rattle.std.specs.List.{position_or_len};
ghost use Rattle.call_contexts.specs.Contexts.{AreContexts, above_by, frame_eq, frame_of, frames_of};
ghost use Rattle.call_contexts.specs.Contexts.{frame_at, like_of, ordinal_by, ordinals_among};
ghost use Rattle.call_contexts.specs.inner.LikeKeys.{like_of_key};
ghost use Rattle.call_contexts.specs.inner.Numbering.{AreSoFar, with_frame};
ghost use Rattle.span_calls.specs.Calls.{AreBefore};

use crate::Context;
use crate::like_key::LikeKey;
use call_trees::find_ordinals;
use indexmap::IndexSet;
use span_calls::Call;
use std::alloc::{AllocError, Global};

/// The calling contexts of calls, numbered from 0 in the order of first sight.
#[derive(Debug, Drop)]
pub struct Contexts<'a> {
    /// The contexts.
    pub contexts: Vec<Context<'a>>,
    /// The number of the context of each call.
    pub numbers: Vec<usize>,
}

/// Gives what a call is alike others by.
fn like_key<'a>(call: &Call<'a>) -> LikeKey<'a>
    ensures { like_of_key result ≡ like_of call.now }
{
    LikeKey {
        caller: call.caller,
        service: call.span.service.as_str(),
        name: call.span.name.as_str(),
    }
}

/// Gives which of its like each call is. The only error is out of memory.
fn like_ordinals(alloc: Global, calls: &[Call<'_>]) -> Result<Vec<usize>, AllocError>
    ensures { IfOk result (λ ordinals. ordinals.items ≡ ordinals_among calls.now) }
{
    let mut keys = Vec::with_capacity(alloc, calls.len())?;
    for call in calls {
        keys.push(like_key(call))?;
    }
    find_ordinals(alloc, &keys)
}

/// Gives the number of the caller's context.
fn above_of(numbers: &[usize], caller: Option<usize>) -> Option<usize>
    requires { IfSome caller (λ c. c < length numbers.now) }
    ensures { result ≡ above_by numbers.now caller }
{
    match caller {
        Some(caller) => Some(numbers[caller]),
        None => None,
    }
}

/// Gives which of its like a call is: an entry is the first.
fn ordinal_of(caller: Option<usize>, ordinal: usize) -> usize
    ensures { result ≡ ordinal_by caller ordinal }
{
    match caller {
        Some(_) => ordinal,
        None => 1,
    }
}

/// Makes the context of a call.
fn context_of<'a>(call: &Call<'a>, numbers: &[usize], ordinal: usize) -> Context<'a>
    requires { IfSome call.now.caller (λ c. c < length numbers.now) }
    ensures { frame_of result ≡ frame_at numbers.now ordinal call.now }
{
    Context {
        above: above_of(numbers, call.caller),
        service: call.span.service.as_str(),
        name: call.span.name.as_str(),
        ordinal: ordinal_of(call.caller, ordinal),
    }
}

/// Gives the number of a context in the order of first sight, from 0; a new one is put last.
fn number_context<'a>(
    seen: &mut IndexSet<Context<'a>>,
    context: Context<'a>,
) -> Result<usize, AllocError>
    ensures seen { OnOk result
        (frames_of seen.new.keys ≡ with_frame (frames_of seen.old.keys) (frame_of context.entry)) }
    ensures number { IfOk result (λ n.
        n ≡ position_or_len (frame_eq (frame_of context.entry)) (frames_of seen.old.keys)) }
{
    let (number, _) = seen.insert_full(context)?;
    Ok(number)
}

/// Appends a context, if its number is the next one.
fn push_new<'a>(
    contexts: &mut Vec<Context<'a>>,
    context: Context<'a>,
    number: usize,
) -> Result<(), AllocError>
    ensures { OnOk result (frames_of contexts.new.items
        ≡ (if number == length contexts.old.items
        then frames_of contexts.old.items ++ frame_of context.entry ∷ []
        else frames_of contexts.old.items)) }
{
    if number == contexts.len() {
        contexts.push(context)?;
    }
    Ok(())
}

/// Numbers the contexts of calls, by which of its like each call is.
fn number_contexts<'a>(
    alloc: Global,
    calls: &[Call<'a>],
    ordinals: &[usize],
) -> Result<Contexts<'a>, AllocError>
    requires before { AreBefore calls.now }
    requires same { length ordinals.now ≡ length calls.now }
    ensures { IfOk result (λ found. AreSoFar calls.now ordinals.now (length calls.now)
        found.numbers.items (frames_of found.contexts.items)) }
{
    let mut seen = IndexSet::new(alloc);
    let mut contexts = Vec::new(alloc);
    let mut numbers = Vec::with_capacity(alloc, calls.len())?;
    for at in 0..calls.len() {
        let context = context_of(&calls[at], &numbers, ordinals[at]);
        let number = number_context(&mut seen, context)?;
        push_new(&mut contexts, context, number)?;
        numbers.push(number)?;
    }
    Ok(Contexts { contexts, numbers })
}

/// Numbers the contexts of calls. The only error is out of memory.
pub fn find_contexts<'a>(alloc: Global, calls: &[Call<'a>]) -> Result<Contexts<'a>, AllocError>
    requires { AreBefore calls.now }
    ensures { IfOk result (λ found.
        AreContexts calls.now found.numbers.items (frames_of found.contexts.items)) }
{
    let ordinals = like_ordinals(alloc, calls)?;
    number_contexts(alloc, calls, &ordinals)
}
