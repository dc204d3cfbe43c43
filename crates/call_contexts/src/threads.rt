ghost use Rattle.std.specs.Prelude.{◌≡◌, ◌<◌, length, IfOk, IfSome};
ghost use Rattle.call_contexts.specs.Contexts.{HaveAbove, frames_of};
ghost use Rattle.call_contexts.specs.Threads.{AreThreads, thread_by};

use crate::Context;
use std::alloc::{AllocError, Global};

/// Gives the thread of a context, from those of the contexts before it.
fn thread_of(threads: &[usize], number: usize, above: Option<usize>, forks: bool) -> usize
    requires { IfSome above (λ a. a < length threads.now) }
    ensures { result ≡ thread_by threads.now number above forks }
{
    match above {
        Some(above) => { if forks { number } else { threads[above] } }
        None => number,
    }
}

/// Gives the thread of each context: the number of the context that it begins with. The only error
/// is out of memory.
pub fn find_threads(
    alloc: Global,
    contexts: &[Context<'_>],
    forked: &[bool],
) -> Result<Vec<usize>, AllocError>
    requires above { HaveAbove (frames_of contexts.now) }
    requires same { length forked.now ≡ length contexts.now }
    ensures { IfOk result (λ threads.
        AreThreads (frames_of contexts.now) forked.now threads.items) }
{
    let mut threads = Vec::with_capacity(alloc, contexts.len())?;
    for at in 0..contexts.len() {
        let thread = thread_of(&threads, at, contexts[at].above, forked[at]);
        threads.push(thread)?;
    }
    Ok(threads)
}
