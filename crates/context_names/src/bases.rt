ghost use Rattle.std.specs.Prelude.{◌≡◌, ◌<◌, map, string_bytes, IfOk};
ghost use Rattle.call_contexts.specs.Contexts.{frame_of, frames_of};
ghost use Rattle.context_names.specs.Bases.{base_within, plain_name};

use call_contexts::Context;
use span_names::make_base;
use std::alloc::{AllocError, Global};
use trace_types::Text;

/// Makes the service and the operation of a context.
fn plain_name(alloc: Global, context: &Context<'_>) -> Result<String, AllocError>
    ensures { IfOk result (λ name. string_bytes name ≡ plain_name (frame_of context.now)) }
{
    let mut name = String::from_str(alloc, context.service)?;
    name.push(' ')?;
    name.push_str(context.name)?;
    Ok(name)
}

/// Makes the base of the name of a context, of so many bytes at most.
fn make_base_of(alloc: Global, context: &Context<'_>, most: usize) -> Result<Text, AllocError>
    requires { 0 < most }
    ensures { IfOk result (λ base. base ≡ base_within most (frame_of context.now)) }
{
    let name = plain_name(alloc, context)?;
    let base = make_base(alloc, name.as_str(), most)?;
    Text::new(alloc, base.as_str())
}

/// Makes the bases of the names of contexts, of so many bytes at most. The only error is out of
/// memory.
pub(crate) fn make_bases(
    alloc: Global,
    contexts: &[Context<'_>],
    most: usize,
) -> Result<Vec<Text>, AllocError>
    requires { 0 < most }
    ensures { IfOk result
        (λ bases. bases.items ≡ map (base_within most) (frames_of contexts.now)) }
{
    let mut bases = Vec::with_capacity(alloc, contexts.len())?;
    for context in contexts {
        bases.push(make_base_of(alloc, context, most)?)?;
    }
    Ok(bases)
}
