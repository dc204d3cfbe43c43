ghost use Rattle.std.specs.Prelude.{◌≡◌, ◌<◌, ◌++◌, All, length, reverse, IfOk, OnOk};
ghost use Rattle.call_trees.specs.Walks.{IsShallow, walk_through};

use crate::NumberList;
use std::alloc::{AllocError, Global};

/// Puts numbers on a stack, the first one on top.
fn push_reversed(stack: &mut Vec<usize>, numbers: &[usize]) -> Result<(), AllocError>
    ensures { OnOk result (stack.new.items ≡ stack.old.items ++ reverse numbers.now) }
{
    for at in 0..numbers.len() {
        stack.push(numbers[numbers.len() - 1 - at])?;
    }
    Ok(())
}

/// Lists these numbers, each one followed by all below it. The only error is out of memory.
pub fn walk(alloc: Global, below: &[NumberList], roots: &[usize]) -> Result<Vec<usize>, AllocError>
    requires { All (IsShallow below.now (length below.now)) roots.now }
    ensures walk { IfOk result (λ walk. walk.items ≡ walk_through below.now roots.now) }
    ensures within { IfOk result (λ walk. All (λ n. n < length below.now) walk.items) }
{
    let mut walk = Vec::with_capacity(alloc, below.len())?;
    let mut stack = Vec::new(alloc);
    push_reversed(&mut stack, roots)?;
    'steps: while let Some(number) = stack.pop() {
        walk.push(number)?;
        push_reversed(&mut stack, below[number].items())?;
    }
    Ok(walk)
}
