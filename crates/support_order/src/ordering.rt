ghost use Rattle.std.specs.Prelude.{◌<◌, ◌^◌, IfOk, length};
ghost use Rattle.support_order.specs.Orders.{IsOrder};

use std::alloc::{AllocError, Global};

/// Lists what the places of some supports are in the order of support, the most first, and those of
/// equal support as they stand: each support with its place, counted from 0. The only error is out
/// of memory.
pub fn order_by_support(alloc: Global, supports: &[u32]) -> Result<Vec<(u32, u32)>, AllocError>
    requires { length supports.now < 2 ^ 32 }
    ensures { IfOk result (λ order. IsOrder supports.now order.items) }
{
    let mut keys = Vec::with_capacity(alloc, supports.len())?;
    'supports: for place in 0..supports.len() {
        keys.push((u32::MAX - supports[place], place as u32))?;
    }
    keys.sort_unstable();
    let mut order = Vec::with_capacity(alloc, keys.len())?;
    'keys: for key in &keys {
        order.push((u32::MAX - key.0, key.1))?;
    }
    Ok(order)
}
