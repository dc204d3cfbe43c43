//! Blocks are taken from an allocator and given back to it.
ghost use Rattle.std.specs.Prelude.{◌^◌, ◌<◌, IfOk};
ghost use Rattle.word_block.specs.inner.Handover.{IsNew, IsWhole};

use crate::places::{Base, Deed, Places};
use std::alloc::{AllocError, Allocator};
use std::marker::PhantomData;

/// Takes a block of `len * 8` bytes, and cuts it into `len` empty places.
pub(crate) fn allocate<A: Allocator>(
    alloc: &A,
    len: usize,
) -> Result<(Base, Places, Deed<A>), AllocError>
    requires { len < 2 ^ 60 }
    ensures { IfOk result (λ r. IsNew len alloc.now r.0 r.1 r.2) }
{
    match alloc.allocate(len * 8, 8) {
        Ok(block) => {
            let base = Base {
                ptr: block as *mut u64,
            };
            Ok((
                base,
                Places { mark: PhantomData },
                Deed { mark: PhantomData },
            ))
        }
        Err(error) => Err(error),
    }
}

/// Gives back a whole block, the `len * 8` bytes from its base on, whatever its places hold.
pub(crate) fn deallocate<A: Allocator>(
    alloc: &A,
    base: Base,
    len: usize,
    places: Places,
    deed: Deed<A>,
)
    requires { IsWhole len alloc.now base places deed }
{
    let Places { mark: _ } = places;
    let Deed { mark: _ } = deed;
    unsafe {
        alloc.deallocate(base.ptr as *mut u8, len * 8, 8);
    }
}
