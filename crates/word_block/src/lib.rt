//! A block of words in raw memory, taken and given back by hand. This crate alone sees a pointer.
#![tactic(auto)]

mod allocation;
mod block;
mod places;

pub use block::WordBlock;
// A crate can name a block in a contract only if the types of its fields are exported.
#[doc(hidden)]
pub use places::{Base, Deed, Places};
