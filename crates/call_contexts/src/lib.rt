//! Calling contexts of calls, their order, and the threads of control that run them.
#![tactic(auto)]

mod context;
mod contexts;
mod like_key;
mod order;
mod threads;
mod title_key;

pub use context::Context;
pub use contexts::{Contexts, find_contexts};
pub use order::{ContextOrder, order_contexts};
pub use threads::find_threads;
