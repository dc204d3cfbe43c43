//! Numbers in order: which stand below which, walks from each one through those below it, and which
//! of its like each one is.
#![tactic(auto)]

mod grouping;
mod number_list;
mod ordering;
mod ordinals;
mod walking;

pub use grouping::group_below;
pub use number_list::NumberList;
pub use ordering::order_by;
pub use ordinals::find_ordinals;
pub use walking::walk;
