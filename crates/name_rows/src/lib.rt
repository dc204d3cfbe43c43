//! The rows of evidence of two names, by places in a list of names: those of each kind that enough
//! traces support, without orders that follow from others where that is asked, in the order of
//! their support.
#![tactic(auto)]

mod kind;
mod listing;
mod reducing;
mod sorting;

pub use kind::NameKind;
pub use listing::{NameLists, list_rows};
pub use reducing::without_implied;
pub use sorting::sort_rows;
