//! Markup: fixed text, names that are escaped, numbers, times, shares and places, appended to bytes
//! one behind the other. No name can begin or end an element or an attribute, and no two names are
//! written alike.
#![tactic(auto)]

mod escaping;
pub mod laws;
mod numbers;
mod piece;
mod share;
mod times;

pub(crate) use escaping::push_name;
pub use numbers::push_fixed;
pub(crate) use numbers::{push_number, push_place};
pub use piece::{Piece, push_pieces};
pub use share::Share;
pub(crate) use times::{push_share, push_time};
