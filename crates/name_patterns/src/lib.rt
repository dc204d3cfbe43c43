//! The pattern of a text: what is left of it where ids may stand, as in `GET /user/17`. Texts of one
//! pattern are a family: they differ in ids alone.
#![tactic(auto)]

mod families;
mod pattern;

pub use families::find_families;
pub use pattern::push_pattern;
