//! The names that spans give to tasks, events and machines: texts escaped, cut and numbered.
#![tactic(auto)]

mod base;
mod escaping;
mod folding;
pub mod laws;
mod numbering;
mod piece;

pub use base::make_base;
pub use folding::fold_name;
pub use numbering::numbered_name;
pub use piece::Piece;
