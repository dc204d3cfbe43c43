//! What stands behind the relations that traces leave, as definitions alone: the meetings of two
//! names with their figures, the elements that two tasks share, which pairs are told, in which
//! order, which of them are implied by others, and their rows as text. They speak of lists of traces
//! as any reading has them, by text or by number; the crates above compute them.
#![tactic(auto)]

mod between;
mod choice;
mod meeting;
mod pair_row;
mod sharing;

pub use between::Between;
pub use choice::Choice;
pub use meeting::Meeting;
pub use pair_row::PairRow;
pub use sharing::Sharing;
