//! The quality of the lines of files: which lines are bad, by which member and why, and the events
//! of the others, whatever stands between them.
#![tactic(auto)]

mod bad_line;
mod findings;
mod first_line;
mod judging;
mod line_start;
mod member;
mod member_finding;
mod sorting;

pub use bad_line::BadLine;
pub use findings::Findings;
pub use judging::judge_lines;
pub use member::Member;
