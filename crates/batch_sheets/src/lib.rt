//! A batch of events as sheets of days: its traces are cut and named by many workers, split by day,
//! and recorded day by day by many workers.
#![tactic(auto)]

mod days;
mod judging;
mod known_names;
mod naming;
mod new_days;
mod parts;
mod recording;

pub use days::{DayTraces, list_days, split_by_day};
pub use judging::{JudgedTraces, judge_batch};
pub use naming::name_batch;
pub use new_days::days_with;
pub use recording::{DayLines, RecordedDays, record_days};
