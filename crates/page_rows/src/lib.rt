//! The rows of a page, which `mystery page` is to print, read into lists. A text is read to its page, or
//! to its first line that is no row or stands out of place.
#![tactic(auto)]

mod amount;
mod fields;
mod gain_rows;
mod kind;
mod load_rows;
mod model_rows;
mod number_list;
mod page;
mod page_error;
mod placed_bar;
mod reading;
mod report_rows;
mod row;
mod row_fault;
mod row_forms;
mod row_making;
mod row_order;
mod row_reading;
mod tail_rows;
mod why;

pub use amount::Amount;
pub use gain_rows::{GainRow, RoomRow};
pub use kind::Kind;
pub use load_rows::{BarRow, LoadRow};
pub use model_rows::{BetweenRow, BoxRow, OverlapPart, PipeRow};
pub use number_list::NumberList;
pub use page::Page;
pub use page_error::PageError;
pub use placed_bar::PlacedBar;
pub use reading::read_page;
pub use report_rows::{LatencyRow, RefusedRow, ReportHead, SegmentRow};
pub use row::Row;
pub use tail_rows::{BucketRow, RankRow, TailHead, TailRow};
pub use why::Why;
