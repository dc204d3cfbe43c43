//! Digests in memory as their tables, and their text.
#![tactic(auto)]

mod digest_table;
mod name_row;
mod row_bytes;
mod task_row;
mod text_making;

pub use digest_table::DigestTable;
pub use name_row::NameRow;
pub use task_row::TaskRow;
pub use text_making::make_text;
