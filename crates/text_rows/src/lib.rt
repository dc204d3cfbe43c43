//! Texts of rows that may be cut short: rows of tab-separated fields, a buffer that is flushed when
//! full, rows of a list of items, texts that were made before, parts that are made one after another,
//! and a sink that keeps a text in memory. What was printed is a text whole, or whole parts in order
//! and then a prefix of one.
#![tactic(auto)]

mod field;
pub mod laws;
mod part_list;
mod print_fault;
mod row_buffer;
mod row_bytes;
mod row_list;
mod row_printing;
mod text_printing;
mod text_sink;

pub use field::Field;
pub use part_list::{PartTexts, Parts, print_parts};
pub use print_fault::PrintFault;
pub use row_buffer::RowBuffer;
pub use row_list::{Rows, print_rows};
pub use row_printing::{flush, print_row};
pub use text_printing::print_texts;
pub use text_sink::TextSink;
