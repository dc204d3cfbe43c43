//! The printed critical paths, slacks and graphs of the traces of a book of days, whose names are
//! numbers of a catalogue.
#![tactic(auto)]

mod book_lists;
mod chunks;
mod commands;
mod graph_texts;
mod laws;
mod numbered_trace;
mod path_texts;
mod prepared_book;
mod slack_texts;
mod trace_texts;
mod vertex_rows;

pub use commands::{print_graphs, print_paths, print_slacks};
