//! A book of days with the catalogue of its names: both grow together, so that the book has room
//! for exactly the names of the catalogue.
#![tactic(auto)]

mod kept_book;

pub use kept_book::KeptBook;
