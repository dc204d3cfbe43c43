//! What a page of pictures tells besides the reports, as definitions alone: traces by latency and
//! which of them are shown, their segments as bars, what a name gains, how its slack is spread,
//! the boxes of the model with the relations between them, and the rows of all these as text. They
//! speak of plain lists of traces as any reading has them; the crates above compute them.
#![tactic(auto)]

mod bar;
mod box_relations;
mod load_figures;
mod pick;

pub use bar::Bar;
pub use box_relations::BoxRelations;
pub use load_figures::LoadFigures;
pub use pick::Pick;
