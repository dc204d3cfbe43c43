//! Prints what a given digest and the traces of a book of days leave: the model, the report, the
//! report on the slowest, the summary of a session, a forecast and the digest of both. All is found
//! by number, and printed by the texts of the names.
#![tactic(auto)]

mod digest_printing;
mod forecast_printing;
mod forecasting;
mod found_model;
mod gathering;
pub mod laws;
mod model_printing;
mod name_pair;
mod name_pairs;
mod named_rows;
mod report_printing;
mod report_texts;
mod shown;
mod summary_printing;
mod tail_printing;
mod tail_texts;
mod task_pair;
mod task_pairs;

pub use digest_printing::print_digest;
pub use forecast_printing::print_forecasts;
pub use model_printing::print_model;
pub use report_printing::print_report;
pub use summary_printing::print_summary;
pub use tail_printing::print_tail;
