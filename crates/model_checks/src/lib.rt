//! Tests from the lines of an input to the printed relations and graphs, by public calls alone.
//! `plain_model` is the definitions' plain program for the relations: for each pair of names it asks
//! every trace. Tests compare what the words of a table tell with it, on drawn lists of traces.
#![tactic(auto)]

mod distinct_names;
mod distinct_tasks;
#[cfg(test)]
mod graph_tests;
#[cfg(test)]
mod inputs;
#[cfg(test)]
mod limit_tests;
#[cfg(test)]
mod model_texts;
mod pair_lists;
mod plain;
#[cfg(test)]
mod plain_model_tests;
mod plain_pair;
mod plain_pair_list;
#[cfg(test)]
mod plain_tests;
mod refuted;
mod standing;
#[cfg(test)]
mod tests;
#[cfg(test)]
mod worked_inputs;
