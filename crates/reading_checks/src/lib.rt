//! Tests of how files are read, by public calls alone: events as numbers beside their texts, printed
//! certificates, and files of steps with the plain machine that makes them.
#![tactic(auto)]

#[cfg(test)]
mod claims;
#[cfg(test)]
mod gathering;
#[cfg(test)]
mod machine;
#[cfg(test)]
mod plain_events;
#[cfg(test)]
mod step_files;
#[cfg(test)]
mod texts;
