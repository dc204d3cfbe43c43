//! Tests of books of days, by public calls alone: a book by itself, one with its journal, and a
//! shared book that callers use in turns and in threads.
#![tactic(auto)]

#[cfg(test)]
mod answers;
#[cfg(test)]
mod callers;
#[cfg(test)]
mod day_books;
#[cfg(test)]
mod drawn_days;
#[cfg(test)]
mod entries;
#[cfg(test)]
mod journals;
#[cfg(test)]
mod kept_days;
#[cfg(test)]
mod live_books;
#[cfg(test)]
mod recorders;
#[cfg(test)]
mod services;
#[cfg(test)]
mod threads;
#[cfg(test)]
mod traces;
