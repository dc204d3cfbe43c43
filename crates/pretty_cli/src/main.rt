//! Prints the rows of `mystery` for people: numbers in units and in columns, what matters most
//! first, and a line of titles. `pretty_cli COLUMNS` reads the text of a command from standard input
//! and prints each of its rows as one line, cut at so many columns of the terminal. A row of another
//! kind is printed as it is.
#![tactic(auto)]

mod cell;
mod cells;
mod context;
mod cut;
mod dates;
mod durations;
mod fields;
mod header;
mod label;
mod line;
mod place;
mod printing;
mod relation_cells;
mod relation_label;
mod row;
mod titles;

use mystery_io::{RealSink, send_text};
use printing::print_text;
use std::process::ExitCode;
use std::{env, io};
use text_rows::PrintFault;

/// The terminal's columns where the argument tells none.
const DEFAULT_COLUMNS: usize = 80;

/// Reads the argument: how many columns the terminal has.
fn columns_of(rt: &HostRuntime) -> usize {
    let Ok(arguments) = env::args(rt) else {
        return DEFAULT_COLUMNS;
    };
    let mut columns = DEFAULT_COLUMNS;
    for argument in arguments.skip(1) {
        columns = argument.as_str().parse::<usize>().unwrap_or(columns);
    }
    columns
}

/// Reads standard input to its end and prints its rows. The script that starts this program says
/// what a failed write means.
fn main(rt: HostRuntime) -> ExitCode {
    let columns = columns_of(&rt);
    let mut err = RealSink::new(rt.stderr());
    let Ok(text) = io::read_to_string(rt.alloc(), rt.stdin()) else {
        send_text(&mut err, b"read failed\n");
        return ExitCode::from(4);
    };
    let mut out = RealSink::new(rt.stdout());
    match print_text(rt.alloc(), &mut out, text.as_str(), columns) {
        Ok(()) => ExitCode::from(0),
        Err(PrintFault::Memory) => {
            send_text(&mut err, b"out of memory\n");
            ExitCode::from(1)
        }
        Err(PrintFault::Write) => ExitCode::from(5),
    }
}
