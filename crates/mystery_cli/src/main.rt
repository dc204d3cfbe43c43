//! The program `mystery`: it learns from logged events how the segments of requests depend on each
//! other. `mystery_run::run_real` is the whole program over the real files and streams; `main` gives
//! it the arguments and ends with its status.
#![tactic(auto)]

use mystery_io::{RealSink, send_text};
use mystery_run::{Outcome, run_real};
use std::alloc::{AllocError, Global};
use std::env;
use std::io::ErrorKind;
use std::process::ExitCode;
use trace_types::Text;

/// Collects the arguments after the program's name. If one is not UTF-8, the result is one empty
/// argument, which is outside the grammar.
fn collect_arguments(rt: &HostRuntime, alloc: Global) -> Result<Vec<Text>, AllocError> {
    let mut words = Vec::new(alloc);
    match env::args(rt) {
        Ok(args) => {
            for arg in args.skip(1) {
                words.push(Text::new(alloc, arg.as_str())?)?;
            }
        }
        Err(e) if e.kind() == ErrorKind::OutOfMemory => return Err(AllocError),
        Err(_) => words.push(Text::new(alloc, "")?)?,
    }
    Ok(words)
}

/// Runs the program over the real files, standard output and standard error, and ends with its
/// status.
fn main(rt: HostRuntime) -> ExitCode {
    let alloc = rt.alloc();
    let Ok(words) = collect_arguments(&rt, alloc) else {
        let mut err = RealSink::new(rt.stderr());
        send_text(&mut err, Outcome::Memory.message().as_str().as_bytes());
        return ExitCode::from(Outcome::Memory.status());
    };
    let (status, _, _, _) = run_real(&rt, alloc, &words, rt.stdout(), rt.stderr());
    ExitCode::from(status)
}
