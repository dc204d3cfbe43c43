//! The program `mystery import`: event lines of spans, and event lines without waits.
//! `import_run::run` is the whole program; `main` gives it the arguments, the files and the
//! streams, and ends with its status.
#![tactic(auto)]

use import_run::{Outcome, run};
use mystery_io::{RealFiles, RealSink, send_text};
use std::alloc::{AllocError, Global};
use std::env;
use std::io::ErrorKind;
use std::process::ExitCode;
use trace_types::Text;

/// Collects the arguments after the program's name. If one is not UTF-8, the result is one empty
/// argument, which is outside the grammar.
fn collect_arguments(rt: &HostRuntime, alloc: Global) -> Result<Vec<Text>, AllocError> {
    let mut words = Vec::new(alloc);
    match env::args(rt) {
        Ok(args) => {
            for arg in args.skip(1) {
                words.push(Text::new(alloc, arg.as_str())?)?;
            }
        }
        Err(e) if e.kind() == ErrorKind::OutOfMemory => return Err(AllocError),
        Err(_) => words.push(Text::new(alloc, "")?)?,
    }
    Ok(words)
}

/// Runs the program over the real files, standard output and standard error, and ends with its
/// status.
fn main(rt: HostRuntime) -> ExitCode {
    let alloc = rt.alloc();
    let mut err = RealSink::new(rt.stderr());
    let Ok(words) = collect_arguments(&rt, alloc) else {
        send_text(&mut err, Outcome::Memory.message().as_str().as_bytes());
        return ExitCode::from(Outcome::Memory.status());
    };
    let mut files = RealFiles::new(&rt);
    let mut out = RealSink::new(rt.stdout());
    ExitCode::from(run(&rt, alloc, &words, &mut files, &mut out, &mut err))
}
