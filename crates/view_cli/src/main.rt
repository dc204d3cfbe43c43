//! The program `mystery view`: the rows of a page drawn as one file of HTML.
//! `view_run::run` is the whole program; `main` gives it the arguments, the files and the
//! streams, and ends with its status.
#![tactic(auto)]

use mystery_io::{RealFiles, RealSink, send_text};
use std::alloc::{AllocError, Global};
use std::env;
use std::io::ErrorKind;
use std::process::ExitCode;
use trace_types::Text;
use view_run::run;

/// Collects the arguments after the program's name. If one is not UTF-8, the result is one empty
/// argument, which is outside the grammar.
fn collect_arguments(rt: &HostRuntime, alloc: Global) -> Result<Vec<Text>, AllocError> {
    let mut words = Vec::new(alloc);
    match env::args(rt) {
        Ok(args) => {
            for arg in args.skip(1) {
                words.push(Text::new(alloc, arg.as_str())?)?;
            }
        }
        Err(e) if e.kind() == ErrorKind::OutOfMemory => return Err(AllocError),
        Err(_) => words.push(Text::new(alloc, "")?)?,
    }
    Ok(words)
}

/// Runs the program over the real files, standard output and standard error, and ends with its
/// status.
fn main(rt: HostRuntime) -> ExitCode {
    let alloc = rt.alloc();
    let mut err = RealSink::new(rt.stderr());
    let Ok(words) = collect_arguments(&rt, alloc) else {
        send_text(&mut err, b"out of memory\n");
        return ExitCode::from(1);
    };
    let mut files = RealFiles::new(&rt);
    let mut out = RealSink::new(rt.stdout());
    ExitCode::from(run(alloc, &words, &mut files, &mut out, &mut err))
}
