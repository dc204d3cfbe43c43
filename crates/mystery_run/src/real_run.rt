ghost use Rattle.std.specs.Prelude.{◌≡◌, ◌==◌, ◌⊎◌, [], if◌then◌else◌};
ghost use Rattle.mystery_io.specs.RealObjects.{file_faults, files_given, open_calls, sink_faults};
ghost use Rattle.mystery_io.specs.RealObjects.{sink_taken};
ghost use Rattle.mystery_run.specs.CommandLines.{all_files_of};
ghost use Rattle.mystery_run.specs.Endings.{PassesFirst};
ghost use Rattle.mystery_run.specs.Messages.{message_of, status_of};
ghost use Rattle.mystery_run.specs.RealRuns.{IsSent, real_run_seen};
ghost use Rattle.mystery_run.specs.Runs.{Explains, OfInputs};
ghost use Rattle.mystery_run.specs.declared.outcome.Outcome.{Outcome};

use crate::run;
use mystery_io::{OpenGate, RealFiles, RealSink};
use std::alloc::Global;
use std::rt::{Files, Stderr, Stdout};
use std::thread::Threads;
use trace_types::Text;

/// Runs the program over the real files, standard output and standard error, and gives the exit
/// status and these objects, which tell in proofs what the run's calls of them gave and took.
///
/// It is `run` with fresh objects and an open gate: the theorem on the program, with nothing left to
/// choose.
pub fn run_real<'r, R: Threads + Sync + Files>(
    rt: &'r R,
    alloc: Global,
    words: &[Text],
    out: Stdout,
    err: Stderr,
) -> (u8, RealFiles<'r, R>, RealSink<Stdout>, RealSink<Stderr>)
    // The outcome has its cause, wrote what it should, and its message is on standard error.
    ensures explained { (o : Outcome) × (result.0 ≡ status_of o)
        × Explains o (real_run_seen words.now result.1 result.2) × IsSent result.3 (message_of o) }

    // Faults are told.
    ensures read_fault { file_faults result.1 ≡ (if result.0 == 4 then 1 else 0) }
    ensures write_fault { sink_faults result.2 ≡ (if result.0 == 5 then 1 else 0) }

    // What is left alone.
    ensures unread { all_files_of words.now ≡ []
        → (files_given result.1 ≡ []) × (open_calls result.1 ≡ 0) }
    ensures nothing { (result.0 ≡ 2) ⊎ (result.0 ≡ 3) ⊎ (result.0 ≡ 4)
        ⊎ ((result.0 ≡ 6)
        × OfInputs (real_run_seen words.now result.1 result.2).files words.now
        (PassesFirst words.now))
        → sink_taken result.2 ≡ [] }
    ensures silent { result.0 ≡ 0 → sink_taken result.3 ≡ [] }
{
    let mut files = RealFiles::new(rt);
    let mut out = RealSink::new(out);
    let mut err = RealSink::new(err);
    let status = run(rt, alloc, words, &mut files, &mut out, &mut err, &OpenGate);
    (status, files, out, err)
}
