ghost use Rattle.std.specs.Prelude.{◌≡◌, ◌≤◌, ℕ, length};
ghost use Rattle.mystery_io.specs.Input.{input_limit};
ghost use Rattle.mystery_run.specs.Works.{steps_said};
ghost use Rattle.mystery_run.specs.inner.InputEnds.{InputEnds};
ghost use Rattle.mystery_run.specs.inner.Leaving.{LeavesSink};
ghost use Rattle.mystery_run.specs.inner.OutcomeFaults.{outcome_faults};

use crate::replaying::print_replay;
use crate::{Outcome, Reason};
use mystery_io::Sink;
use std::alloc::Global;
use step_core::{StepLineError, read_steps};
use text_rows::PrintFault;

/// Reads an input as a file of steps and prints its replay.
pub(crate) fn replay_input<S: Sink>(alloc: Global, input: &[u8], out: &mut S) -> Outcome
    requires { length input.now ≤ input_limit }
    ensures ends { (workers : ℕ) → InputEnds workers (steps_said input.now) result
        (S.written out.old) (S.written out.new) }
    ensures leaves { LeavesSink result out.old out.new }
    ensures counted { S.faults out.new ≡ outcome_faults result (S.faults out.old) }
{
    match read_steps(alloc, input) {
        Err(StepLineError::Memory) => Outcome::Memory,
        Err(StepLineError::Bad { line }) => Outcome::BadLine {
            line,
            why: Reason::Step,
        },
        Ok(file) => match print_replay(alloc, out, &file) {
            Ok(()) => Outcome::Done,
            Err(PrintFault::Memory) => Outcome::Memory,
            Err(PrintFault::Write) => Outcome::Write,
        },
    }
}
