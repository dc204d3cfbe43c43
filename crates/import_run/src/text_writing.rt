ghost use Rattle.std.specs.Prelude.{◌≡◌};
ghost use Rattle.import_run.specs.inner.Leaving.{LeavesSink, WritesText, sink_faults_after};

use crate::{Notes, Outcome};
use mystery_io::{Sink, write_text};

/// Writes a text with these notes, and tells how that ended.
pub(crate) fn write_all<S: Sink>(text: &[u8], notes: Notes, out: &mut S) -> Outcome
    ensures writes { WritesText result text.now notes (S.written out.old) (S.written out.new) }
    ensures leaves { LeavesSink result out.old out.new }
    ensures counted { S.faults out.new ≡ sink_faults_after result (S.faults out.old) }
{
    match write_text(out, text) {
        Ok(()) => Outcome::Done { notes },
        Err(_) => Outcome::Write,
    }
}
