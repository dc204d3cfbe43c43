ghost use Rattle.std.specs.Prelude.{◌≡◌, IfOk};
ghost use Rattle.word_rows.specs.Machine.{HasRow};

use std::alloc::{AllocError, Global};
use word_rows::StepEvent;

/// Makes a second event of the same step. The only error is that memory ran out.
pub(crate) fn copy_event(alloc: Global, event: &StepEvent) -> Result<StepEvent, AllocError>
    ensures same { IfOk result (λ e. e ≡ event.now) }
    ensures form { HasRow event.now }
{
    match event {
        StepEvent::Clear { seat, row } => {
            // For the proof alone.
            let _entries = row.entries();
            let row = row.copy(alloc)?;
            Ok(StepEvent::Clear { seat: *seat, row })
        }
        StepEvent::Load { seat, word } => Ok(StepEvent::Load {
            seat: *seat,
            word: *word,
        }),
        StepEvent::Split { seat, shares } => Ok(StepEvent::Split {
            seat: *seat,
            shares: *shares,
        }),
        StepEvent::Join { seat, other } => Ok(StepEvent::Join {
            seat: *seat,
            other: *other,
        }),
        StepEvent::Close { seat } => Ok(StepEvent::Close { seat: *seat }),
    }
}
