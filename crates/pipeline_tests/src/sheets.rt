ghost use Rattle.std.specs.Prelude.{◌≡◌, ◌≤◌, All, IfOk, length};
ghost use Rattle.hypothesis_index.specs.Places.{width_of};
ghost use Rattle.refute_tests.specs.Clearing.{HaveNamesBelow};
ghost use Rattle.refute_tests.specs.Survivors.{AreSurvivors};
ghost use Rattle.word_rows.specs.Words.{AreWords};

use crate::whole_rows::RowRoom;
use hypothesis_index::width;
use std::alloc::{AllocError, Global};
use trace_types::NamedTrace;
use word_rows::Sheet;

/// Gives back the words, each of which has 64 bits.
fn bounded(words: Sheet) -> Sheet
    ensures same { result ≡ words }
    ensures bound { AreWords words }
{
    // For the proof alone.
    let _lent = words.words();
    words
}

/// Meets the whole row of each trace, whose names are all below a number, into the full words of so
/// many names. The only error is that memory ran out.
pub(crate) fn survivors(
    alloc: Global,
    traces: &[NamedTrace],
    names: u32,
) -> Result<Sheet, AllocError>
    requires few { names ≤ 512 }
    requires named { All (HaveNamesBelow names) traces.now }
    ensures survivors { IfOk result (AreSurvivors traces.now) }
    ensures width { IfOk result (λ words. length words ≡ width_of names) }
{
    let mut words = Sheet::full(alloc, width(names))?;
    let mut room = RowRoom::new(alloc);
    for trace in traces {
        let row = room.whole_row(trace)?;
        words.meet_row(&row);
        room.give_back(row);
    }
    Ok(bounded(words))
}
