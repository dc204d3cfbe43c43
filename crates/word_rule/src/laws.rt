//! What the rule of the table means, over the definitions alone. Each law is the contract of a
//! function that does nothing.
ghost use Rattle.word_rule.specs.Kinds.{ClearIsStep, CloseIsStep, JoinIsStep, LoadIsStep, LookIsNoStep, RuleIsSound, SkipIsStep, SplitIsStep, TellIsNoStep};
ghost use Rattle.word_rule.specs.Uses.{NotBothMiss};

use word_rows::laws::{complement_clears, events_keep_sound, row_is_same, width_stays, zeros_stay};

/// A table that meets the rule has sound words and views.
pub fn rule_is_sound()
    ensures { RuleIsSound }
{
    events_keep_sound();
}

/// The `fetch_and` of an entry is the step machine's Clear.
pub fn clear_is_step()
    ensures { ClearIsStep }
{
    complement_clears();
    events_keep_sound();
}

/// The load of a word that lacks all bits of the next entry is the step machine's Clear.
pub fn skip_is_step()
    ensures { SkipIsStep }
{
    events_keep_sound();
}

/// The same load of a word that has a bit of the next entry is no step, and changes nothing.
pub fn look_is_no_step()
    ensures { LookIsNoStep }
{}

/// The load of a word is the step machine's Load.
pub fn load_is_step()
    ensures { LoadIsStep }
{
    events_keep_sound();
}

/// The load by which a seat learns that it has at most all shares and that what it knows is of one
/// history is no step, and changes nothing.
pub fn tell_is_no_step()
    ensures { TellIsNoStep }
{}

/// The `split_seat` of a pass is the step machine's Split; for a note, with no shares.
pub fn split_is_step()
    ensures { SplitIsStep }
{
    events_keep_sound();
}

/// The `join_seat` of two passes, or of a pass and a note, is the step machine's Join.
pub fn join_is_step()
    ensures { JoinIsStep }
{
    events_keep_sound();
}

/// The end of the table, by the seat that has all shares, is the step machine's Close.
pub fn close_is_step()
    ensures { CloseIsStep }
{
    events_keep_sound();
}

/// Where two passes each offer a row and then read, not both miss the other's row.
pub fn not_both_miss()
    ensures { NotBothMiss }
{
    events_keep_sound();
    row_is_same();
    width_stays();
    zeros_stay();
}
