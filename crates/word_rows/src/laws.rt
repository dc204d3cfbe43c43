//! What follows from the definitions alone. Each law is the contract of a function that does
//! nothing.
ghost use Rattle.word_rows.specs.Keeping.{DoneStays, EventsKeepSound, OpeningIsSound, StepKeepsSound, WholeShareKnowsAll, WidthStays, ZerosStay};
ghost use Rattle.word_rows.specs.Meeting.{BelowWider, BlockLacks, ClearsAppend, ClearsBelow, CommonByAnd, CommonIsMeet, ComplementClears, LacksAppend, MeetBegins, MeetByBits, MeetIsUnique, MeetsFollow, OrderIsFree, RowIsSame, RowsClearAppend, SameRowIsOne, WidenedMeet};

/// The state of the step machine at opening is sound.
pub fn opening_is_sound()
    ensures { OpeningIsSound }
{}

/// Each event whose row has the form of a row, with or without a fault, keeps the state sound.
pub fn step_keeps_sound()
    ensures { StepKeepsSound }
{}

/// Whatever the width, the number of shares and the events are, as long as each row has the form of
/// a row, the state after them is sound.
pub fn events_keep_sound()
    ensures { EventsKeepSound }
{}

/// In a sound state the view that has all shares tells the words by its done rows, and its readings
/// lack only their bits.
pub fn whole_share_knows_all()
    ensures { WholeShareKnowsAll }
{}

/// Along a history there are as many words as at opening.
pub fn width_stays()
    ensures { WidthStays }
{}

/// Along a history a bit that is 0 stays 0.
pub fn zeros_stay()
    ensures { ZerosStay }
{}

/// Along a history a row that some view has done stays a done row of some view.
pub fn done_stays()
    ensures { DoneStays }
{}

/// A row whose words are below a width has them below every greater one.
pub fn below_wider()
    ensures { BelowWider }
{}

/// A row whose words are below a width clears no bit of a word beyond it.
pub fn clears_below()
    ensures { ClearsBelow }
{}

/// The meet of a list of rows does not depend on their order.
pub fn order_is_free()
    ensures { OrderIsFree }
{}

/// Words and rows have one meet.
pub fn meet_is_unique()
    ensures { MeetIsUnique }
{}

/// Words are their own meet with no row.
#[tactic(auto, using(crate::proofs::MeetLemmas::meet_begins))]
pub fn meet_begins()
    ensures { MeetBegins }
{}

/// The meet of a meet is that with both lists of rows.
#[tactic(auto, using(crate::proofs::MeetLemmas::meets_follow))]
pub fn meets_follow()
    ensures { MeetsFollow }
{}

/// What two meets of the same words have in common is the meet with both lists of rows.
#[tactic(auto, using(crate::proofs::MeetLemmas::common_is_meet))]
pub fn common_is_meet()
    ensures { CommonIsMeet }
{}

/// The meet of a widened sheet with rows of the narrower width is the widened meet.
pub fn widened_meet()
    ensures { WidenedMeet }
{}

/// To keep the complement of a mask is to clear the mask.
#[tactic(auto, using(crate::proofs::BitLemmas::complement_clears))]
pub fn complement_clears()
    ensures { ComplementClears }
{}

/// A meet depends only on which bits the rows clear.
#[tactic(auto, using(crate::proofs::MeetLemmas::meet_by_bits))]
pub fn meet_by_bits()
    ensures { MeetByBits }
{}

/// Words that are `bit_and` word by word are what the two have in common.
pub fn common_by_and()
    ensures { CommonByAnd }
{}

/// Entries that follow others clear what either list clears.
#[tactic(auto, using(crate::proofs::ViewLemmas::clears_append))]
pub fn clears_append()
    ensures { ClearsAppend }
{}

/// Rows that follow others clear what either list clears.
#[tactic(auto, using(crate::proofs::ViewLemmas::rows_clear_append))]
pub fn rows_clear_append()
    ensures { RowsClearAppend }
{}

/// Readings that follow others lack what either list lacks.
#[tactic(auto, using(crate::proofs::ViewLemmas::lacks_append))]
pub fn lacks_append()
    ensures { LacksAppend }
{}

/// One reading of each word lacks the bits that are 0 in the words.
pub fn block_lacks()
    ensures { BlockLacks }
{}

/// Rows that are the same by their entries are one row.
#[tactic(auto, using(crate::proofs::RowLemmas::same_row_is_one))]
pub fn same_row_is_one()
    ensures { SameRowIsOne }
{}

/// A row is the same as itself.
#[tactic(auto, using(crate::proofs::RowLemmas::row_is_same))]
pub fn row_is_same()
    ensures { RowIsSame }
{}
