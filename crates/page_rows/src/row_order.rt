ghost use Rattle.std.specs.Prelude.{◌≡◌, ◌<◌};
ghost use Rattle.page_rows.specs.Rows.{may_end, may_follow, may_repeat, next_head, stage_of};

use crate::Row;

/// Tells where a row stands.
pub(crate) fn stage_of(row: &Row) -> u8
    ensures value { result ≡ stage_of row.now }
    ensures small { result < 19 }
{
    match row {
        Row::Refused(_) => 0,
        Row::Report(_) => 1,
        Row::Latency(_) => 2,
        Row::Segment(_) => 3,
        Row::Tail(_) => 4,
        Row::TailSegment(_) => 5,
        Row::Ranks => 6,
        Row::Bucket(_) => 7,
        Row::Rank(_) => 8,
        Row::Gains => 9,
        Row::Gain(_) => 10,
        Row::Rooms => 11,
        Row::Room(_) => 12,
        Row::Loads => 13,
        Row::Load(_) => 14,
        Row::Bar(_) => 15,
        Row::Box(_) => 16,
        Row::Between(_) => 17,
        Row::Pipe(_) => 18,
    }
}

/// Finds the head that has to come after a row.
fn next_head(stage: u8) -> u8
    ensures { result ≡ next_head stage }
{
    match stage {
        0 => 1,
        1 => 2,
        2..4 => 4,
        4..6 => 6,
        6..9 => 9,
        9..11 => 11,
        11..13 => 13,
        _ => 19,
    }
}

/// Tells whether a row that is no head may stand behind another.
fn may_repeat(before: u8, now: u8) -> bool
    ensures { result ≡ may_repeat before now }
{
    if before == 15 && now == 14 {
        return true;
    }
    before <= now && now < next_head(before) && !(now == 15 && before < 14)
}

/// Tells whether a row may stand behind another.
pub(crate) fn may_follow(before: u8, now: u8) -> bool
    ensures { result ≡ may_follow before now }
{
    match now {
        1 | 2 | 4 | 6 | 9 | 11 | 13 => now == next_head(before),
        _ => may_repeat(before, now),
    }
}

/// Tells whether a page may end behind a row.
pub(crate) fn may_end(stage: u8) -> bool
    ensures { result ≡ may_end stage }
{
    stage >= 13
}
