ghost use Rattle.std.specs.Prelude.{◌≡◌};
ghost use Rattle.std.specs.List.{list_all};
ghost use Rattle.page_rows.specs.Fields.{field_at, is_number, texts_of};
ghost use Rattle.page_rows.specs.Kinds.{are_figures, has_figure, has_form, kind_if, kind_of, kind_of_two};
ghost use Rattle.page_rows.specs.Kinds.{number_places};

use crate::Kind;
use crate::fields::{are_numbers_from, field, is_figure, is_number};

/// Chooses a kind, where the row has so many fields.
fn kind_if(fits: bool, kind: Kind) -> Option<Kind>
    ensures { result ≡ kind_if fits kind }
{
    if fits { Some(kind) } else { None }
}

/// Chooses one kind with so many fields, and one with other fields.
fn kind_of_two(count: usize, first: usize, kind: Kind, second: usize, other: Kind) -> Option<Kind>
    ensures { result ≡ kind_of_two count first kind second other }
{
    if count == first {
        Some(kind)
    } else if count == second {
        Some(other)
    } else {
        None
    }
}

/// Finds what a row with this word and so many fields is.
pub(crate) fn kind_of(word: &str, count: usize) -> Option<Kind>
    ensures { result ≡ kind_of word.now count }
{
    match word {
        "refused" => kind_if(count == 4, Kind::Refused),
        "report" => kind_if(count == 3, Kind::Report),
        "latency" => kind_if(count == 5, Kind::Latency),
        "segment" => kind_of_two(count, 10, Kind::Segment, 8, Kind::TailSegment),
        "tail" => kind_if(count == 4, Kind::Tail),
        "ranks" => kind_if(count == 3, Kind::Ranks),
        "bucket" => kind_if(count == 6, Kind::Bucket),
        "rank" => kind_if(count > 4, Kind::Rank),
        "gain" => kind_of_two(count, 3, Kind::Gains, 6, Kind::Gain),
        "room" => kind_of_two(count, 2, Kind::Rooms, 11, Kind::Room),
        "loads" => kind_if(count == 2, Kind::Loads),
        "load" => kind_if(count == 11, Kind::Load),
        "bar" => kind_if(count == 9, Kind::Bar),
        "box" => kind_of_two(count, 5, Kind::NameBox, 3, Kind::TaskBox),
        "between" => kind_of_two(count, 6, Kind::Between, 9, Kind::Overlap),
        "pipe" => kind_if(count == 3, Kind::Pipe),
        _ => None,
    }
}

/// Lends the places of its fields that are numbers.
fn number_places(kind: Kind) -> &'static [usize]
    ensures { result.now ≡ number_places kind }
{
    match kind {
        Kind::Refused => &[3],
        Kind::Report => &[],
        Kind::Latency => &[1, 2, 3, 4],
        Kind::Segment => &[4, 5, 6, 7, 8, 9],
        Kind::Tail => &[],
        Kind::TailSegment => &[4, 5, 6, 7],
        Kind::Ranks => &[],
        Kind::Bucket => &[1, 2, 3, 4, 5],
        Kind::Rank => &[],
        Kind::Gains => &[],
        Kind::Gain => &[4, 5],
        Kind::Rooms => &[],
        Kind::Room => &[4, 5, 6, 7, 8, 9, 10],
        Kind::Loads => &[],
        Kind::Load => &[2, 4, 5, 6, 7, 8, 9, 10],
        Kind::Bar => &[1, 5, 6, 7, 8],
        Kind::NameBox => &[1],
        Kind::TaskBox => &[1],
        Kind::Between => &[1, 2, 3, 4, 5],
        Kind::Overlap => &[1, 2, 3, 4, 5, 6, 7],
        Kind::Pipe => &[],
    }
}

/// Tells whether a field is a figure.
fn has_figure(fields: &[&str], place: usize, name: &str) -> bool
    ensures { result ≡ has_figure (texts_of fields.now) place name.now }
{
    is_figure(field(fields, place), name)
}

/// Tells whether the figures of a head are figures, and the sums of a rank numbers.
fn are_figures(kind: Kind, fields: &[&str]) -> bool
    ensures { result ≡ are_figures kind (texts_of fields.now) }
{
    match kind {
        Kind::Report => has_figure(fields, 1, "traces=") && has_figure(fields, 2, "critical="),
        Kind::Tail => has_figure(fields, 1, "traces=")
            && has_figure(fields, 2, "slow=")
            && has_figure(fields, 3, "floor="),
        Kind::Ranks => has_figure(fields, 1, "traces=") && has_figure(fields, 2, "buckets="),
        Kind::Gains => has_figure(fields, 1, "traces=") && has_figure(fields, 2, "critical="),
        Kind::Rooms => has_figure(fields, 1, "traces="),
        Kind::Loads => has_figure(fields, 1, "loads="),
        Kind::Rank => are_numbers_from(fields, 4),
        _ => true,
    }
}

/// Tells whether the fields at these places are numbers.
fn are_numbers_at(fields: &[&str], places: &[usize]) -> bool
    ensures { result ≡ list_all (λ place. is_number (field_at (texts_of fields.now) place)) places.now }
{
    places
        .iter()
        .all(|place| is_number(field(fields, *place).as_bytes()))
}

/// Tells whether the fields of a row of this kind have its form.
pub(crate) fn has_form(kind: Kind, fields: &[&str]) -> bool
    ensures { result ≡ has_form kind (texts_of fields.now) }
{
    are_numbers_at(fields, number_places(kind)) && are_figures(kind, fields)
}
