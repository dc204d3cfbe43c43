ghost use Rattle.std.specs.Prelude.{◌≡◌, ◌≤◌, ◌<◌, ◌^◌, ◌++◌, OnOk, take};
ghost use Rattle.ranking_picture.specs.Strips.{end_of, part_caption, part_figures, part_name};
ghost use Rattle.ranking_picture.specs.Strips.{part_share, part_text, part_title, strip_from};
ghost use Rattle.ranking_picture.specs.Strips.{strip_text};

use crate::RankedRow;
use crate::texts::push_strip_start;
use markup::{Piece, Share, push_fixed, push_pieces};
use picture_parts::{Span, begin_caption, push_bar, push_isolated, push_title, span_of};
use std::alloc::AllocError;

/// How many segments the strip shows.
const MOST_PARTS: usize = 8;

/// Finds where a part of the strip ends.
fn end_of(critical: u128, at: u128, time: u128) -> u128
    requires at { at < 2 ^ 90 }
    requires time { time < 2 ^ 90 }
    ensures value { result ≡ end_of critical at time }
    ensures within { result ≤ critical }
{
    (at + time).min(critical)
}

/// Appends what is said of a segment in the strip, behind its name.
fn push_part_figures(bytes: &mut Vec<u8>, all: u128, row: &RankedRow) -> Result<(), AllocError>
    requires { all < 2 ^ 90 }
    ensures { OnOk result (bytes.new.items ≡ bytes.old.items ++ part_figures all row.now) }
{
    let critical = row.critical.get();
    let share = Share::of(critical, all);
    push_pieces(
        bytes,
        &[
            Piece::Fixed(": "),
            Piece::Time(critical),
            Piece::Fixed(", "),
            Piece::Share(share),
            Piece::Fixed(" of all</title>"),
        ],
    )
}

/// Appends what is said of a segment in the strip.
#[tactic(auto, unfolding(crate::specs::Strips::part_title))]
fn push_part_title(bytes: &mut Vec<u8>, all: u128, row: &RankedRow) -> Result<(), AllocError>
    requires { all < 2 ^ 90 }
    ensures { OnOk result (bytes.new.items ≡ bytes.old.items ++ part_title all row.now) }
{
    push_fixed(bytes, "<g><title>")?;
    push_title(bytes, &row.name)?;
    push_part_figures(bytes, all, row)
}

/// Appends the share of a part below its name.
fn push_part_share(bytes: &mut Vec<u8>, all: u128, row: &RankedRow) -> Result<(), AllocError>
    requires { all < 2 ^ 90 }
    ensures { OnOk result (bytes.new.items ≡ bytes.old.items ++ part_share all row.now) }
{
    let share = Share::of(row.critical.get(), all);
    push_pieces(
        bytes,
        &[
            Piece::Fixed("</text><text class=\"in\" x=\"5\" y=\"28\">"),
            Piece::Share(share),
            Piece::Fixed("</text></svg>"),
        ],
    )
}

/// Appends the name in a part, and its share below.
#[tactic(auto, unfolding(crate::specs::Strips::part_name))]
fn push_part_name(bytes: &mut Vec<u8>, all: u128, row: &RankedRow) -> Result<(), AllocError>
    requires { all < 2 ^ 90 }
    ensures { OnOk result (bytes.new.items ≡ bytes.old.items ++ part_name all row.now) }
{
    push_isolated(bytes, &row.name.task)?;
    push_fixed(bytes, " → ")?;
    push_isolated(bytes, &row.name.end)?;
    push_part_share(bytes, all, row)
}

/// Appends the name in a part and its share, if that is wide enough.
fn push_part_caption(
    bytes: &mut Vec<u8>,
    all: u128,
    span: Span,
    row: &RankedRow,
) -> Result<(), AllocError>
    requires { all < 2 ^ 90 }
    ensures { OnOk result (bytes.new.items ≡ bytes.old.items ++ part_caption all span row.now) }
{
    if span.width <= 3500 {
        return Ok(());
    }
    begin_caption(bytes, span, 34, 14)?;
    push_part_name(bytes, all, row)
}

/// Appends the part of one segment.
#[tactic(auto, unfolding(crate::specs::Strips::part_text))]
fn push_part(bytes: &mut Vec<u8>, all: u128, span: Span, row: &RankedRow) -> Result<(), AllocError>
    requires { all < 2 ^ 90 }
    ensures { OnOk result (bytes.new.items ≡ bytes.old.items ++ part_text all span row.now) }
{
    push_part_title(bytes, all, row)?;
    push_bar(bytes, "path", span, 0, 34)?;
    push_part_caption(bytes, all, span, row)?;
    push_fixed(bytes, "</g>")
}

/// Appends the parts of segments, of the rest on critical paths, and of what is between.
fn push_parts(
    bytes: &mut Vec<u8>,
    all: u128,
    critical: u128,
    rows: &[RankedRow],
) -> Result<(), AllocError>
    requires all { all < 2 ^ 90 }
    requires critical { critical < 2 ^ 90 }
    ensures { OnOk result (bytes.new.items ≡ bytes.old.items ++ strip_from all critical 0 rows.now) }
{
    let mut at = 0;
    'rows: for row in rows {
        let end = end_of(critical, at, row.critical.get());
        push_part(bytes, all, span_of(at, end, all), row)?;
        at = end;
    }
    push_bar(bytes, "path2", span_of(at, critical, all), 0, 34)?;
    push_bar(bytes, "wait", span_of(critical, all, all), 0, 34)
}

/// Lends the first eight rows.
fn first_rows(ranking: &[RankedRow]) -> &[RankedRow]
    ensures { result.now ≡ take 8 ranking.now }
{
    let count = ranking.len().min(MOST_PARTS);
    &ranking[..count]
}

/// Appends the strip of a ranking, of so much latency and so much of it on critical paths.
#[tactic(auto, unfolding(crate::specs::Strips::strip_text))]
pub(crate) fn push_strip(
    bytes: &mut Vec<u8>,
    all: u128,
    critical: u128,
    ranking: &[RankedRow],
) -> Result<(), AllocError>
    requires all { all < 2 ^ 90 }
    requires critical { critical < 2 ^ 90 }
    ensures { OnOk result (bytes.new.items ≡ bytes.old.items ++ strip_text all critical ranking.now) }
{
    push_strip_start(bytes)?;
    push_parts(bytes, all, critical, first_rows(ranking))?;
    push_fixed(bytes, "</svg>")
}
