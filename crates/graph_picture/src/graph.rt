ghost use Rattle.std.specs.Prelude.{◌≡◌, ◌≤◌, ◌<◌, ◌^◌, ◌++◌, ℕ, IfOk, length, List, nat_le};
ghost use Rattle.std.specs.Prelude.{OnOk};
ghost use Rattle.std.specs.List.{flat_map};
ghost use Rattle.graph_layers.specs.Layouts.{IsLayout};
ghost use Rattle.implied_pairs.specs.Laws.{AreNotImplied};
ghost use Rattle.graph_picture.specs.Graphs.{IsGraph, IsGraphOrNote, counts_text, exclusive_text};
ghost use Rattle.graph_picture.specs.Graphs.{graph_class};
ghost use Rattle.graph_picture.specs.Graphs.{graph_text, joined_text, notes_text, picture_start};
ghost use Rattle.graph_picture.specs.Graphs.{shapes_text};
ghost use Rattle.graph_picture.specs.Relations.{pipes_of, relations_of};

use crate::arrows::{push_arrows, push_exclusives, push_pipes};
use crate::boxes::push_boxes;
use crate::relations::{pipes_of, relations_of};
use crate::texts::{push_graph_end, push_graph_start, push_markers, push_too_many};
use graph_layers::{Layout, Place, kept_pairs, lay_out};
use markup::{Piece, push_fixed, push_pieces};
use page_rows::Page;
use std::alloc::{AllocError, Global};

/// Gives the class of the picture of so many arrows.
fn graph_class(arrows: usize) -> &'static str
    ensures { result.now ≡ graph_class arrows }
{
    if arrows <= 120 {
        "graph"
    } else {
        "graph faint"
    }
}

/// Begins the picture.
fn push_picture_start(
    bytes: &mut Vec<u8>,
    arrows: usize,
    width: u32,
    height: u32,
) -> Result<(), AllocError>
    ensures { OnOk result (bytes.new.items ≡ bytes.old.items ++ picture_start arrows width height) }
{
    let class = graph_class(arrows);
    push_pieces(
        bytes,
        &[
            Piece::Fixed("<svg class=\""),
            Piece::Fixed(class),
            Piece::Fixed("\" width=\""),
            Piece::Number(u128::from(width)),
            Piece::Fixed("\" height=\""),
            Piece::Number(u128::from(height)),
            Piece::Fixed("\" role=\"img\" aria-label=\"What happens before what\">"),
        ],
    )
}

/// Appends how many arrows stand for how many relations.
fn push_counts(
    bytes: &mut Vec<u8>,
    boxes: u32,
    arrows: usize,
    relations: usize,
) -> Result<(), AllocError>
    ensures { OnOk result
        (bytes.new.items ≡ bytes.old.items ++ counts_text boxes arrows relations) }
{
    push_pieces(
        bytes,
        &[
            Piece::Number(u128::from(boxes)),
            Piece::Fixed(" boxes; "),
            Piece::Number(arrows as u128),
            Piece::Fixed(" arrows stand for "),
            Piece::Number(relations as u128),
            Piece::Fixed(" relations."),
        ],
    )
}

/// Appends how many pairs a chain of arrows joins that have no relation, if there are any.
fn push_joined(bytes: &mut Vec<u8>, joined: usize) -> Result<(), AllocError>
    ensures { OnOk result (bytes.new.items ≡ bytes.old.items ++ joined_text joined) }
{
    if joined == 0 {
        return Ok(());
    }
    push_pieces(
        bytes,
        &[
            Piece::Fixed(
                " Pairs that a chain of arrows joins and that have no relation of their own: ",
            ),
            Piece::Number(joined as u128),
            Piece::Fixed(" (see the matrix)."),
        ],
    )
}

/// Counts pairs.
fn count_of(pairs: &[(u32, u32)]) -> usize
    ensures { result ≡ length pairs.now }
{
    pairs.len()
}

/// Counts the arrows of a layout.
fn arrow_count(layout: &Layout) -> usize
    ensures { result ≡ length layout.now.arrows.items }
{
    count_of(&layout.arrows)
}

/// Counts the pairs of a layout that a chain of arrows joins without a relation.
fn joined_count(layout: &Layout) -> usize
    ensures { result ≡ length layout.now.joined.items }
{
    count_of(&layout.joined)
}

/// Counts the boxes.
fn box_count(page: &Page) -> u32
    requires { length page.now.boxes ≤ 128 }
    ensures { result ≡ length page.now.boxes }
{
    page.boxes().len() as u32
}

/// Appends the lines between boxes of a page whose names are mutually exclusive.
fn push_page_exclusives(
    bytes: &mut Vec<u8>,
    page: &Page,
    places: &[Place],
) -> Result<(), AllocError>
    requires { length page.now.boxes ≤ 128 }
    ensures { OnOk result (bytes.new.items ≡ bytes.old.items
        ++ flat_map (exclusive_text (length page.now.boxes) places.now) page.now.betweens) }
{
    push_exclusives(bytes, u128::from(box_count(page)), places, page.betweens())
}

/// Appends the lines and the boxes.
#[tactic(auto, unfolding(crate::specs::Graphs::shapes_text))]
fn push_shapes(
    bytes: &mut Vec<u8>,
    page: &Page,
    places: &[Place],
    arrows: &[(u32, u32)],
    pipes: &[(u32, u32)],
) -> Result<(), AllocError>
    requires { length page.now.boxes ≤ 128 }
    ensures { OnOk result (bytes.new.items ≡ bytes.old.items
        ++ shapes_text page.now places.now arrows.now pipes.now) }
{
    push_arrows(bytes, places, arrows)?;
    push_page_exclusives(bytes, page, places)?;
    push_pipes(bytes, places, pipes)?;
    push_boxes(bytes, page, places, page.boxes())
}

/// Appends what stands below the picture.
fn push_notes(
    bytes: &mut Vec<u8>,
    boxes: u32,
    relations: usize,
    arrows: usize,
    joined: usize,
) -> Result<(), AllocError>
    ensures { OnOk result
        (bytes.new.items ≡ bytes.old.items ++ notes_text boxes relations arrows joined) }
{
    push_fixed(bytes, "</svg></div><p class=\"note\">")?;
    push_counts(bytes, boxes, arrows, relations)?;
    push_joined(bytes, joined)
}

/// Begins the picture of a layout.
fn push_layout_start(bytes: &mut Vec<u8>, layout: &Layout) -> Result<(), AllocError>
    ensures { OnOk result (bytes.new.items ≡ bytes.old.items
        ++ picture_start (length layout.now.arrows.items) layout.now.width layout.now.height) }
{
    push_picture_start(bytes, arrow_count(layout), layout.width, layout.height)
}

/// Appends the lines and the boxes of a layout.
fn push_layout_shapes(
    bytes: &mut Vec<u8>,
    page: &Page,
    layout: &Layout,
    pipes: &[(u32, u32)],
) -> Result<(), AllocError>
    requires { length page.now.boxes ≤ 128 }
    ensures { OnOk result (bytes.new.items ≡ bytes.old.items
        ++ shapes_text page.now layout.now.places.items layout.now.arrows.items pipes.now) }
{
    push_shapes(bytes, page, &layout.places, &layout.arrows, pipes)
}

/// Appends what stands below the picture of a layout.
fn push_layout_notes(
    bytes: &mut Vec<u8>,
    page: &Page,
    relations: usize,
    layout: &Layout,
) -> Result<(), AllocError>
    requires { length page.now.boxes ≤ 128 }
    ensures { OnOk result (bytes.new.items ≡ bytes.old.items
        ++ notes_text (length page.now.boxes) relations (length layout.now.arrows.items)
        (length layout.now.joined.items)) }
{
    push_notes(
        bytes,
        box_count(page),
        relations,
        arrow_count(layout),
        joined_count(layout),
    )
}

/// Appends the graph with a layout and pipelines.
#[tactic(auto, unfolding(crate::specs::Graphs::graph_text))]
fn push_laid(
    bytes: &mut Vec<u8>,
    page: &Page,
    relations: usize,
    layout: &Layout,
    pipes: &[(u32, u32)],
) -> Result<(), AllocError>
    requires { length page.now.boxes ≤ 128 }
    ensures { OnOk result
        (bytes.new.items ≡ bytes.old.items ++ graph_text page.now relations layout.now pipes.now) }
{
    push_graph_start(bytes)?;
    push_layout_start(bytes, layout)?;
    push_markers(bytes)?;
    push_layout_shapes(bytes, page, layout, pipes)?;
    push_layout_notes(bytes, page, relations, layout)?;
    push_graph_end(bytes)
}

/// Lists the relations of a page.
fn page_relations(alloc: Global, page: &Page) -> Result<Vec<(u32, u32)>, AllocError>
    requires { length page.now.boxes ≤ 128 }
    ensures { IfOk result (λ pairs.
        pairs.items ≡ relations_of (length page.now.boxes) page.now.betweens) }
{
    relations_of(alloc, u128::from(box_count(page)), page.betweens())
}

/// Lists the pipelines of a page.
fn page_pipes(alloc: Global, page: &Page) -> Result<Vec<(u32, u32)>, AllocError>
    requires { length page.now.boxes ≤ 128 }
    ensures { IfOk result (λ pairs.
        pairs.items ≡ pipes_of (length page.now.boxes) page.now.boxes page.now.pipes) }
{
    pipes_of(
        alloc,
        u128::from(box_count(page)),
        page.boxes(),
        page.pipes(),
    )
}

/// Lays out the relations of a page.
fn page_layout(alloc: Global, page: &Page, pairs: &[(u32, u32)]) -> Result<Layout, AllocError>
    requires few { length page.now.boxes ≤ 128 }
    requires pairs { pairs.now ≡ relations_of (length page.now.boxes) page.now.betweens }
    ensures { IfOk result (IsLayout (length page.now.boxes)
        (relations_of (length page.now.boxes) page.now.betweens)) }
{
    lay_out(alloc, box_count(page), pairs)
}

/// Takes the pipelines that no chain of others implies.
fn kept_pipes(
    alloc: Global,
    page: &Page,
    pairs: &[(u32, u32)],
) -> Result<Vec<(u32, u32)>, AllocError>
    requires few { length page.now.boxes ≤ 128 }
    requires pairs { pairs.now ≡ pipes_of (length page.now.boxes) page.now.boxes page.now.pipes }
    ensures { IfOk result (λ left. AreNotImplied
        (pipes_of (length page.now.boxes) page.now.boxes page.now.pipes) left.items) }
{
    kept_pairs(alloc, box_count(page), pairs)
}

/// Lists the pipelines of a page that no chain of others implies.
fn drawn_pipes(alloc: Global, page: &Page) -> Result<Vec<(u32, u32)>, AllocError>
    requires { length page.now.boxes ≤ 128 }
    ensures { IfOk result (λ left. AreNotImplied
        (pipes_of (length page.now.boxes) page.now.boxes page.now.pipes) left.items) }
{
    let pairs = page_pipes(alloc, page)?;
    kept_pipes(alloc, page, &pairs)
}

/// Lays out the graph of at most 128 boxes, and appends it.
fn push_few(alloc: Global, bytes: &mut Vec<u8>, page: &Page) -> Result<(), AllocError>
    requires { length page.now.boxes ≤ 128 }
    ensures { OnOk result ((text : List ℕ) × IsGraph page.now text
        × (bytes.new.items ≡ bytes.old.items ++ text)) }
{
    let pairs = page_relations(alloc, page)?;
    let layout = page_layout(alloc, page, &pairs)?;
    let kept = drawn_pipes(alloc, page)?;
    push_laid(bytes, page, count_of(&pairs), &layout, &kept)
}

/// Tells whether there are at most 128 boxes.
fn is_few(page: &Page) -> bool
    ensures { result ≡ nat_le (length page.now.boxes) 128 }
{
    page.boxes().len() <= 128
}

/// Appends the graph of a page, or a note where it has more than 128 boxes. The only error is out of
/// memory, after which the bytes may end in the middle of it.
pub fn push_graph(alloc: Global, bytes: &mut Vec<u8>, page: &Page) -> Result<(), AllocError>
    ensures { OnOk result ((text : List ℕ) × IsGraphOrNote page.now text
        × (bytes.new.items ≡ bytes.old.items ++ text)) }
{
    if is_few(page) {
        return push_few(alloc, bytes, page);
    }
    push_too_many(bytes)
}
