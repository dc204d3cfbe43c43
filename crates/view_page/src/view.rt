ghost use Rattle.std.specs.Prelude.{◌≡◌, ◌++◌, ◌<◌, ◌^◌, IfErr, IfOk, length, Ok, OnOk};
ghost use Rattle.page_rows.specs.Pages.{IsPageError, PageLists, page_said};
ghost use Rattle.view_page.specs.Views.{IsView, style_sheet, view_start};

use crate::texts::{
    push_base_style, push_body_start, push_dark_colours, push_graph_style, push_heat_style,
    push_key_style, push_lane_style, push_light_colours, push_matrix_style, push_page_end,
    push_page_start, push_shape_style, push_slack_style, push_table_style,
};
use graph_picture::push_graph;
use head_picture::push_head;
use lanes_picture::push_loads;
use markup::push_fixed;
use matrix_picture::push_matrix;
use page_rows::{Page, PageError, read_page};
use ranking_picture::push_ranking;
use refute_picture::push_refutes;
use room_picture::push_rooms;
use std::alloc::{AllocError, Global};
use tail_picture::push_tail;

/// Appends the style sheet.
#[tactic(auto, unfolding(crate::specs::Views::style_sheet))]
fn push_style(bytes: &mut Vec<u8>) -> Result<(), AllocError>
    ensures { OnOk result (bytes.new.items ≡ bytes.old.items ++ style_sheet) }
{
    push_light_colours(bytes)?;
    push_dark_colours(bytes)?;
    push_base_style(bytes)?;
    push_shape_style(bytes)?;
    push_table_style(bytes)?;
    push_key_style(bytes)?;
    push_lane_style(bytes)?;
    push_slack_style(bytes)?;
    push_matrix_style(bytes)?;
    push_heat_style(bytes)?;
    push_graph_style(bytes)
}

/// Begins a page, down to its head.
#[tactic(auto, unfolding(crate::specs::Views::view_start))]
fn push_view_start(alloc: Global, bytes: &mut Vec<u8>, page: &Page) -> Result<(), AllocError>
    ensures { OnOk result (bytes.new.items ≡ bytes.old.items ++ view_start page.now) }
{
    push_page_start(bytes)?;
    push_style(bytes)?;
    push_body_start(bytes)?;
    push_head(alloc, bytes, page)?;
    push_fixed(bytes, "<main>")
}

/// Draws a page. The only error is out of memory.
pub fn draw_page(alloc: Global, page: &Page) -> Result<Vec<u8>, AllocError>
    ensures { IfOk result (λ bytes. IsView page.now bytes.items) }
{
    let mut bytes = Vec::new(alloc);
    push_view_start(alloc, &mut bytes, page)?;
    push_ranking(alloc, &mut bytes, page)?;
    push_loads(alloc, &mut bytes, page)?;
    push_tail(alloc, &mut bytes, page)?;
    push_rooms(alloc, &mut bytes, page)?;
    push_matrix(&mut bytes, page)?;
    push_refutes(alloc, &mut bytes, page)?;
    push_graph(alloc, &mut bytes, page)?;
    push_page_end(&mut bytes)?;
    Ok(bytes)
}

/// Draws the page of a text of rows, of fewer than 2^31 bytes.
///
/// The errors are `Memory`, and `Bad` with the number of the first bad line and why it is bad.
pub fn view_rows(alloc: Global, text: &[u8]) -> Result<Vec<u8>, PageError>
    requires { length text.now < 2 ^ 31 }
    ensures drawn { IfOk result (λ bytes.
        (page : PageLists) × (page_said text.now ≡ Ok page) × IsView page bytes.items) }
    ensures bad { IfErr result (IsPageError (page_said text.now)) }
{
    let page = read_page(alloc, text)?;
    Ok(draw_page(alloc, &page)?)
}
