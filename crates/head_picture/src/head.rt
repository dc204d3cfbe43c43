ghost use Rattle.std.specs.Prelude.{◌≡◌, ◌++◌, OnOk};
ghost use Rattle.head_picture.specs.Heads.{head_text};

use crate::columns::push_columns;
use crate::figures::{push_figures, task_count};
use crate::refused::push_refused;
use crate::texts::push_head_start;
use markup::push_fixed;
use page_rows::Page;
use std::alloc::{AllocError, Global};

/// Appends the head of a page. The only error is out of memory, after which the bytes may end in the
/// middle of it.
#[tactic(auto, unfolding(crate::specs::Heads::head_text))]
pub fn push_head(alloc: Global, bytes: &mut Vec<u8>, page: &Page) -> Result<(), AllocError>
    ensures { OnOk result (bytes.new.items ≡ bytes.old.items ++ head_text page.now) }
{
    let tasks = task_count(alloc, page.segments())?;
    push_head_start(bytes)?;
    push_figures(bytes, page, tasks)?;
    push_columns(bytes, page)?;
    push_refused(alloc, bytes, page.refused())?;
    push_fixed(bytes, "</header>")
}
