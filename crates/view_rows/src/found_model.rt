ghost use Rattle.std.specs.Prelude.{IfOk};
ghost use Rattle.view_rows.specs.inner.Found.{IsFound};

use crate::gathering::{count_both, count_days, mark_both};
use crate::name_pair::NamePair;
use crate::name_pairs::name_pairs;
use crate::task_pair::TaskPair;
use crate::task_pairs::task_pairs;
use judged_books::JudgedBook;
use kept_names::{list_names, list_tasks};
use model_meet::Model;
use std::alloc::{AllocError, Global};

/// The model of a given digest and of kept traces, before it is printed: its figures, and its pairs in the order in which
/// they are printed.
#[derive(Debug, Drop)]
pub(crate) struct FoundModel<'a> {
    /// The number of traces of both.
    pub traces: u128,
    /// The number of their days.
    pub days: u128,
    /// The number of different names of their segments.
    pub names: u32,
    /// The number of different tasks.
    pub tasks: u32,
    /// The pairs of names of which the first happens before the second.
    pub hb: Vec<NamePair<'a>>,
    /// The pairs of names that are mutually exclusive with no fixed order.
    pub mx: Vec<NamePair<'a>>,
    /// The pairs of tasks that are a pipeline.
    pub pipe: Vec<TaskPair<'a>>,
}

/// Finds the model of a given digest and a book's traces. It asks the words of both for each ordered
/// pair of names and of tasks once; its memory is that of the pairs, two references each, and of the
/// marks and the listed names and tasks. The only error is out of memory.
pub(crate) fn find_model<'a>(
    alloc: Global,
    judged: &JudgedBook<'a>,
) -> Result<FoundModel<'a>, AllocError>
    ensures { IfOk result (IsFound judged.now) }
{
    let book = judged.book();
    let catalogue = book.catalogue();
    let marks = mark_both(alloc, judged)?;
    let names = list_names(alloc, catalogue, &marks.names)?;
    let tasks = list_tasks(alloc, catalogue, &marks.tasks)?;
    let model = Model::new(judged.words(), book.names());
    let pairs = name_pairs(alloc, &model, &names)?;
    let pipe = task_pairs(alloc, &model, &tasks)?;
    Ok(FoundModel {
        traces: count_both(judged),
        days: count_days(judged),
        names: names.len() as u32,
        tasks: tasks.len() as u32,
        hb: pairs.before,
        mx: pairs.exclusive,
        pipe,
    })
}
