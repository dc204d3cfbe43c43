ghost use Rattle.std.specs.Prelude.{◌≢◌, ◌*◌, ◌+◌, ◌<◌, OnOk};
ghost use Rattle.model_meet.specs.ExclusionTables.{HasEntries, TellsExclusion};

use crate::{ExclusionRows, Model};
use std::alloc::{AllocError, Global};

/// The mutual exclusions of a model, an entry for each two names, so that one of them is told by one
/// look. They are listed once where many traces ask, and seen as the model.
#[derive(Drop)]
pub struct Exclusions<'a> {
    model: Model<'a>,
    table: Vec<bool>,
}

impl<'a> std::marker::Model for Exclusions<'a> {
    ghost use Rattle.model_meet.specs.ModelStates.{ModelState};
    ghost use Rattle.model_meet.specs.ExclusionTables.{IsExclusionTable};

    ghost Value = { ModelState };

    ghost view = { λ e. e.model };

    ghost invariant = { λ e. IsExclusionTable e.model e.table.items };
}

/// Tells whether two names differ and are mutually exclusive.
fn entry_of(model: &Model, a: u32, b: u32) -> bool
    requires first { a < model.now.names }
    requires second { b < model.now.names }
    ensures { a ≢ b → TellsExclusion model.now a b result }
{
    a != b && model.exclusive(a, b)
}

/// Appends the entries of one name and each other, in order.
fn add_row(model: &Model, name: u32, table: &mut Vec<bool>) -> Result<(), AllocError>
    requires name { name < model.now.names }
    requires before { HasEntries model.now (name * model.now.names) table.old.items }
    ensures { OnOk result (HasEntries model.now ((name + 1) * model.now.names) table.new.items) }
{
    for other in 0..model.names() {
        table.push(entry_of(model, name, other))?;
    }
    Ok(())
}

impl<'a> Exclusions<'a> {
    ghost use Rattle.std.specs.Prelude.{◌≡◌, IfOk};

    /// Lists the mutual exclusions of a model. The only error is that memory ran out.
    pub fn of(alloc: Global, model: &Model<'a>) -> Result<Exclusions<'a>, AllocError>
        ensures { IfOk result (λ e. e ≡ model.now) }
    {
        let names = model.names();
        let mut table = Vec::with_capacity(alloc, names as usize * names as usize)?;
        for name in 0..names {
            add_row(model, name, &mut table)?;
        }
        Ok(Exclusions {
            model: model.copy(),
            table,
        })
    }

    /// Lends the rows of the table. It takes no memory.
    pub fn rows(&self) -> ExclusionRows<'_>
        ensures words { result.words.now ≡ self.now.words }
        ensures names { result.names ≡ self.now.names }
    {
        ExclusionRows {
            words: self.model.words(),
            names: self.model.names(),
            table: self.table.as_slice(),
        }
    }
}
