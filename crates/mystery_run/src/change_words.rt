ghost use Rattle.std.specs.Prelude.{◌≡◌, ◌<◌, ◌≤◌, length, option_map, IfOk, IfSome};
ghost use Rattle.mystery_run.specs.CommandLines.{change_of_words};
ghost use Rattle.mystery_run.specs.inner.ParsedLines.{change_of};

use crate::numbers::number_between;
use session_rules::NamedChange;
use std::alloc::{AllocError, Global};
use trace_types::{NameText, Text};

/// The greatest denominator of a change.
const MAX_DEN: u32 = 1_000_000;

/// The segments of one name take `num / den` of their time; the name is that of the arguments.
#[derive(Clone, Copy, Debug)]
pub(crate) struct ChangeWords<'w> {
    /// The task of the name.
    pub(crate) task: &'w Text,
    /// Its start event.
    pub(crate) start: &'w Text,
    /// Its end event.
    pub(crate) end: &'w Text,
    /// The numerator, at most the denominator.
    pub(crate) num: u32,
    /// The denominator, from 1 to 1,000,000.
    pub(crate) den: u32,
}

impl<'w> ChangeWords<'w> {
    /// Reads a change from three texts, which must not be empty, and two numbers.
    pub(crate) fn parse(
        task: &'w Text,
        start: &'w Text,
        end: &'w Text,
        num: &str,
        den: &str,
    ) -> Option<ChangeWords<'w>>
        ensures change { option_map change_of result
            ≡ change_of_words task.now start.now end.now num.now den.now }
        ensures some { IfSome result (λ c. 0 < c.den) }
        ensures most { IfSome result (λ c. c.num ≤ c.den) }
    {
        if task.as_str().is_empty() || start.as_str().is_empty() || end.as_str().is_empty() {
            return None;
        }
        let den = number_between(1, MAX_DEN, den)?;
        let num = number_between(0, den, num)?;
        Some(ChangeWords {
            task,
            start,
            end,
            num,
            den,
        })
    }

    /// Copies the change. The only error is an allocation failure.
    pub(crate) fn copy(self, alloc: Global) -> Result<NamedChange, AllocError>
        ensures { IfOk result (λ change. change ≡ change_of self.entry) }
    {
        let name = NameText {
            task: self.task.copy(alloc)?,
            start: self.start.copy(alloc)?,
            end: self.end.copy(alloc)?,
        };
        Ok(NamedChange {
            name,
            num: self.num,
            den: self.den,
        })
    }
}
