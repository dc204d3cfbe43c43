ghost use Rattle.std.specs.Prelude.{◌≡◌, ◌<◌, All, IfOk, length};
ghost use Rattle.alike_groups.specs.declared.group.Group.{Group};
ghost use Rattle.name_quality.specs.Names.{HasTexts, name_under};
ghost use Rattle.inspect_run.specs.NameRows.{first_text};
ghost use Rattle.inspect_run.specs.Rows.{no_example};
ghost use Rattle.inspect_run.specs.inner.Listing.{label_of, labels_at, name_at, pattern_for};

use crate::listed::Listed;
use crate::subject::Subject;
use alike_groups::Group;
use name_quality::{NameNumbers, push_name, push_name_pattern, push_task, push_task_pattern};
use std::alloc::{AllocError, Global};

impl<'n> Listed<'n> {
    /// Gives the first name of a group.
    fn name(&self, group: Group) -> NameNumbers
        requires { group.first < length self.now.names.now }
        ensures known { HasTexts self.now.texts.now result }
        ensures name { name_under self.now.texts.now result ≡ name_at self.now group }
    {
        self.names[group.first]
    }

    /// Makes the first name of a group as it is printed. The only error is out of memory.
    pub(crate) fn make_label(&self, alloc: Global, group: Group) -> Result<Vec<u8>, AllocError>
        requires { group.first < length self.now.names.now }
        ensures { IfOk result
            (λ text. text.items ≡ label_of self.now.subject (name_at self.now group)) }
    {
        let mut text = Vec::new(alloc);
        match self.subject {
            Subject::Names => push_name(&mut text, self.texts, self.name(group))?,
            Subject::Tasks => push_task(&mut text, self.texts, self.name(group))?,
        }
        Ok(text)
    }

    /// Makes the pattern of the first name of a group. The only error is out of memory.
    pub(crate) fn make_pattern(&self, alloc: Global, group: Group) -> Result<Vec<u8>, AllocError>
        requires { group.first < length self.now.names.now }
        ensures { IfOk result
            (λ text. text.items ≡ pattern_for self.now.subject (name_at self.now group)) }
    {
        let mut text = Vec::new(alloc);
        match self.subject {
            Subject::Names => push_name_pattern(&mut text, self.texts, self.name(group))?,
            Subject::Tasks => push_task_pattern(&mut text, self.texts, self.name(group))?,
        }
        Ok(text)
    }

    /// Makes the first name of the first of some groups, or `-`. The only error is out of memory.
    pub(crate) fn make_example(
        &self,
        alloc: Global,
        groups: &[Group],
    ) -> Result<Vec<u8>, AllocError>
        requires { All (λ (g : Group). g.first < length self.now.names.now) groups.now }
        ensures { IfOk result (λ text. text.items ≡ first_text (labels_at self.now groups.now)) }
    {
        if groups.is_empty() {
            return make_dash(alloc);
        }
        self.make_label(alloc, groups[0])
    }
}

/// Makes what stands in place of an example.
fn make_dash(alloc: Global) -> Result<Vec<u8>, AllocError>
    ensures { IfOk result (λ text. text.items ≡ no_example) }
{
    let mut text = Vec::new(alloc);
    text.push(b'-')?;
    Ok(text)
}
