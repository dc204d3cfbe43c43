ghost use Rattle.std.specs.Prelude.{◌≡◌, IfOk, map, option_copied};
ghost use Rattle.digest_reading.specs.Headers.{after_label, are_possible, counts_of_fields};
ghost use Rattle.digest_reading.specs.Headers.{counts_said, header_said};

use crate::DigestCounts;
use crate::fields::first_fields;
use crate::long_numbers::long_number;
use std::alloc::{AllocError, Global};
use step_core::plain_number;

/// Finds what follows the label in a field; none where the field has another beginning.
fn after_label<'f>(label: &[u8], field: &'f [u8]) -> Option<&'f [u8]>
    ensures { option_copied result ≡ after_label label.now field.now }
{
    field.strip_prefix(label)
}

/// Tells whether the counts can be those of traces.
fn are_possible(counts: DigestCounts) -> bool
    ensures { result ≡ are_possible counts }
{
    counts.tasks <= 64
        && counts.names <= 512
        && counts.tasks <= counts.names
        && (counts.tasks != 0 || counts.names == 0)
        && (counts.traces != 0 || counts.names == 0)
        && u64::from(counts.days) <= counts.traces
        && (counts.days != 0 || counts.traces == 0)
}

/// Reads the counts of the four fields after the first; none where they have another form or cannot
/// be those of traces.
fn counts_of_fields(traces: &[u8], days: &[u8], tasks: &[u8], names: &[u8]) -> Option<DigestCounts>
    ensures { result
        ≡ counts_of_fields traces.now days.now tasks.now names.now }
{
    let (Some(traces), Some(days)) = (after_label(b"traces=", traces), after_label(b"days=", days))
    else {
        return None;
    };
    let (Some(tasks), Some(names)) = (after_label(b"tasks=", tasks), after_label(b"names=", names))
    else {
        return None;
    };
    let (Some(traces), Some(days)) = (long_number(traces), plain_number(days)) else {
        return None;
    };
    let (Some(tasks), Some(names)) = (plain_number(tasks), plain_number(names)) else {
        return None;
    };
    let counts = DigestCounts {
        traces,
        days,
        tasks,
        names,
    };
    if are_possible(counts) {
        Some(counts)
    } else {
        None
    }
}

/// Reads the counts of the fields of a header; none where they have another form.
fn read_counts(fields: &[&[u8]]) -> Option<DigestCounts>
    ensures { result ≡ counts_said (map (λ f. f.now) fields.now) }
{
    let [word, traces, days, tasks, names] = fields else {
        return None;
    };
    if *word != b"summary".as_slice() {
        return None;
    }
    counts_of_fields(traces, days, tasks, names)
}

/// Reads the counts of a header; none where the line has another form. The only error is out of
/// memory.
pub(crate) fn read_header(alloc: Global, line: &[u8]) -> Result<Option<DigestCounts>, AllocError>
    ensures { IfOk result (λ counts. counts ≡ header_said line.now) }
{
    let fields = first_fields(alloc, line)?;
    Ok(read_counts(&fields))
}
