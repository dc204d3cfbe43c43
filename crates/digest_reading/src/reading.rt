ghost use Rattle.std.specs.Prelude.{◌≡◌, ◌+◌, ◌≤◌, ◌<◌, ◌^◌, length, IfErr, IfOk, Ok};
ghost use Rattle.digest_reading.specs.Headers.{header_said};
ghost use Rattle.digest_reading.specs.Readings.{IsDigestFault, by_line, digest_said, digests_said};

use crate::day_reading::read_days;
use crate::headers::read_header;
use crate::lines::first_line;
use crate::name_reading::{are_named, read_names};
use crate::read_to::ReadTo;
use crate::task_reading::read_tasks;
use crate::{DigestCounts, DigestFault};
use digest_text::DigestTable;
use std::alloc::Global;

/// Reads the header that stands first, whose line has this number. The errors are `Memory`, and
/// `Bad` with this number.
fn read_counts(
    alloc: Global,
    number: u32,
    bytes: &[u8],
) -> Result<ReadTo<'_, DigestCounts>, DigestFault>
    requires { number + length bytes.now < 2 ^ 32 }
    ensures read { IfOk result (λ r. by_line header_said number bytes.now
        ≡ Ok (record { value = r.value; number = r.number; left = r.left.now })) }
    ensures bad { IfErr result (IsDigestFault (by_line header_said number bytes.now)) }
    ensures room { IfOk result (λ r.
        r.number + length r.left.now ≤ number + length bytes.now) }
    ensures later { IfOk result (λ r. number + 1 ≤ r.number) }
{
    let Some(line) = first_line(bytes) else {
        return Err(DigestFault::Bad { line: number });
    };
    match read_header(alloc, line.line)? {
        Some(counts) => Ok(ReadTo {
            value: counts,
            number: number + 1,
            left: line.rest,
        }),
        None => Err(DigestFault::Bad { line: number }),
    }
}

/// Reads the table of the digest whose text stands first; its header has this number. The errors
/// are `Memory`, and `Bad` with the number of the first line outside the form.
fn read_digest(
    alloc: Global,
    number: u32,
    bytes: &[u8],
) -> Result<ReadTo<'_, DigestTable>, DigestFault>
    requires { number + length bytes.now < 2 ^ 32 }
    ensures read { IfOk result (λ r. digest_said number bytes.now
        ≡ Ok (record { value = r.value; number = r.number; left = r.left.now })) }
    ensures bad { IfErr result (IsDigestFault (digest_said number bytes.now)) }
    ensures room { IfOk result (λ r.
        r.number + length r.left.now ≤ number + length bytes.now) }
    ensures later { IfOk result (λ r. number + 1 ≤ r.number) }
{
    let counts = read_counts(alloc, number, bytes)?;
    let days = read_days(alloc, counts.value.days, counts.number, counts.left)?;
    let tasks = read_tasks(alloc, counts.value.tasks, days.number, days.left)?;
    let names = read_names(
        alloc,
        &tasks.value,
        counts.value.names,
        tasks.number,
        tasks.left,
    )?;
    if !are_named(&tasks.value, &names.value) {
        return Err(DigestFault::Bad {
            line: names.number - 1,
        });
    }
    Ok(ReadTo {
        value: DigestTable {
            traces: counts.value.traces,
            days: days.value,
            tasks: tasks.value,
            names: names.value,
        },
        number: names.number,
        left: names.left,
    })
}

/// Reads the digests whose texts at most 67,108,864 bytes are, one after another, as their tables:
/// at least one.
///
/// The errors are `Memory`, and `Bad` with the number of the first line outside the form, counted
/// from 1 over all texts; where the bytes end too early, that after the last line.
pub fn read_digests(alloc: Global, bytes: &[u8]) -> Result<Vec<DigestTable>, DigestFault>
    requires { length bytes.now ≤ 67108864 }
    ensures read { IfOk result (λ tables. digests_said bytes.now ≡ Ok tables.items) }
    ensures first_bad { IfErr result (IsDigestFault (digests_said bytes.now)) }
{
    let first = read_digest(alloc, 1, bytes)?;
    let mut tables = Vec::new(alloc);
    tables.push(first.value)?;
    let mut number = first.number;
    let mut left = first.left;
    'digests: while !left.is_empty() {
        let read = read_digest(alloc, number, left)?;
        tables.push(read.value)?;
        number = read.number;
        left = read.left;
    }
    Ok(tables)
}
