ghost use Rattle.std.specs.Prelude.{◌≡◌, ◌+◌, ◌<◌, ◌≤◌, ◌^◌, [], length, map, Ok, IfErr, IfOk};
ghost use Rattle.std.specs.Ordering.{nat_cmp};
ghost use Rattle.digest_reading.specs.DigestRows.{comes_after, day_of_fields, day_said};
ghost use Rattle.digest_reading.specs.DigestRows.{is_next_day};
ghost use Rattle.digest_reading.specs.Readings.{IsDigestFault, rows_said};

use crate::DigestFault;
use crate::fields::first_fields;
use crate::lines::first_line;
use crate::read_to::ReadTo;
use std::alloc::{AllocError, Global};
use step_core::plain_number;

/// The day of the latest time of an event.
const LATEST_DAY: u32 = 47_482;

/// Tells whether a day comes after the last of those before it.
fn comes_after(earlier: &[u32], day: u32) -> bool
    ensures { result ≡ comes_after nat_cmp earlier.now day }
{
    match earlier.last() {
        Some(last) => *last < day,
        None => true,
    }
}

/// Tells whether a day may follow those before it.
fn is_next_day(earlier: &[u32], day: u32) -> bool
    ensures { result ≡ is_next_day earlier.now day }
{
    comes_after(earlier, day) && day <= LATEST_DAY
}

/// Reads the day of the fields of a row; none where they have another form.
fn day_of_fields(earlier: &[u32], fields: &[&[u8]]) -> Option<u32>
    ensures { result ≡ day_of_fields earlier.now (map (λ f. f.now) fields.now) }
{
    let [word, day] = fields else {
        return None;
    };
    let Some(day) = plain_number(day) else {
        return None;
    };
    if *word == b"day".as_slice() && is_next_day(earlier, day) {
        Some(day)
    } else {
        None
    }
}

/// Reads the day of a line; none where the line has another form. The only error is out of memory.
fn read_day(alloc: Global, earlier: &[u32], line: &[u8]) -> Result<Option<u32>, AllocError>
    ensures { IfOk result (λ day. day ≡ day_said earlier.now line.now) }
{
    let fields = first_fields(alloc, line)?;
    Ok(day_of_fields(earlier, &fields))
}

/// Reads so many rows of days, of which the first has this number. The errors are `Memory`, and
/// `Bad` with the number of the first line outside the form.
pub(crate) fn read_days(
    alloc: Global,
    count: u32,
    first: u32,
    bytes: &[u8],
) -> Result<ReadTo<'_, Vec<u32>>, DigestFault>
    requires { first + length bytes.now < 2 ^ 32 }
    ensures read { IfOk result (λ r. rows_said day_said count [] first bytes.now
        ≡ Ok (record { value = r.value.items; number = r.number; left = r.left.now })) }
    ensures bad { IfErr result (IsDigestFault (rows_said day_said count [] first bytes.now)) }
    ensures room { IfOk result (λ r.
        r.number + length r.left.now ≤ first + length bytes.now) }
    ensures later { IfOk result (λ r. first ≤ r.number) }
{
    let mut days = Vec::new(alloc);
    let mut number = first;
    let mut left = bytes;
    'rows: while days.len() < count as usize {
        let Some(line) = first_line(left) else {
            return Err(DigestFault::Bad { line: number });
        };
        let Some(day) = read_day(alloc, &days, line.line)? else {
            return Err(DigestFault::Bad { line: number });
        };
        days.push(day)?;
        number += 1;
        left = line.rest;
    }
    Ok(ReadTo {
        value: days,
        number,
        left,
    })
}
