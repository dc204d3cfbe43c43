ghost use Rattle.std.specs.Prelude.{◌≡◌, IfOk};
ghost use Rattle.std.specs.Ordering.{nat_cmp};
ghost use Rattle.digest_facts.specs.Digests.{Rises, union};

use std::alloc::{AllocError, Global};

/// Makes the list of the days of both, each once, rising. The only error is out of memory.
pub(crate) fn union_of_days(
    alloc: Global,
    first: &[u32],
    second: &[u32],
) -> Result<Vec<u32>, AllocError>
    ensures { IfOk result (λ v. Rises nat_cmp first.now → Rises nat_cmp second.now
        → v.items ≡ union nat_cmp first.now second.now) }
{
    let mut days = Vec::new(alloc);
    let mut i = 0usize;
    let mut j = 0usize;
    'both: while i < first.len() && j < second.len() {
        let x = first[i];
        let y = second[j];
        if x < y {
            days.push(x)?;
            i += 1;
        } else if y < x {
            days.push(y)?;
            j += 1;
        } else {
            days.push(x)?;
            i += 1;
            j += 1;
        }
    }
    days.extend_from_slice(&first[i..])?;
    days.extend_from_slice(&second[j..])?;
    Ok(days)
}
