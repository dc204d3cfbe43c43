ghost use Rattle.std.specs.Prelude.{◌≡◌, ◌<◌, [], All, length, IfOk};
ghost use Rattle.context_names.specs.Scattering.{scattered};

use std::alloc::{AllocError, Global};

/// Writes the values of numbers, from the last one on.
fn write_values(all: &mut [usize], numbers: &[usize], values: &[usize])
    requires same { length values.now ≡ length numbers.now }
    requires within { All (λ n. n < length all.old) numbers.now }
    requires none { all.old ≡ scattered (length all.old) [] [] }
    ensures { all.new ≡ scattered (length all.old) numbers.now values.now }
{
    for left in 0..numbers.len() {
        let at = numbers.len() - 1 - left;
        all[numbers[at]] = values[at];
    }
}

/// Gives the value of each number below a bound, where these numbers have these values, and any
/// other 0; of a number that comes twice the first counts. The only error is out of memory.
pub(crate) fn scatter(
    alloc: Global,
    numbers: &[usize],
    values: &[usize],
    count: usize,
) -> Result<Vec<usize>, AllocError>
    requires same { length values.now ≡ length numbers.now }
    requires within { All (λ n. n < count) numbers.now }
    ensures { IfOk result (λ all. all.items ≡ scattered count numbers.now values.now) }
{
    let mut all = vec![in alloc; 0usize; count]?;
    write_values(&mut all, numbers, values);
    Ok(all)
}
