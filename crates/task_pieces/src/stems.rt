ghost use Rattle.std.specs.Prelude.{◌≡◌, ◌<◌, ◌++◌, decimal, length, take, IfOk, OnOk};
ghost use Rattle.std.specs.Str.{IsCharBoundary};
ghost use Rattle.std.specs.List.{list_any};
ghost use Rattle.std.specs.String.{string_bytes};
ghost use Rattle.task_pieces.specs.PieceNames.{cut_length, is_number_sign, numbered_name};
ghost use Rattle.task_pieces.specs.PieceNames.{numbered_stem};

use itoa::Buffer;
use std::alloc::{AllocError, Global};
use trace_types::Text;

/// The longest task that may stand whole before the number of a piece, in bytes.
const LONGEST: usize = 40;

/// How many bytes of any other task are kept at most.
const MOST_KEPT: usize = 42;

/// Tells whether a task has a number sign.
fn has_number_sign(task: &[u8]) -> bool
    ensures { result ≡ list_any is_number_sign task.now }
{
    task.iter().any(|byte| *byte == b'#')
}

/// Finds the greatest length up to `MOST_KEPT` after which a longer text can be cut.
fn find_cut(task: &str) -> usize
    requires { 42 < length task.now }
    ensures length { result ≡ cut_length task.now 42 }
    ensures boundary { IsCharBoundary task.now result }
{
    task.floor_char_boundary(MOST_KEPT)
}

/// Lends the first bytes of a task that stand before a number.
fn kept_part(task: &str) -> &str
    ensures { result.now ≡ take (cut_length task.now 42) task.now }
{
    if task.len() <= MOST_KEPT {
        return task;
    }
    let end = find_cut(task);
    &task[..end]
}

/// Appends a text and a number in plain digits.
fn push_number(name: &mut String, before: &str, number: u64) -> Result<(), AllocError>
    ensures { OnOk result (string_bytes name.new
        ≡ string_bytes name.old ++ before.now ++ decimal number) }
{
    let mut digits = Buffer::new();
    name.push_str(before)?;
    name.push_str(digits.format(number))
}

/// Makes what stands before the number of a piece, from the task and its number.
pub(crate) fn make_stem(alloc: Global, task: &str, number: u64) -> Result<String, AllocError>
    ensures { IfOk result (λ stem. string_bytes stem ≡ numbered_stem number task.now) }
{
    if task.len() <= LONGEST && !has_number_sign(task.as_bytes()) {
        return String::from_str(alloc, task);
    }
    let mut stem = String::from_str(alloc, kept_part(task))?;
    push_number(&mut stem, "#", number)?;
    Ok(stem)
}

/// Makes the name with this stem and number.
pub(crate) fn make_name(alloc: Global, stem: &str, number: u32) -> Result<Text, AllocError>
    ensures { IfOk result (λ name. name ≡ numbered_name stem.now number) }
{
    let mut name = String::from_str(alloc, stem)?;
    push_number(&mut name, "/", u64::from(number))?;
    Text::new(alloc, name.as_str())
}
