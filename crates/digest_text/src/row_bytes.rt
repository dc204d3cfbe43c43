ghost use Rattle.std.specs.Prelude.{◌≡◌, ◌++◌, ◌∷◌, decimal, map, IfOk, OnOk};
ghost use Rattle.std.specs.List.{flat_map, join_with_byte};
ghost use Rattle.text_rows.specs.Rows.{figure, row_of};

use itoa::Buffer;
use std::alloc::{AllocError, Global};

/// Appends fields, each after a tab.
fn put_rest(bytes: &mut Vec<u8>, fields: &[&[u8]]) -> Result<(), AllocError>
    ensures { OnOk result (bytes.new.items ≡ bytes.old.items
        ++ flat_map (λ f. 9 ∷ f.now) fields.now) }
{
    for field in fields {
        bytes.push(b'\t')?;
        bytes.extend_from_slice(field)?;
    }
    Ok(())
}

/// Appends fields, tab-separated.
fn put_fields(bytes: &mut Vec<u8>, fields: &[&[u8]]) -> Result<(), AllocError>
    ensures { OnOk result (bytes.new.items ≡ bytes.old.items
        ++ join_with_byte 9 (map (λ f. f.now) fields.now)) }
{
    let [first, rest @ ..] = fields else {
        return Ok(());
    };
    bytes.extend_from_slice(first)?;
    put_rest(bytes, rest)?;
    Ok(())
}

/// Appends a row. The only error is an allocation failure, after which the bytes may end in the
/// middle of the row.
pub(crate) fn put_row(bytes: &mut Vec<u8>, fields: &[&[u8]]) -> Result<(), AllocError>
    ensures { OnOk result (bytes.new.items ≡ bytes.old.items
        ++ row_of (map (λ f. f.now) fields.now)) }
{
    put_fields(bytes, fields)?;
    Ok(bytes.push(b'\n')?)
}

/// Makes the digits of a number. The only error is out of memory.
pub(crate) fn make_digits(alloc: Global, number: u64) -> Result<Vec<u8>, AllocError>
    ensures { IfOk result (λ digits. digits.items ≡ decimal number) }
{
    let mut digits = Buffer::new();
    let mut bytes = Vec::new(alloc);
    bytes.extend_from_slice(digits.format(number).as_bytes())?;
    Ok(bytes)
}

/// Makes a name with its number, as `traces=3`. The only error is out of memory.
pub(crate) fn make_figure(alloc: Global, name: &[u8], number: u64) -> Result<Vec<u8>, AllocError>
    ensures { IfOk result (λ text. text.items ≡ figure name.now number) }
{
    let mut digits = Buffer::new();
    let mut bytes = Vec::new(alloc);
    bytes.extend_from_slice(name)?;
    bytes.push(b'=')?;
    bytes.extend_from_slice(digits.format(number).as_bytes())?;
    Ok(bytes)
}
