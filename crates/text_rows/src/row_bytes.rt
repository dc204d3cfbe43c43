ghost use Rattle.std.specs.Prelude.{◌≡◌, ◌++◌, ◌∷◌, map, decimal, OnOk};
ghost use Rattle.std.specs.List.{flat_map, join_with_byte};
ghost use Rattle.text_rows.specs.Fields.{field_text};
ghost use Rattle.text_rows.specs.Rows.{row_of};

use crate::Field;
use itoa::Buffer;
use std::alloc::AllocError;

/// Appends a number in plain digits.
fn put_number(bytes: &mut Vec<u8>, number: u128) -> Result<(), AllocError>
    ensures { OnOk result (bytes.new.items ≡ bytes.old.items ++ decimal number) }
{
    let mut digits = Buffer::new();
    bytes.extend_from_slice(digits.format(number).as_bytes())
}

/// Appends a field.
fn put_field(bytes: &mut Vec<u8>, field: &Field<'_>) -> Result<(), AllocError>
    ensures { OnOk result (bytes.new.items ≡ bytes.old.items ++ field_text field.now) }
{
    match field {
        Field::Word(word) => bytes.extend_from_slice(word.as_bytes()),
        Field::Number(number) => put_number(bytes, *number),
        Field::Figure(name, number) => {
            bytes.extend_from_slice(name.as_bytes())?;
            bytes.push(b'=')?;
            put_number(bytes, *number)
        }
    }
}

/// Appends fields, each after a tab.
fn put_rest(bytes: &mut Vec<u8>, fields: &[Field<'_>]) -> Result<(), AllocError>
    ensures { OnOk result (bytes.new.items ≡ bytes.old.items
        ++ flat_map (λ f. 9 ∷ field_text f) fields.now) }
{
    for field in fields {
        bytes.push(b'\t')?;
        put_field(bytes, field)?;
    }
    Ok(())
}

/// Appends fields, tab-separated.
fn put_fields(bytes: &mut Vec<u8>, fields: &[Field<'_>]) -> Result<(), AllocError>
    ensures { OnOk result (bytes.new.items ≡ bytes.old.items
        ++ join_with_byte 9 (map field_text fields.now)) }
{
    let [first, rest @ ..] = fields else {
        return Ok(());
    };
    put_field(bytes, first)?;
    put_rest(bytes, rest)?;
    Ok(())
}

/// Appends a row. The only error is an allocation failure, after which the bytes may end in the
/// middle of the row.
pub(crate) fn put_row(bytes: &mut Vec<u8>, fields: &[Field<'_>]) -> Result<(), AllocError>
    ensures { OnOk result (bytes.new.items ≡ bytes.old.items
        ++ row_of (map field_text fields.now)) }
{
    put_fields(bytes, fields)?;
    Ok(bytes.push(b'\n')?)
}
