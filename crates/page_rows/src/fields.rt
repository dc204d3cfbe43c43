ghost use Rattle.std.specs.Prelude.{◌≡◌, ◌<◌, ◌≤◌, ◌+◌, ◌^◌, drop, length, IfOk, IsTrue};
ghost use Rattle.std.specs.List.{list_all};
ghost use Rattle.std.specs.Char.{is_ascii_digit};
ghost use Rattle.std.specs.Str.Parse.{digits_value};
ghost use Rattle.page_rows.specs.Fields.{field_at, figure_at, is_figure, is_number, line_fields};
ghost use Rattle.page_rows.specs.Fields.{name_at, number_at, number_of, numbers_from, text_lines, texts_of};

use crate::{Amount, NumberList};
use std::alloc::{AllocError, Global};
use trace_types::{NameText, Text};

/// The most digits that a number has.
const MOST_DIGITS: usize = 24;

/// Cuts a text into its lines.
pub(crate) fn lines_of<'t>(alloc: Global, text: &'t [u8]) -> Result<Vec<&'t [u8]>, AllocError>
    ensures { IfOk result (λ lines. texts_of lines.items ≡ text_lines text.now) }
{
    text.split(|byte| *byte == b'\n').collect(alloc)
}

/// Cuts a line at its tabs.
pub(crate) fn fields_of<'t>(alloc: Global, line: &'t str) -> Result<Vec<&'t str>, AllocError>
    ensures { IfOk result (λ fields. texts_of fields.items ≡ line_fields line.now) }
{
    line.split('\t').collect(alloc)
}

/// Lends a field of a row, or nothing where it is missing.
pub(crate) fn field<'t>(fields: &[&'t str], place: usize) -> &'t str
    ensures { result.now ≡ field_at (texts_of fields.now) place }
{
    match fields.get(place) {
        Some(field) => *field,
        None => "",
    }
}

/// Tells whether all bytes are decimal digits.
fn are_digits(text: &[u8]) -> bool
    ensures { result ≡ list_all is_ascii_digit text.now }
{
    text.iter().all(|byte| byte.is_ascii_digit())
}

/// Tells whether a text is a number: 1 to 24 digits.
pub(crate) fn is_number(text: &[u8]) -> bool
    ensures { result ≡ is_number text.now }
{
    !text.is_empty() && text.len() <= MOST_DIGITS && are_digits(text)
}

/// Finds the value of at most 24 digits.
fn value_of(digits: &[u8]) -> u128
    requires digits { IsTrue (list_all is_ascii_digit digits.now) }
    requires few { length digits.now ≤ 24 }
    ensures value { result ≡ digits_value 10 digits.now }
    ensures small { result < 2 ^ 80 }
{
    let mut value = 0u128;
    for digit in digits {
        value = value * 10 + u128::from(*digit - b'0');
    }
    value
}

/// Reads a number; a text that is none counts as 0.
pub(crate) fn number_of(text: &[u8]) -> Amount
    ensures { result ≡ number_of text.now }
{
    if is_number(text) {
        Amount::of(value_of(text))
    } else {
        Amount::of(0)
    }
}

/// Reads the number in a field.
pub(crate) fn number_at(fields: &[&str], place: usize) -> Amount
    ensures { result ≡ number_at (texts_of fields.now) place }
{
    number_of(field(fields, place).as_bytes())
}

/// Lends the fields from this place on.
fn fields_from<'f, 't>(fields: &'f [&'t str], place: usize) -> &'f [&'t str]
    ensures { result.now ≡ drop place fields.now }
{
    if place < fields.len() {
        &fields[place..]
    } else {
        &[]
    }
}

/// Tells whether all fields are numbers.
fn are_numbers(fields: &[&str]) -> bool
    ensures { result ≡ list_all (λ field. is_number field.now) fields.now }
{
    fields.iter().all(|field| is_number(field.as_bytes()))
}

/// Tells whether all fields from this place on are numbers.
pub(crate) fn are_numbers_from(fields: &[&str], place: usize) -> bool
    ensures { result ≡ list_all is_number (drop place (texts_of fields.now)) }
{
    let rest = fields_from(fields, place);
    are_numbers(rest)
}

/// Reads the numbers in all fields from this place on.
pub(crate) fn numbers_from(
    alloc: Global,
    fields: &[&str],
    place: usize,
) -> Result<NumberList, AllocError>
    ensures { IfOk result (λ numbers. numbers ≡ numbers_from (texts_of fields.now) place) }
{
    let mut numbers = Vec::new(alloc);
    let rest = fields_from(fields, place);
    'fields: for field in rest {
        numbers.push(number_of(field.as_bytes()))?;
    }
    Ok(NumberList::of(numbers))
}

/// Tells whether a text is a name and a number behind it.
pub(crate) fn is_figure(text: &str, name: &str) -> bool
    ensures { result ≡ is_figure name.now text.now }
{
    match text.as_bytes().strip_prefix(name.as_bytes()) {
        Some(number) => is_number(number),
        None => false,
    }
}

/// Reads the number behind a name in a field.
pub(crate) fn figure_at(fields: &[&str], place: usize, name: &str) -> Amount
    ensures { result ≡ figure_at name.now (texts_of fields.now) place }
{
    match field(fields, place)
        .as_bytes()
        .strip_prefix(name.as_bytes())
    {
        Some(number) => number_of(number),
        None => Amount::of(0),
    }
}

/// Copies the text in a field.
pub(crate) fn text_at(alloc: Global, fields: &[&str], place: usize) -> Result<Text, AllocError>
    ensures { IfOk result (λ text. text ≡ field_at (texts_of fields.now) place) }
{
    Text::new(alloc, field(fields, place))
}

/// Copies the name in three fields.
pub(crate) fn name_at(alloc: Global, fields: &[&str], place: usize) -> Result<NameText, AllocError>
    requires { place < 2 ^ 32 }
    ensures { IfOk result (λ name. name ≡ name_at (texts_of fields.now) place) }
{
    Ok(NameText {
        task: text_at(alloc, fields, place)?,
        start: text_at(alloc, fields, place + 1)?,
        end: text_at(alloc, fields, place + 2)?,
    })
}
