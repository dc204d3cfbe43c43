ghost use Rattle.std.specs.Prelude.{◌≡◌, IfOk};
ghost use Rattle.std.specs.Str.Lines.{lines};
ghost use Rattle.pretty_cli.specs.Fields.{field_at, figure_of, line_fields, number_at, number_of};
ghost use Rattle.pretty_cli.specs.Fields.{texts_of};

use std::alloc::{AllocError, Global};

/// Cuts a text into its lines.
pub(crate) fn lines_of<'t>(alloc: Global, text: &'t str) -> Result<Vec<&'t str>, AllocError>
    ensures { IfOk result (λ parts. texts_of parts.items ≡ lines text.now) }
{
    text.lines().collect(alloc)
}

/// Cuts a line at its tabs.
pub(crate) fn fields_of<'t>(alloc: Global, line: &'t str) -> Result<Vec<&'t str>, AllocError>
    ensures { IfOk result (λ fields. texts_of fields.items ≡ line_fields line.now) }
{
    line.split('\t').collect(alloc)
}

/// Lends a field of a row, or nothing where it is missing.
pub(crate) fn field<'t>(fields: &[&'t str], index: usize) -> &'t str
    ensures { result.now ≡ field_at (texts_of fields.now) index }
{
    match fields.get(index) {
        Some(field) => *field,
        None => "",
    }
}

/// Reads a number; what is none below 2^64 counts as 2^64 - 1.
pub(crate) fn number_of(text: &str) -> u64
    ensures { result ≡ number_of text.now }
{
    match text.parse::<u64>() {
        Ok(number) => number,
        Err(_) => u64::MAX,
    }
}

/// Reads the number in a field.
pub(crate) fn number_at(fields: &[&str], index: usize) -> u64
    ensures { result ≡ number_at (texts_of fields.now) index }
{
    number_of(field(fields, index))
}

/// Reads a number of a header by the name before it, as that of `traces=3` by `traces=`.
pub(crate) fn figure(fields: &[&str], index: usize, name: &str) -> u64
    ensures { result ≡ figure_of name.now (field_at (texts_of fields.now) index) }
{
    match field(fields, index).strip_prefix(name) {
        Some(number) => number_of(number),
        None => u64::MAX,
    }
}
