/// A field of a row.
#[derive(Clone, Copy, Debug)]
pub enum Field<'t> {
    /// A text as it is.
    Word(&'t str),
    /// A number in plain digits.
    Number(u128),
    /// A name and its number, as `traces=3`.
    Figure(&'t str, u128),
}
