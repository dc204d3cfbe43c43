//! Steps on the rows of one list of words.
ghost use Rattle.std.specs.Prelude.{◌≡◌, ◌≢◌, ◌+◌, ◌-◌, ◌*◌, ◌<◌, ◌≤◌, ◌++◌, length, drop};
ghost use Rattle.word_rows.specs.Words.{full_words as full, widened_words as widened};
ghost use Rattle.row_pool.specs.inner.Layout.{row_in, IsRow, WritesRow, Meets};

/// Sets all bits of a row.
pub(crate) fn fill_row(words: &mut [u64], width: usize, row: usize)
    requires { IsRow width row words.old }
    ensures { WritesRow width row words.old words.new (full width) }
{
    words[row * width..row * width + width].fill(u64::MAX);
}

/// Copies words into a row.
pub(crate) fn write_row(words: &mut [u64], width: usize, row: usize, from: &[u64])
    requires row { IsRow width row words.old }
    requires width { length from.now ≡ width }
    ensures { WritesRow width row words.old words.new from.now }
{
    words[row * width..row * width + width].copy_from_slice(from);
}

/// Makes the row `to` the meet of `a` and `b`.
pub(crate) fn meet_rows(words: &mut [u64], width: usize, to: usize, a: usize, b: usize)
    requires rows { IsRow width to words.old × IsRow width a words.old × IsRow width b words.old }
    requires apart { (to ≢ a) × (to ≢ b) }
    ensures { Meets width to a b words.old words.new }
{
    for k in 0..width {
        words[to * width + k] = words[a * width + k] & words[b * width + k];
    }
}

/// Copies words to the beginning of others.
pub(crate) fn copy_words(to: &mut [u64], from: &[u64])
    requires { length from.now ≤ length to.old }
    ensures { to.new ≡ from.now ++ drop (length from.now) to.old }
{
    to[..from.len()].copy_from_slice(from);
}

/// Copies a row of `from` to the same row at a greater width, full words after it.
pub(crate) fn widen_row(to: &mut [u64], new: usize, from: &[u64], old: usize, row: usize)
    requires widths { (0 < old) × (old ≤ new) }
    requires rows { IsRow new row to.old × IsRow old row from.now }
    ensures { WritesRow new row to.old to.new (widened (row_in from.now old row) (new - old)) }
{
    copy_widened(
        &mut to[row * new..row * new + new],
        &from[row * old..row * old + old],
    );
}

/// Copies words, with full words after them.
fn copy_widened(to: &mut [u64], from: &[u64])
    requires { length from.now ≤ length to.old }
    ensures { to.new ≡ widened from.now (length to.old - length from.now) }
{
    copy_words(to, from);
    to[from.len()..].fill(u64::MAX);
}
