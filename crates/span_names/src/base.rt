ghost use Rattle.std.specs.Prelude.{◌≡◌, ◌<◌, length, string_bytes, take, IfOk};
ghost use Rattle.std.specs.Str.{IsCharBoundary};
ghost use Rattle.span_names.specs.Names.{base_of};
ghost use Rattle.task_pieces.specs.PieceNames.{cut_length};

use crate::escaping::escape;
use std::alloc::{AllocError, Global};

/// Finds the greatest length up to `most` after which a longer text can be cut.
fn find_cut(text: &str, most: usize) -> usize
    requires { most < length text.now }
    ensures length { result ≡ cut_length text.now most }
    ensures boundary { IsCharBoundary text.now result }
{
    text.floor_char_boundary(most)
}

/// Cuts a text after at most so many bytes.
fn cut_text(text: &mut String, most: usize)
    requires { 0 < most }
    ensures { string_bytes text.new
        ≡ take (cut_length (string_bytes text.old) most) (string_bytes text.old) }
{
    if text.len() > most {
        let end = find_cut(text.as_str(), most);
        text.truncate(end);
    }
}

/// Makes the base of a name: a text escaped, and cut between characters after at most so many
/// bytes. The only error is out of memory.
pub fn make_base(alloc: Global, text: &str, most: usize) -> Result<String, AllocError>
    requires { 0 < most }
    ensures { IfOk result (λ base. string_bytes base ≡ base_of most text.now) }
{
    let mut base = escape(alloc, text)?;
    cut_text(&mut base, most);
    Ok(base)
}
