ghost use Rattle.std.specs.Prelude.{◌≡◌, ◌≤◌, ◌∷◌, ◌++◌, [], OnOk, false, length};
ghost use Rattle.event_lines.specs.Cut.{input_lines};
ghost use Rattle.mystery_io.specs.Input.{input_limit};
ghost use Rattle.line_clean.specs.inner.Carrying.{IsCarry, Passes, text_with};

use crate::carry::Carry;
use crate::cleaning::clean_lines;
use crate::line_feeds::{first_line_feed, last_line_feed};
use event_lines::laws::pieces_say_what_the_whole_says;
use std::alloc::{AllocError, Global};
use std::thread::Threads;

/// Ends the line that is carried: appends it where it is good, and begins the next one.
pub(crate) fn end_line<R: Threads + Sync>(
    rt: &R,
    alloc: Global,
    carry: &mut Carry,
    text: &mut Vec<u8>,
) -> Result<(), AllocError>
    requires { IsCarry carry.old }
    ensures carry { OnOk result (IsCarry carry.new) }
    ensures begun { OnOk result (carry.new.is_long ≡ false) }
    ensures empty { OnOk result (carry.new.rest.items ≡ []) }
    ensures passes { OnOk result
        (Passes text.old.items carry.old (10 ∷ []) text.new.items carry.new) }
    ensures ends { OnOk result (text.new.items ≡ text.old.items ++ text_with carry.old []) }
{
    // For the proof alone.
    pieces_say_what_the_whole_says();
    if carry.is_long {
        carry.clear();
        return Ok(());
    }
    clean_lines(rt, alloc, &carry.rest, text)?;
    carry.clear();
    Ok(())
}

/// Takes bytes of a file that follow a line feed: appends the good ones of the lines that end in
/// them, and carries the rest.
fn take_lines<R: Threads + Sync>(
    rt: &R,
    alloc: Global,
    carry: &mut Carry,
    bytes: &[u8],
    text: &mut Vec<u8>,
) -> Result<(), AllocError>
    requires short { length bytes.now ≤ input_limit }
    requires carry { IsCarry carry.old }
    requires begun { carry.old.is_long ≡ false }
    requires empty { carry.old.rest.items ≡ [] }
    ensures carry { OnOk result (IsCarry carry.new) }
    ensures passes { OnOk result
        (Passes text.old.items carry.old bytes.now text.new.items carry.new) }
{
    // For the proof alone.
    pieces_say_what_the_whole_says();
    let Some(last) = last_line_feed(bytes) else {
        return carry.keep(alloc, bytes);
    };
    clean_lines(rt, alloc, &bytes[..last], text)?;
    carry.keep(alloc, &bytes[last + 1..])
}

/// Takes a piece of a file: appends the good ones of the lines that end in it, and carries the
/// rest.
pub(crate) fn take_piece<R: Threads + Sync>(
    rt: &R,
    alloc: Global,
    carry: &mut Carry,
    piece: &[u8],
    text: &mut Vec<u8>,
) -> Result<(), AllocError>
    requires short { length piece.now ≤ input_limit }
    requires carry { IsCarry carry.old }
    ensures carry { OnOk result (IsCarry carry.new) }
    ensures passes { OnOk result
        (Passes text.old.items carry.old piece.now text.new.items carry.new) }
{
    let Some(first) = first_line_feed(piece) else {
        return carry.keep(alloc, piece);
    };
    carry.keep(alloc, &piece[..first])?;
    end_line(rt, alloc, carry, text)?;
    take_lines(rt, alloc, carry, &piece[first + 1..], text)
}
