ghost use Rattle.std.specs.Prelude.{◌≡◌, ◌<◌, ◌+◌, length, IfOk};
ghost use Rattle.task_pieces.specs.Pieces.{pieces_of};
ghost use Rattle.task_pieces.specs.TaskEvents.{are_of_one_task};
ghost use Rattle.task_pieces.specs.TaskKeys.{AreIndexed, event_of_key, events_of_keys};
ghost use Rattle.task_pieces.specs.declared.task_key.TaskKey.{TaskKey};
ghost use Rattle.task_pieces.specs.inner.Numbering.{ArePlaced, IsPieceBefore, IsSorting};
ghost use Rattle.task_pieces.specs.inner.Numbering.{next_piece, piece_at};

use crate::TaskKey;
use std::alloc::{AllocError, Global};

/// Tells whether two events are of one task of one request.
fn is_one_task(first: &TaskKey<'_>, second: &TaskKey<'_>) -> bool
    ensures { result ≡ are_of_one_task (event_of_key first.now) (event_of_key second.now) }
{
    first.batch == second.batch && first.request == second.request && first.task == second.task
}

/// Gives the piece of an event from that of the key before it.
fn piece_after(piece: u32, before: &TaskKey<'_>, key: &TaskKey<'_>) -> u32
    requires { piece < u32.MAX }
    ensures { result ≡ next_piece piece (event_of_key before.now) (event_of_key key.now) }
{
    if !is_one_task(before, key) {
        1
    } else if before.sends && key.receives {
        piece + 1
    } else {
        piece
    }
}

/// Gives the piece of the key at this place, from that of the one before it.
fn find_piece(order: &[TaskKey<'_>], at: usize, piece: u32) -> u32
    requires sorted { IsSorting order.now }
    requires few { length order.now + 1 < u32.MAX }
    requires within { at < length order.now }
    requires before { IsPieceBefore order.now at piece }
    ensures { (d : TaskKey) → result ≡ piece_at order.now at d }
{
    if at == 0 {
        return 1;
    }
    piece_after(piece, &order[at - 1], &order[at])
}

/// Puts the piece of each event at its index. The keys stand by task, time and index.
fn place_pieces(order: &[TaskKey<'_>], pieces: &mut [u32])
    requires sorted { IsSorting order.now }
    requires few { length order.now + 1 < u32.MAX }
    requires room { length pieces.old ≡ length order.now }
    ensures placed { ArePlaced order.now (length order.now) pieces.new }
    ensures length { length pieces.new ≡ length pieces.old }
{
    let mut piece = 1u32;
    for at in 0..order.len() {
        piece = find_piece(order, at, piece);
        pieces[order[at].index as usize] = piece;
    }
}

/// Numbers the pieces of tasks: gives, by index, the piece that each event is in, from 1. The only
/// error is out of memory.
pub(crate) fn number_pieces(alloc: Global, keys: Vec<TaskKey<'_>>) -> Result<Vec<u32>, AllocError>
    requires indexed { AreIndexed keys.items }
    requires few { length keys.items + 1 < u32.MAX }
    ensures { IfOk result (λ pieces. pieces.items ≡ pieces_of (events_of_keys keys.entry.items)) }
{
    let mut pieces = vec![in alloc; 0u32; keys.len()]?;
    let mut order = keys;
    order.sort_unstable();
    place_pieces(&order, &mut pieces);
    Ok(pieces)
}
