ghost use Rattle.std.specs.Prelude.{◌≡◌, ◌++◌, ◌∷◌, [], if◌then◌else◌, position, IfOk, OnOk};
ghost use Rattle.std.specs.List.{list_any, position_or_len};
ghost use Rattle.span_requests.specs.inner.Ids.{pair_eq, pair_of_key, pairs_of_keys};

use crate::span_id::SpanId;
use indexmap::IndexSet;
use std::alloc::AllocError;

/// Gives the number of an id in the order of first sight, from 0; a new one is put last.
pub(crate) fn number_id<'a>(
    ids: &mut IndexSet<SpanId<'a>>,
    id: SpanId<'a>,
) -> Result<usize, AllocError>
    ensures ids { OnOk result (pairs_of_keys ids.new.keys
        ≡ (if list_any (pair_eq (pair_of_key id.entry)) (pairs_of_keys ids.old.keys)
        then pairs_of_keys ids.old.keys else pairs_of_keys ids.old.keys ++ pair_of_key id.entry ∷ [])) }
    ensures number { IfOk result (λ n.
        n ≡ position_or_len (pair_eq (pair_of_key id.entry)) (pairs_of_keys ids.old.keys)) }
{
    let (number, _) = ids.insert_full(id)?;
    Ok(number)
}

/// Finds the number of an id.
pub(crate) fn find_id(ids: &IndexSet<SpanId<'_>>, id: SpanId<'_>) -> Option<usize>
    ensures { result ≡ position (pair_eq (pair_of_key id.entry)) (pairs_of_keys ids.now.keys) }
{
    ids.get_index_of(&id)
}
