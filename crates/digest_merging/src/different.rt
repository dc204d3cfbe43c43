ghost use Rattle.std.specs.Prelude.{◌≡◌, ◌↔◌, List, length, map, Contains};
ghost use Rattle.digest_facts.specs.Digests.{Rises, TellsApart};

use std::cmp::Ordering;

/// Counts the different ones of these. It sorts them, and takes no memory.
pub(crate) fn count_different<T: Ord>(mut items: Vec<&T>) -> usize
    ensures { TellsApart T.cmp → (xs : List T) → Rises T.cmp xs
        → ((x : T) → Contains xs x ↔ Contains (map (λ r. r.now) items.entry.items) x)
        → result ≡ length xs }
{
    items.sort_unstable();
    let mut count = 0usize;
    'items: for k in 0..items.len() {
        if k == 0 || items[k - 1].cmp(items[k]) == Ordering::Less {
            count += 1;
        }
    }
    count
}
