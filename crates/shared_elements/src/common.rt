ghost use Rattle.std.specs.Prelude.{◌≡◌, ◌↔◌, Contains, true};
ghost use Rattle.std.specs.List.Sorted.{IsStrictlyIncreasing};
ghost use Rattle.trace_types.specs.Listing.{AreExactly};

/// Tells whether a rising list has the element.
fn has_element(elements: &[u32], element: u32) -> bool
    requires { IsStrictlyIncreasing elements.now }
    ensures { (result ≡ true) ↔ Contains elements.now element }
{
    elements.binary_search(&element).is_ok()
}

/// Counts the elements that two rising lists have in common, by a binary search in the other list
/// for each element of the one. It takes no memory.
pub fn count_common(one: &[u32], other: &[u32]) -> u64
    requires one { IsStrictlyIncreasing one.now }
    requires other { IsStrictlyIncreasing other.now }
    ensures { AreExactly (λ e. Contains one.now e × Contains other.now e) result }
{
    let mut count = 0;
    'elements: for index in 0..one.len() {
        if has_element(other, one[index]) {
            count += 1;
        }
    }
    count
}
