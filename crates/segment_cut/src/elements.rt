ghost use Rattle.std.specs.Prelude.{◌≡◌, IfOk, option_copied};
ghost use Rattle.segment_cut.specs.Elements.{HasElement, element_in};

use std::alloc::{AllocError, Global};
use trace_types::Text;

/// Lends the data element that an event's name gives: the text after its first `@`, where that is
/// not empty.
pub fn element_of(name: &str) -> Option<&str>
    ensures given { option_copied result ≡ element_in name.now }
    ensures element { HasElement name.now (option_copied result) }
{
    let (_before, after) = name.split_once('@')?;
    if after.is_empty() { None } else { Some(after) }
}

/// Copies the data element that an event's name gives, where it gives one. The only error is out of
/// memory.
pub fn copy_element(alloc: Global, name: &Text) -> Result<Option<Text>, AllocError>
    ensures { IfOk result (λ element. element ≡ element_in name.now) }
{
    match element_of(name.as_str()) {
        Some(element) => Ok(Some(Text::new(alloc, element)?)),
        None => Ok(None),
    }
}
