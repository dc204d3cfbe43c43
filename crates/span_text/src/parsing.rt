ghost use Rattle.std.specs.Prelude.{◌≡◌, IfOk, is_some, option_map};
ghost use Rattle.json.specs.Value.{value_view};
ghost use Rattle.span_text.specs.Parsing.{json_of};

use json::{Error, Scratch, Value, is_valid};
use simdutf8::basic::from_utf8;
use std::alloc::{AllocError, Global};

/// Reads bytes as a JSON value in UTF-8; none where they are not one.
pub fn parse<'a>(
    alloc: Global,
    bytes: &'a [u8],
    scratch: &'a mut Scratch,
) -> Result<Option<Value<'a>>, AllocError>
    ensures { IfOk result (λ v. option_map value_view v ≡ json_of bytes.now) }
{
    match Value::from_slice(alloc, bytes, scratch) {
        Ok(value) => Ok(Some(value)),
        Err(Error::Invalid) => Ok(None),
        // Of the others the reader gives out of memory alone.
        Err(_) => Err(AllocError),
    }
}

/// Tells whether bytes are a JSON value in UTF-8. The only error is out of memory.
pub fn is_json(bytes: &[u8], scratch: &mut Scratch) -> Result<bool, AllocError>
    ensures { IfOk result (λ b. b ≡ is_some (json_of bytes.now)) }
{
    match from_utf8(bytes) {
        Ok(text) => {
            let valid = is_valid(text, scratch)?;
            Ok(valid)
        }
        Err(_) => Ok(false),
    }
}
