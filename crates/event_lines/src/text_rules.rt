ghost use Rattle.std.specs.Prelude.{◌≡◌};
ghost use Rattle.std.specs.List.{list_any};
ghost use Rattle.event_lines.specs.EventFaults.{is_control_character, is_bad_text};

/// The greatest length of a text in bytes.
pub(crate) const LONGEST: usize = 64;

/// Tells whether a byte is an ASCII control character.
fn is_control_character(byte: u8) -> bool
    ensures { result ≡ is_control_character byte }
{
    byte.is_ascii_control()
}

/// Tells whether a text has a control character.
fn has_control_character(text: &str) -> bool
    ensures { result ≡ list_any is_control_character text.now }
{
    text.bytes().any(is_control_character)
}

/// Tells whether a text is empty, longer than 64 bytes, or has an ASCII control character.
pub fn is_bad_text(text: &str) -> bool
    ensures { result ≡ is_bad_text text.now }
{
    text.is_empty() || text.len() > LONGEST || has_control_character(text)
}
