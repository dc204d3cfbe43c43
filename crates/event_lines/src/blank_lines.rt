ghost use Rattle.std.specs.Prelude.{◌≡◌};
ghost use Rattle.event_lines.specs.Cut.{is_blank_byte, is_blank_line};

/// Tells whether a byte is a space, a tab or a carriage return.
pub(crate) fn is_blank_byte(byte: u8) -> bool
    ensures { result ≡ is_blank_byte byte }
{
    byte == b' ' || byte == b'\t' || byte == b'\r'
}

/// Tells whether a line is blank: spaces, tabs and carriage returns alone, or nothing.
pub fn is_blank_line(line: &[u8]) -> bool
    ensures { result ≡ is_blank_line line.now }
{
    line.iter().all(|byte| is_blank_byte(*byte))
}
