ghost use Rattle.std.specs.Prelude.{string_bytes};
ghost use Rattle.pretty_cli.specs.Lines.{IsCut};

use unicode_width::UnicodeWidthStr;

/// Cuts a line at so many columns: characters are left out at its end until it is not wider.
pub(crate) fn cut(line: &mut String, limit: usize)
    ensures { IsCut limit (string_bytes line.old) (string_bytes line.new) }
{
    'shorten: while line.as_str().width() > limit {
        line.pop();
    }
}
