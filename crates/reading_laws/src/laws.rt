//! Laws over the definitions alone: each function does nothing, and its contract is the law.
ghost use Rattle.reading_laws.specs.Readings.{GoodLinesAreReadAgain, WhatIsSaidIsGood};
ghost use Rattle.reading_laws.specs.Readings.{WhatIsWrittenIsRead, WithoutWaitsIsGood};

use event_lines::laws::pieces_say_what_the_whole_says;

/// The lines that an input without a bad line says are good.
pub fn what_is_said_is_good()
    ensures { WhatIsSaidIsGood }
{}

/// The text of good lines is read again as these lines.
pub fn good_lines_are_read_again()
    ensures { GoodLinesAreReadAgain }
{
    pieces_say_what_the_whole_says();
}

/// Good lines without waits are good.
pub fn without_waits_is_good()
    ensures { WithoutWaitsIsGood }
{}

/// What is written of the lines of files has no bad line, and says them without waits.
pub fn what_is_written_is_read()
    ensures { WhatIsWrittenIsRead }
{
    pieces_say_what_the_whole_says();
}
