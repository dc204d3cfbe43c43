//! Laws over the definitions alone: each function does nothing, and its contract is the law.
ghost use Rattle.drill_laws.specs.GoodDrills.{DrillLinesAreGood, DrillsEndWell};

use event_lines::laws::pieces_say_what_the_whole_says;

/// The input of a drill of at most 20,000 traces has no bad line, from whatever number it is drawn.
pub fn the_lines_of_a_drill_are_good()
    ensures { DrillLinesAreGood }
{
    pieces_say_what_the_whole_says();
}

/// A run whose arguments ask for a drill ends with no bad line and passes no limit, whatever its
/// numbers are: it is done, is out of memory or could not write its text, with status 0, 1 or 5.
pub fn a_drill_has_no_bad_line_and_passes_no_limit()
    ensures { DrillsEndWell }
{
    pieces_say_what_the_whole_says();
}
