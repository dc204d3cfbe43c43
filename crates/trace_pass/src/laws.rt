//! What follows from the definitions alone. Each law is the contract of a function that does
//! nothing.
ghost use Rattle.trace_pass.specs.Meaning.{CountIsOne, NumbersAreAtMost, NumbersAreWithin};
ghost use Rattle.trace_pass.specs.Meaning.{SharesAreWhole, ZerosAreCount};

use hypothesis_index::laws::{places_differ, places_fit};
use word_rows::laws::{block_lacks, lacks_append};

/// Halving gives each worker one share, and one after the other they are the traces.
pub fn shares_are_whole()
    ensures { SharesAreWhole }
{}

/// Traces refute one number of relations.
pub fn count_is_one()
    ensures { CountIsOne }
{}

/// The words of a sheet have as many bits 0 as there are relations that its traces refute.
pub fn zeros_are_count()
    ensures { ZerosAreCount }
{
    places_differ();
    places_fit();
}

/// Watch numbers that were taken from readings count only relations that the readings may lack.
pub fn numbers_are_at_most()
    ensures { NumbersAreAtMost }
{
    block_lacks();
    lacks_append();
}

/// What `close` says of the readings of a recording gives the bounds of its watch numbers.
pub fn numbers_are_within()
    ensures { NumbersAreWithin }
{
    block_lacks();
    lacks_append();
}
