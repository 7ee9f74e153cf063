//! What writing and reading messages make of each other, in every kind of reading.
ghost use Rattle.wire.specs.Samples.{Samples};
ghost use Rattle.wire.specs.Trips.{WrittenReadsBack, ReadWasWritten, ItemsAsSaid};

use reading::Reading;

// What is written reads back as its contents.
pub fn written_reads_back<R: Reading>()
    ensures { WrittenReadsBack R.Reading.WIDTH R.Reading.octets R.Reading.reads }
{}

// Octets that are read as a message are those that its contents give.
pub fn read_was_written<R: Reading>()
    ensures { ReadWasWritten R.Reading.WIDTH R.Reading.octets R.Reading.reads }
{}

// A message that is read answers for each item what its contents say.
pub fn items_as_said<R: Reading>()
    ensures { ItemsAsSaid R.Reading.WIDTH R.Reading.reads }
{}

// The sample messages are read as they should be.
pub fn samples_hold()
    ensures { Samples }
{}
