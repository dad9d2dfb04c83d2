//! Laws of the readings of talk.

ghost use Rattle.link_talk.specs.Examples.{AreExchanged, AreSilent, AreAnswered, DoWait};
ghost use Rattle.link_talk.specs.GrowingLaws.{CallsAreAnswered, QueriesAreAnswered, ReadingGrows, StretchGrows, PassagesGrow, ModeStands, SpokenGrows, PacketsGrow};
ghost use Rattle.link_talk.specs.ReadingLaws.{EntriesAreRead, ReadingIsRight};

/// One pass over a talk reads its requests and its channels as they are defined over the whole of
/// it, for every talk.
pub fn reading_is_right()
    ensures entries { EntriesAreRead }
    ensures reading { ReadingIsRight }
{}

/// A response answers the first of the last unbroken run of requests that it fits.
pub fn first_of_a_run_is_answered()
    ensures calls { CallsAreAnswered }
    ensures queries { QueriesAreAnswered }
{}

/// What is read off a talk and one saying more, by what was held before.
pub fn readings_grow()
    ensures reading { ReadingGrows }
    ensures stretch { StretchGrows }
    ensures passages { PassagesGrow }
{}

/// From the opening of a channel on its mode stands, and its SDUs and packets only gain.
pub fn modes_stand()
    ensures mode { ModeStands }
    ensures spoken { SpokenGrows }
    ensures packets { PacketsGrow }
{}

/// Small talks that were worked out by hand are read as they should be: requests and responses, answers
/// of service discovery, and what a timer finds.
pub fn small_talks_are_read()
    ensures exchanges { AreExchanged }
    ensures silences { AreSilent }
    ensures answers { AreAnswered }
    ensures waits { DoWait }
{}
