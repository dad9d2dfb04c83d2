//! Laws of the course of a push, for every list of what may happen to a client.

ghost use Rattle.push_model.specs.Laws.{AsksForOneLink, FirstCausesStay};
ghost use Rattle.push_model.specs.Shown.{OutcomesAreShown};
ghost use Rattle.push_model.specs.ShownFirst.{OutcomesEndExactly};
ghost use Rattle.push_model.specs.Streams.{FrontsAreRight};

/// The first cause of a push stays, whatever comes and whatever is asked of the client afterwards.
pub fn first_causes_stay()
    ensures { FirstCausesStay }
{}

/// From a begin to the next one a client asks for one link at most, and for none where the shelf did
/// not give the object's size.
pub fn asks_for_one_link()
    ensures { AsksForOneLink }
{}

/// What stands at the front of a stream of packets is what an assembler answers there.
pub fn fronts_are_right()
    ensures { FrontsAreRight }
{}

/// From where a push has no cause, its outcome is the first cause that anything shows that is told to its client or asked of
/// it: the link's end, a channel's, a reply, a response, the timer, the shelf or the cancel, each by a table.
pub fn outcomes_are_shown()
    ensures { OutcomesAreShown }
{}

/// From where a push has no cause it has an outcome exactly where one thing that is told to its client or asked of it shows that,
/// and nothing before it showed any.
pub fn outcomes_end_exactly()
    ensures { OutcomesEndExactly }
{}
