//! Laws of what is known of a link. Each is the contract of a function that does nothing.

ghost use Rattle.seen_channels.specs.Laws.{SameResponseAgain, LaterModeCounts};

/// The same response again is the same channel, with its mode.
pub fn same_response_again()
    ensures { SameResponseAgain }
{}

/// The later of two modes counts.
pub fn later_mode_counts()
    ensures { LaterModeCounts }
{}
