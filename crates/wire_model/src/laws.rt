//! Laws of the two ends. Each is the contract of a function that does nothing.

ghost use Rattle.wire_model.specs.Laws.{TagsObey, NeverReset, CarriedInOrder, WithinWindow, AllCarried, RoundsAreFew, OncePerCause};
ghost use Rattle.wire_model.specs.Reading.{TracesAreReadInOneWay, NumbersOfRunsFit, RunsAreReadInOneWay};

/// The tags of a run obey the draws.
pub fn tags_obey()
    ensures { TagsObey }
{}

/// Neither end is ever reset.
pub fn never_reset()
    ensures { NeverReset }
{}

/// What is carried is a front of what was taken, each unit whole, once and in order.
pub fn carried_in_order()
    ensures { CarriedInOrder }
{}

/// At most four units are unacknowledged.
pub fn within_window()
    ensures { WithinWindow }
{}

/// Where none is unacknowledged all was carried.
pub fn all_carried()
    ensures { AllCarried }
{}

/// There are at most 17 rounds, one for each unit that was taken, and two for each packet that was
/// lost.
pub fn rounds_are_few()
    ensures { RoundsAreFew }
{}

/// Each packet of an end has a cause of its own: the start, a unit taken, a packet heard, or what a
/// timer asks for.
pub fn once_per_cause()
    ensures { OncePerCause }
{}

/// The octets of a trace are the entries of one list of packets, with one cut behind them.
pub fn traces_are_read_in_one_way()
    ensures { TracesAreReadInOneWay }
{}

/// The numbers of each packet of a run fit their three bits.
pub fn numbers_of_runs_fit()
    ensures { NumbersOfRunsFit }
{}

/// Runs with the same trace have the same packets on the line, and the same units are accepted.
pub fn runs_are_read_in_one_way()
    ensures { RunsAreReadInOneWay }
{}
