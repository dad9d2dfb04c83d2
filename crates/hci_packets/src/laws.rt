//! Laws of the two tables, for every command and event. They speak of the definitions alone, which
//! the contracts of the calls cite: so what is written is read again as it was.

ghost use Rattle.hci_packets.specs.Laws.{OneCommand, AcceptsCommands, OneEvent, AcceptsEvents};

/// The number and the parameters of a command are read as that command and no other.
pub fn commands_both_ways()
    ensures one { OneCommand }
    ensures accepted { AcceptsCommands }
{}

/// The code and the parameters of an event are read as that event and no other.
pub fn events_both_ways()
    ensures one { OneEvent }
    ensures accepted { AcceptsEvents }
{}
