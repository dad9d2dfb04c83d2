//! Laws of channels that are open, and of what a host has to give.

ghost use Rattle.opening_laws.specs.Giving.{GivesWhatWaits};
ghost use Rattle.opening_laws.specs.Opening.{OpenIsWhatIsSaid};

/// Whatever a host asks for, whatever PDUs come in, and whenever its timer fires: a channel is open exactly where the host's own talk has it, with
/// options that it asked for and options of the peer that it accepted, and no request for its options waits. While a channel is on its way to its
/// end so it is as long as its host has not closed it; one that it closed is not open (Core 5.1, Volume 3 Part A, 4.4, 4.5, 6.1.4 and 7.1).
pub fn open_is_what_is_said()
    ensures { OpenIsWhatIsSaid }
{}

/// Whatever happens to a host: it has a PDU to give exactly where a command waits, or a channel has an SDU or a frame to give. No copy of a request
/// stays in the way that has no command any more (Core 5.1, Volume 3 Part A, 3.1, 3.3 and 4).
pub fn gives_what_waits()
    ensures { GivesWhatWaits }
{}
