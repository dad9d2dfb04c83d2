//! Laws of late requests for the options of a channel: which of them can come to a host that has opened the channel.
#![tactic(auto)]

ghost use Rattle.lateness_laws.specs.Late.{HeardOptionsAreLast, NoOptionsComeLate, NoPartWaits, OneChannelAsksOnce};
ghost use Rattle.lateness_laws.specs.Once.{OptionsAreAskedOnce, PeersAreApart, RemainingAsksOnce};

/// Whatever a link loses, repeats and damages: a request for options that is under way is no older than each that its host heard, and if the host heard it, it
/// is the last one that the host remembers, where one such request of the other host waits at a time and its identifiers do not come round.
pub fn heard_options_are_last()
    ensures { HeardOptionsAreLast }
{}

/// So where one request alone is made for the options of a channel, each copy of it that is under way finds the channel not open, or is the last one that the
/// host remembers.
pub fn no_options_come_late()
    ensures { NoOptionsComeLate }
{
    heard_options_are_last();
}

/// Whatever a link loses, repeats and damages: of two hosts each asks for its options in one part, so none of the other waits for its rest.
pub fn no_part_waits()
    ensures { NoPartWaits }
{}

/// A host of whose channels no two count waits for the response to one request for options at a time.
pub fn one_channel_asks_once()
    ensures { OneChannelAsksOnce }
{}

/// Whatever a link loses, repeats and damages: no two channels of one of two hosts are for one endpoint of the other, where one host asked for no channel, and
/// granted one endpoint alone to each of the other's.
pub fn peers_are_apart()
    ensures { PeersAreApart }
{}

/// There a host asks for the options of each channel once while its peer suggests no others: each copy of a request for them that is under way is that which the
/// peer heard, if it heard one.
pub fn options_are_asked_once()
    ensures { OptionsAreAskedOnce }
{}

/// A host to which no other options are suggested waits for the response to one request for options at a time, where no two channels of its peer count, and each
/// channel that it has remains there.
pub fn remaining_asks_once()
    ensures { RemainingAsksOnce }
{}
