//! How many passes the channels of two hosts need, over words of their link.
#![tactic(auto)]

ghost use Rattle.passing_laws.specs.Channels.{ChannelsRecover};
ghost use Rattle.passing_laws.specs.Handed.{HandedWerePut};
ghost use Rattle.passing_laws.specs.Timers.{TimersPoll, TimersFind};

/// Of all words of a link, whatever goes wrong, no more find something to do on an enhanced channel that both hosts have open than two for each segment that they
/// put, and 256 for each word that went wrong, less those that the two ends of the channel may still need.
pub fn channels_recover()
    ensures { ChannelsRecover }
{}

/// Whatever goes wrong on a link: of each endpoint no more PDUs were handed over and went, with those that are still under way, than were put for it.
pub fn handed_were_put()
    ensures { HandedWerePut }
{}

/// Where the machine of an open channel has nothing to give, and awaits the answer to a poll or has frames that are not acknowledged, it has a poll to give once the timer
/// of its host has fired, if the channel is still there. So a word at which both timers fire finds something to do on the channel.
pub fn timers_poll()
    ensures poll { TimersPoll }
    ensures find { TimersFind }
{}
