//! Laws of two hosts that have a channel in common, on a link that loses, repeats and damages.

ghost use Rattle.channel_laws.specs.Arrivals.{BasicChannelsArrive, BasicChannelsComeOnce};
ghost use Rattle.channel_laws.specs.Closings.{ClosingsAreRead};
ghost use Rattle.channel_laws.specs.Common.{ChannelsAreCommon};
ghost use Rattle.channel_laws.specs.Consent.{PeersHaveAccepted};
ghost use Rattle.channel_laws.specs.Delivered.{TakenIsDelivered, WishedIsDelivered};
ghost use Rattle.channel_laws.specs.Granted.{EndpointsAreGrantedOnce, EndpointsAskForOnePsm};
ghost use Rattle.channel_laws.specs.Modes.{ModesAreCommon, ModesAreWished};
ghost use Rattle.channel_laws.specs.Ordered.{BasicChannelsArePipes};
ghost use Rattle.channel_laws.specs.Pipes.{EnhancedChannelsArePipes};
ghost use Rattle.channel_laws.specs.PlainTaken.{PlainTakenIsDelivered};
ghost use Rattle.channel_laws.specs.Pending.{NoneComesDue, OneOpens};
ghost use Rattle.channel_laws.specs.Singly.{CallsAreOneByOne, GrantsAreSingle, NoneIsCalled};
ghost use Rattle.channel_laws.specs.Suiting.{AgreementsStay, OptionsSuit};
ghost use Rattle.channel_laws.specs.Whole.{ChannelsAreWhole};
ghost use Rattle.channel_laws.specs.Windows.{WindowsHold};

/// An endpoint that a host granted is that of a channel, for the one endpoint of its peer that it was granted to, and the host never
/// asks for a channel with it.
pub fn endpoints_are_granted_once()
    ensures { EndpointsAreGrantedOnce }
{}

/// Where the peer asks for one channel after the other, a host grants one endpoint alone to each endpoint of the peer.
pub fn grants_are_single()
    ensures { GrantsAreSingle }
{}

/// A host that asks for its next channel when no other one is only asked for asks for one channel after the other, however often its
/// timer repeats a request.
pub fn calls_are_one_by_one()
    ensures { CallsAreOneByOne }
{}

/// A host that asks for no channel has no request for one in its talk.
pub fn none_is_called()
    ensures { NoneIsCalled }
{}

/// Of a host that asks for no channel, each channel whose closing it was told is read, with the PSM that it was told.
pub fn closings_are_read()
    ensures { ClosingsAreRead }
{}

/// An endpoint that a host asks for a channel with is that of one PSM, however often it asks.
pub fn endpoints_ask_for_one_psm()
    ensures { EndpointsAskForOnePsm }
{}

/// Whatever a link loses, repeats and damages: a channel for which one end accepted options is one of the other end as well, with the
/// same PSM and each with the other's endpoint.
pub fn channels_are_common()
    ensures { ChannelsAreCommon }
{}

/// Whatever a link loses, repeats and damages: the mode that one end accepted of a channel is the one that the other wishes of it.
pub fn modes_are_wished()
    ensures { ModesAreWished }
{}

/// Where both ends accepted options of a channel that they have in common, both did so in the same mode.
pub fn modes_are_common()
    ensures { ModesAreCommon }
{}

/// Whatever happens to a host: while an enhanced channel of it is open its agreement stays the one by which it opened.
pub fn agreements_stay()
    ensures { AgreementsStay }
{}

/// Whatever a link loses, repeats and damages: where options that one end heard of a channel, in one request or in parts, are acceptable to
/// it, in enhanced mode, its agreement on them suits every agreement that the other end may have of the PSM.
pub fn options_suit()
    ensures { OptionsSuit }
{}

/// Of a host that offers nothing, no channel comes to be only asked for while none is asked for.
pub fn none_comes_due()
    ensures { NoneComesDue }
{}

/// Where such a host asked for one channel, and one is open, none is only asked for.
pub fn one_opens()
    ensures { OneOpens }
{}

/// Whatever a link loses, repeats and damages: an enhanced channel that two hosts have in common is a pipe of SDUs both ways.
/// What one host handed up of it is a front of what the other's own talk says that went out.
pub fn enhanced_channels_are_pipes()
    ensures { EnhancedChannelsArePipes }
{}

/// Whatever a link loses, repeats and damages: over a channel that two hosts have in common, and of which one of them wishes basic mode,
/// there come the SDUs that were sent, in their order, some left out and some two or more times running.
pub fn basic_channels_arrive()
    ensures { BasicChannelsArrive }
{}

/// Whatever a link loses, repeats and damages: all SDUs that come on the channels of two hosts are handed up, also of a channel that its
/// retransmission machine closed.
pub fn channels_are_whole()
    ensures { ChannelsAreWhole }
{}

/// Whatever a link loses, repeats and damages: at each moment, of the I-frames that an end gave on an enhanced channel no more are unacknowledged than the
/// window that the other wishes, and none is acknowledged that was not given. So it is also of a channel that either end closed.
pub fn windows_hold()
    ensures { WindowsHold }
{}

/// Whatever a link loses and damages, where it repeats nothing: over a channel that two hosts have in common, and of which one of them wishes
/// basic mode, there come the SDUs that were sent, in their order, each once at most.
pub fn basic_channels_come_once()
    ensures { BasicChannelsComeOnce }
{}

/// Whatever a link loses, repeats and damages: over an enhanced channel that two hosts have in common there come the SDUs that the
/// channel took of the other host, in their order, both ways.
pub fn taken_is_delivered()
    ensures { TakenIsDelivered }
{}

/// The same where both hosts wish enhanced mode of the channel's PSM, in whatever mode the talk of either has the channel so far.
pub fn wished_is_delivered()
    ensures { WishedIsDelivered }
{}

/// Whatever a link loses, repeats and damages: where one end has a channel open, so that it may send on it, the other end has accepted
/// options of it.
pub fn peers_have_accepted()
    ensures { PeersHaveAccepted }
{}

/// A basic channel that two hosts have in common, of which one of them wishes basic mode, is a pipe of SDUs each way that is ordered or
/// breaks: what one host handed up of it is a front of what the other's own talk says that went out.
pub fn basic_channels_are_pipes()
    ensures { BasicChannelsArePipes }
{}

/// Where both hosts wish basic mode of its PSM: over a channel that they have in common there come, each way that is ordered or breaks,
/// the SDUs that the channel took of the other host, in their order and with none left out.
pub fn plain_taken_is_delivered()
    ensures { PlainTakenIsDelivered }
{}
