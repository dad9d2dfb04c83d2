//! Laws of the channels of one host.

ghost use Rattle.own_channel_laws.specs.Acceptance.{SendsBehindAcceptance};
ghost use Rattle.channel_laws.specs.Adverse.{AdverseTurnsAreCounted, AdverseTurnsAreCountedSince, DisturbancesAreCounted, DisturbancesAreCountedSince, FeaturesAreHeeded};
ghost use Rattle.own_channel_laws.specs.Agreements.{AgreementsAreOnHeard};
ghost use Rattle.own_channel_laws.specs.Armed.{ArmedIsWhatWaits};
ghost use Rattle.own_channel_laws.specs.Awaited.{FeaturesAreAwaited, OptionsAreAwaited, RequestsAreAwaited};
ghost use Rattle.own_channel_laws.specs.CheckWords.{CheckWordsAreRead, CheckWordsAreWished};
ghost use Rattle.channel_laws.specs.Connections.{ConnectionsAreMet, NamesAreApart};
ghost use Rattle.channel_laws.specs.Consent.{GrantsAreShown, SuccessesAccept};
ghost use Rattle.own_channel_laws.specs.Decisive.{AnswersAreDecisive};
ghost use Rattle.own_channel_laws.specs.Endpoints.{EndpointsNameOneChannel};
ghost use Rattle.own_channel_laws.specs.Endings.{EndsAreTold};
ghost use Rattle.channel_laws.specs.Ends.{EachEndUtters};
ghost use Rattle.channel_laws.specs.Final.{FinalResponsesEndWaits};
ghost use Rattle.channel_laws.specs.Exchanged.{ExchangedIsSpoken};
ghost use Rattle.channel_laws.specs.Fit.{GivenIsFit};
ghost use Rattle.own_channel_laws.specs.Frames.{FramesAreHeld};
ghost use Rattle.channel_laws.specs.Heeded.{MetIsHeeded};
ghost use Rattle.own_channel_laws.specs.Laws.{ChannelsAreRead, EndpointsAreNew};
ghost use Rattle.channel_laws.specs.Modes.{ModesAreOwn};
ghost use Rattle.channel_laws.specs.Named.{RequestsHaveNames};
ghost use Rattle.own_channel_laws.specs.Pace.{OptionsKeepPace};
ghost use Rattle.channel_laws.specs.Pairs.{EachEndRuns};
ghost use Rattle.channel_laws.specs.PlainTaken.{PlainTakenGoesOut};
ghost use Rattle.own_channel_laws.specs.Repeats.{RepeatsAreAnswered};
ghost use Rattle.channel_laws.specs.Responding.{CopiesHaveResponses};
ghost use Rattle.own_channel_laws.specs.Sdus.{SdusAreRead};
ghost use Rattle.own_channel_laws.specs.Services.{ChannelsAloneWait};
ghost use Rattle.channel_laws.specs.Belonging.{UtteredIsRead, PledgesWereSaid, ChannelsBelong};
ghost use Rattle.own_channel_laws.specs.Signals.{AnswersAreSaid};
ghost use Rattle.channel_laws.specs.Taken.{TakenGoesOut};
ghost use Rattle.channel_laws.specs.Whole.{SdusAreHandedUp};
ghost use Rattle.own_channel_laws.specs.Tries.{FiringsAloneRepeat, FiringsAreCounted, FiringsAreCountedSince, TriesAreKept};

pub mod pipes;

/// What a host holds of each of its endpoints is what its own talk says, whatever it asks for, whatever
/// PDUs come in on whatever channels, and whenever its timer fires: which channels there are, how far each
/// is on its way to its end, and which modes both sides asked for and accepted.
pub fn channels_are_read()
    ensures { ChannelsAreRead }
{}

/// The endpoint that a host gives next has never been that of a channel.
pub fn endpoints_are_new()
    ensures { EndpointsAreNew }
{}

/// A host looks for a check word in what comes in for an endpoint exactly where its own talk says that there is
/// one: until the answer to its request for the end of the channel came, also where it had closed it before.
pub fn check_words_are_read()
    ensures { CheckWordsAreRead }
{}

/// Where a host's own talk has a channel that has ended for it, it arose that the host is told of the end.
pub fn ends_are_told()
    ensures { EndsAreTold }
{}

/// The SDUs that are handed up of a channel, in basic and in enhanced retransmission mode, are those that the
/// host's own talk brings. Where the channel was closed by its machine, the PDU for which it was may bring one more.
pub fn sdus_are_read()
    ensures { SdusAreRead }
{}

/// On a link that loses, repeats and damages, each end is a host to which something occurred: all laws of
/// one host hold at both.
pub fn each_end_runs()
    ensures { EachEndRuns }
{}

/// On a link that loses, repeats and damages, each end is a host that utters what it is, if its turns do: the laws of
/// one host on frames, on what waits and on acceptance hold at both.
pub fn each_end_utters()
    ensures { EachEndUtters }
{}

/// An endpoint of a host names one channel for as long as the link is up, so what is under way for it is for no
/// earlier channel and for no later one.
pub fn endpoints_name_one_channel()
    ensures { EndpointsNameOneChannel }
{}

/// A request that the peer sends again gets the same response again, or none again, whatever followed from it.
pub fn repeats_are_answered()
    ensures { RepeatsAreAnswered }
{}

/// A request of a host for a channel, or for the end of one, waits for its answer exactly where its own talk
/// says that it was neither answered nor given up, whatever it asks for and whatever comes in.
pub fn requests_are_awaited()
    ensures { RequestsAreAwaited }
{}

/// A host waits for the features of its peer exactly where its own talk says that it asked for information and
/// was neither answered nor gave it up.
pub fn features_are_awaited()
    ensures { FeaturesAreAwaited }
{}

/// A request of a host for the options of a channel waits for its answer exactly where its own talk says so, as
/// long as the channel is there and its host has not closed it.
pub fn options_are_awaited()
    ensures { OptionsAreAwaited }
{}

/// Of an enhanced channel a host holds as many frames as its own talk says that are not acknowledged, and its machine
/// is armed exactly where the talk says that a frame or a poll waits, if what it gives goes out as its octets.
pub fn frames_are_held()
    ensures { FramesAreHeld }
{}

/// The channels of a host are armed exactly where its own talk says that something waits: a request for a channel,
/// for options, for the end of a channel or for information, a frame or a poll; requests for services are not theirs.
pub fn armed_is_what_waits()
    ensures { ArmedIsWhatWaits }
{}

/// Where a host asks for no services, as a server does not, its channels are armed exactly where its own talk says that
/// something waits.
pub fn channels_alone_wait()
    ensures { ChannelsAloneWait }
{}

/// A host says an SDU or a frame only on a channel that is there, where its own talk so far says that it accepted the
/// peer's request for options, and that its own one was made and waits no more.
pub fn sends_behind_acceptance()
    ensures { SendsBehindAcceptance }
{}

/// Each answer that waits to be given stands in the own talk of its host, so one that is given was said before.
pub fn answers_are_said()
    ensures { AnswersAreSaid }
{}

/// The octets of what is given are read as what it is, where it is fit for a link.
pub fn uttered_is_read()
    ensures { UtteredIsRead }
{}

/// Whatever commands come in, a host gives what is fit for a link: so it is read as what it is.
pub fn given_is_fit()
    ensures { GivenIsFit }
{}

/// Whatever a link loses, repeats and damages: each response, and each request for a channel, that one end heard the other said.
pub fn pledges_were_said()
    ensures { PledgesWereSaid }
{}

/// Whatever a link loses, repeats and damages: a channel of one end was granted by it where the other asked for it with the
/// same PSM, or was asked for by it and granted by the other's response to that, each with its own endpoint.
pub fn channels_belong()
    ensures { ChannelsBelong }
{}

/// A host gives a request that waits for its answer at most as often as it tries, and once where it tries less.
pub fn tries_are_kept()
    ensures { TriesAreKept }
{}

/// A request is to be given once more only because the timer fired.
pub fn firings_alone_repeat()
    ensures { FiringsAloneRepeat }
{}

/// Since it was new, or none waited, a request was given at most once more often than the timer of its host fired, with the copies
/// of it that wait: for the t-th time only behind t - 1 firings of its own.
pub fn firings_are_counted_since()
    ensures { FiringsAreCountedSince }
{}

/// A request that waits was given at most once more often than the timer of its host fired, with the copies of it that
/// wait: for the t-th time only behind t - 1 firings.
pub fn firings_are_counted()
    ensures { FiringsAreCounted }
{}

/// Whatever happens to a host: while a channel of it is open, it has it in the mode that it wishes, by its agreement on options that it
/// heard of it, in one request or in parts, and found acceptable.
pub fn agreements_are_on_heard()
    ensures { AgreementsAreOnHeard }
{}

/// Where no retransmission machine closes at a PDU that has a part of an SDU, all SDUs that the own talk of a host brings are handed up.
pub fn sdus_are_handed_up()
    ensures { SdusAreHandedUp }
{}

/// Whatever happens to a host: the mode that it accepted of a channel is the one that it wishes of it, also when the channel has ended.
pub fn modes_are_own()
    ensures { ModesAreOwn }
{}

/// Whatever happens to a host: an endpoint at which it looks for a check word is that of a channel of which it wishes enhanced retransmission
/// mode, also where it had closed the channel before.
pub fn check_words_are_wished()
    ensures { CheckWordsAreWished }
{}

/// What a host's own talk says that went out on an enhanced channel is a front of what its channel took, SDU for SDU.
pub fn taken_goes_out()
    ensures { TakenGoesOut }
{}

/// A host that offers no channel asks for the options of a channel that it leaves at least as often as for its
/// end: so its end is not given up while its options are to be asked for once more.
pub fn options_keep_pace()
    ensures { OptionsKeepPace }
{}

/// Whatever happens to a host: its request for options of a channel is accepted for it only where it heard success for it, or a PDU on
/// the channel.
pub fn grants_are_shown()
    ensures { GrantsAreShown }
{}

/// Whatever happens to a host: where it said success to a request for options, it accepted options of a channel for that endpoint of its
/// peer, or it heard a request of which more follows.
pub fn successes_accept()
    ensures { SuccessesAccept }
{}

/// What a host's own talk says that went out on a channel of which it wishes basic mode is what the channel took, SDU for SDU.
pub fn plain_taken_goes_out()
    ensures { PlainTakenGoesOut }
{}

/// Of each end of a link that loses, repeats and damages: a request that waits was given, with the copies of it that wait, at most once more
/// often than turns were adverse for it: for the t-th time only behind t - 1 of them. A timer that fires while the link is quiet costs nothing.
pub fn adverse_turns_are_counted()
    ensures { AdverseTurnsAreCounted }
{}

/// So it is from any turn on behind which no such request waited, or one that was as new as that: only the adverse turns behind it count.
pub fn adverse_turns_are_counted_since()
    ensures { AdverseTurnsAreCountedSince }
{}

/// Where nothing comes in in vain for it, a request is given for the t-th time only behind t - 1 turns that disturb: they repeat, lose or damage
/// what is under way, or fire a timer while the link is not quiet.
pub fn disturbances_are_counted()
    ensures { DisturbancesAreCounted }
{}

/// So it is from any turn on behind which no such request waited, or one that was as new as that.
pub fn disturbances_are_counted_since()
    ensures { DisturbancesAreCountedSince }
{}

/// Where an answer has room when something comes in, nothing does so in vain for the question for the peer's features: so it is given again only
/// behind disturbances.
pub fn features_are_heeded()
    ensures { FeaturesAreHeeded }
{}

/// Where each copy of a request that comes in is responded to, and each response ends the wait, nothing comes in in vain for it.
pub fn met_is_heeded()
    ensures { MetIsHeeded }
{}

/// Whatever a host holds: a response to a request that waits ends its wait where it is final. It is so but where it says that
/// another one follows, grants an endpoint that another channel has, has options that cannot be read, or names another endpoint of the peer.
pub fn final_responses_end_waits()
    ensures { FinalResponsesEndWaits }
{}

/// A copy of a request of the peer is replied to with a response to it, where there is room: if it asks for a channel or for information, or
/// is about a channel that the peer has with its endpoint, unless another request with its identifier came last of its kind.
pub fn copies_have_responses()
    ensures { CopiesHaveResponses }
{}

/// Whatever happens to a host, no answer of it says that another one follows: neither of a channel, nor of options.
pub fn answers_are_decisive()
    ensures { AnswersAreDecisive }
{}

/// What a host's own talk says that was spoken on a channel of which it wishes basic mode is what the channel took and what was handed up of
/// it, SDU for SDU, both ways in the order in which it happened.
pub fn exchanged_is_spoken()
    ensures { ExchangedIsSpoken }
{}

/// Where an answer has room when something comes in, and an end asks for each of its channels with an identifier of its own, each copy of a request
/// for a channel is responded to, and each response to it ends its wait: so it is given again only behind disturbances.
pub fn connections_are_met()
    ensures { ConnectionsAreMet }
{}

/// A host that offers no channel, and asks for one after the other, so few that its identifiers do not come round, asks for no two with one identifier,
/// however often its timer repeats them.
pub fn names_are_apart()
    ensures { NamesAreApart }
{}

/// Of a host that offers no channel, and makes so few requests that its identifiers do not come round, each request that waits has an identifier below
/// the next one, and no other that waits has it.
pub fn requests_have_names()
    ensures { RequestsHaveNames }
{}
