//! Laws of what a link says: what one pass over a talk holds is what looking back over all of it
//! finds, for every talk; and what one thing more adds.
#![tactic(auto)]

ghost use Rattle.talk_laws.specs.Accounts.{AccountsGrow, AccountsLookBack};
ghost use Rattle.talk_laws.specs.Captures.{CapturesGrow, CapturesLookBack, OnlyMovesTell};
ghost use Rattle.talk_laws.specs.Carrying.{CarriagesLookBack};
ghost use Rattle.talk_laws.specs.CheckWords.{CheckWordsLookBack};
ghost use Rattle.talk_laws.specs.Differences.{ChannelsDiffer, SilencesDiffer};
ghost use Rattle.talk_laws.specs.Exchanges.{ExchangesGrow, ExchangesLookBack};
ghost use Rattle.talk_laws.specs.LinkAnswers.{LinkAnswersGrow, LinkAnswersLookBack};
ghost use Rattle.talk_laws.specs.LinkCredits.{LinkCreditsGrow, LinkCreditsLookBack};
ghost use Rattle.talk_laws.specs.LinkObjects.{LinkObjectsGrow, LinkObjectsLookBack, ObjectsFallToChannels};
ghost use Rattle.talk_laws.specs.LinkWaits.{LinkWaitsGrow, LinkWaitsLookBack};
ghost use Rattle.talk_laws.specs.Objects.{ObjectsGrow};
ghost use Rattle.talk_laws.specs.Packets.{PacketsAlwaysGrow, PacketsLookBack};
ghost use Rattle.talk_laws.specs.PeakPass.{PeaksLookBack};
ghost use Rattle.talk_laws.specs.Peaks.{PeaksGrow};
ghost use Rattle.talk_laws.specs.Queues.{QueuesLookBack};
ghost use Rattle.talk_laws.specs.Requests.{RequestsLookBack};
ghost use Rattle.talk_laws.specs.Sdus.{SdusGrow, SdusLookBack};
ghost use Rattle.talk_laws.specs.ServiceAnswers.{ServiceAnswersLookBack};
ghost use Rattle.talk_laws.specs.Silences.{SilencesGrow, SilencesLookBack};
ghost use Rattle.talk_laws.specs.Setups.{SetupsLookBack};
ghost use Rattle.talk_laws.specs.Spelling.{ChannelObjectsGrow, ChannelObjectsLookBack};
ghost use Rattle.talk_laws.specs.Stretches.{ObjectsFallIntoStretches};
ghost use Rattle.talk_laws.specs.Waits.{CountsGrow, WaitsGrow, WaitsLookBack};

/// What both sides agree on of a channel is what they asked for and accepted last before it opened.
pub fn setups_look_back()
    ensures { SetupsLookBack }
{}

/// A response answers the first request that waits behind the packets before it, of those since none
/// waited last; and each packet of a request stands in one request, which was answered, waits, or gave its
/// place to an ABORT.
pub fn exchanges_look_back()
    ensures back { ExchangesLookBack }
    ensures queues { QueuesLookBack }
    ensures grow { ExchangesGrow }
{}

/// The requests that a server passes over stand behind a PUT that it refused in single response mode;
/// the others are answered.
pub fn silences_look_back()
    ensures back { SilencesLookBack }
    ensures grow { SilencesGrow }
{}

/// The answers of service discovery are those of the first replies to the requests before them.
pub fn service_answers_look_back()
    ensures { ServiceAnswersLookBack }
{}

/// The answers of service discovery on a link are told by what one pass holds of each channel.
pub fn link_answers_look_back()
    ensures back { LinkAnswersLookBack }
    ensures grow { LinkAnswersGrow }
{}

/// What a channel carries, and its mode, are told by the channels that came to be, and by all that was
/// said of each since.
pub fn carriages_look_back()
    ensures { CarriagesLookBack }
{}

/// The SDUs on a channel are found PDU by PDU.
pub fn sdus_look_back()
    ensures back { SdusLookBack }
    ensures grow { SdusGrow }
{}

/// So are the frames that are not acknowledged, and the credits.
pub fn accounts_look_back()
    ensures back { AccountsLookBack }
    ensures grow { AccountsGrow }
{}

/// So is what a timer finds; and what it finds with one saying more is told by what was held before.
pub fn waits_look_back()
    ensures back { WaitsLookBack }
    ensures counts { CountsGrow }
    ensures grow { WaitsGrow }
{}

/// A frame has a check word where its channel is not gone and is agreed on so, looking back; and what is
/// so with one saying more is told by what was held before.
pub fn check_words_look_back()
    ensures { CheckWordsLookBack }
{}

/// What a capture says of timers and check words is changed by what moves alone.
pub fn only_moves_tell()
    ensures { OnlyMovesTell }
{}

/// The packets on a channel are found SDU by SDU, over RFCOMM too, on whatever channel.
pub fn packets_look_back()
    ensures back { PacketsLookBack }
    ensures grow { PacketsAlwaysGrow }
{}

/// The packets and objects on a channel only gain, over RFCOMM too.
pub fn objects_only_grow()
    ensures { ObjectsGrow }
{}

/// So are the objects on a channel.
pub fn channel_objects_look_back()
    ensures back { ChannelObjectsLookBack }
    ensures grow { ChannelObjectsGrow }
{}

/// The objects of a link are found saying by saying, each on the one channel that hears it; and they are
/// those of its channels.
pub fn link_objects_look_back()
    ensures back { LinkObjectsLookBack }
    ensures grow { LinkObjectsGrow }
    ensures channels { ObjectsFallToChannels }
{}

/// What a timer finds on a link, and the most I-frames that are not acknowledged on one channel, are told
/// by what one pass holds of each channel.
pub fn link_waits_look_back()
    ensures back { LinkWaitsLookBack }
    ensures grow { LinkWaitsGrow }
{}

/// So are the credits that a host holds on a link.
pub fn link_credits_look_back()
    ensures back { LinkCreditsLookBack }
    ensures grow { LinkCreditsGrow }
{}

/// What a capture says of the talks of a side, its objects, timers, check words, windows and credits are
/// found entry by entry.
pub fn captures_look_back()
    ensures back { CapturesLookBack }
    ensures grow { CapturesGrow }
{}

/// A peak of I-frames or of credits with one entry more is the greater of the peak before it and of what
/// is held behind it; and one pass finds it.
pub fn peaks_grow()
    ensures grow { PeaksGrow }
    ensures back { PeaksLookBack }
{}

/// Within any longest packet the objects are those of the stretches into which the packets fall.
pub fn objects_fall_into_stretches()
    ensures { ObjectsFallIntoStretches }
{}

/// A request for information waits, or one for options on a channel, where no answer stands behind the
/// last of its kind.
pub fn requests_look_back()
    ensures { RequestsLookBack }
{}

/// Small talks on which another reading might be expected are read as is said.
pub fn small_talks_differ()
    ensures channels { ChannelsDiffer }
    ensures silences { SilencesDiffer }
{}
