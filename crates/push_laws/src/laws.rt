//! Laws of a server of Object Push, for every list of what may happen to it.

ghost use Rattle.push_laws.specs.Carriage.{FramesFit, PushedFramesFit, PushesMayCome, PushesMayFail};
ghost use Rattle.push_laws.specs.Calls.{InboxIsCalledByRuns};
ghost use Rattle.push_laws.specs.Dialogs.{CarriedAreHeard, CarriedAreTaken, ClientsStay, MultiplexersStay};
ghost use Rattle.push_laws.specs.Example.{OneFaultIsHeard, OnePushIsHeard};
ghost use Rattle.push_laws.specs.Laws.{AnswersComeInTurn, CreditsAreRead, GainsAllButRefusals, GainsAllButFaults, GainsWhatIsHeard, LendsFewOctets, OnePacketIsHeard};
ghost use Rattle.push_laws.specs.Parties.{RequestsAreHeard, RequestsAreTaken, RequestsComeInTurn};
ghost use Rattle.push_laws.specs.Searches.{MuxedClientsStay, NewClientsAreMuxed, PushedAreHeard, PushedAreTaken, TargetsAreServed};
ghost use Rattle.push_laws.specs.Losing.{PushesGainLess, PushesGainAll, NothingIsLeftOut};
ghost use Rattle.push_laws.specs.OneUnderWay.{NamesAbortTheOther, OneIsUnderWay};
ghost use Rattle.push_laws.specs.OneName.{NamedOnceGainLess, NamedOnceTellEach, PushedGainLess, PushesTellEach};
ghost use Rattle.push_laws.specs.Spelled.{PushesSpellOnce, PushedSpellOnce};
ghost use Rattle.push_laws.specs.Turns.{NoRequestIsIgnored};

/// From a new server on the inbox gains exactly the objects that the heard packets spell, over both transports and through
/// every closing, in the order of their last packets. That is so where no call of the inbox fails, no request is ignored,
/// and no Name comes over one transport while an object is under way over the other.
pub fn gains_what_is_heard()
    ensures { GainsWhatIsHeard }
{}

/// Where calls of the inbox fail, or requests are ignored because a response waits, it gains what the packets spell if those at which one failed, and
/// those that were ignored, count as refused: a fault is among the answers that the calls of such a packet use up, and each has a fault of its own.
/// D0 is said to a packet at which one failed, and success to a PUT exactly where it stores an object, over either transport. Want of memory is not among
/// the faults.
pub fn gains_all_but_refusals()
    ensures { GainsAllButRefusals }
{}

/// The same where no request is ignored, so where calls of the inbox fail alone.
pub fn gains_all_but_faults()
    ensures { GainsAllButFaults }
{}

/// What the SDUs on the channel of the server's multiplexer grant it less what it spent is a whole number that is never
/// below zero, and while the multiplexer is open it is what that holds, with the frame that waits for its channel.
pub fn credits_are_read()
    ensures { CreditsAreRead }
{}

/// Where no call fails, the calls of the inbox over any list of packets are those of the runs into which these fall: a run
/// that spells an object begins it, appends each body and commits it; one that ends without an object aborts what it began,
/// and so does the end of the link.
pub fn inbox_is_called_by_runs()
    ensures { InboxIsCalledByRuns }
{}

/// From a new server on at most one transport has an object under way, whatever comes and whatever the inbox answers. A Name over one
/// transport first aborts the object that is under way over the other: where the inbox grants all calls, that is the first call that is
/// made.
pub fn one_is_under_way()
    ensures single { OneIsUnderWay }
    ensures aborted { NamesAbortTheOther }
{}

/// Over L2CAP each request is answered once, in order, but for those that are passed over in silence, and one response waits
/// at most. Success is said to a PUT exactly where it stores an object, and to CONNECT, DISCONNECT and ABORT; C0 is said to what
/// is refused as a packet, and D1 to any other request.
pub fn answers_come_in_turn()
    ensures { AnswersComeInTurn }
{}

/// Each SDU that a server lends has 48 octets at most, whatever came and whatever its inbox answered.
pub fn lends_few_octets()
    ensures { LendsFewOctets }
{}

/// Any packet may come first over L2CAP, and the objects that are then heard are those that it spells by itself.
pub fn one_packet_is_heard()
    ensures { OnePacketIsHeard }
{}

/// What the laws above ask for is met over RFCOMM: the frames that open the multiplexer and the channel and then carry an
/// object may come, and spell it.
pub fn one_push_is_heard()
    ensures { OnePushIsHeard }
{}

/// Where the inbox fails at that object, its packet is the one that is marked, and spells nothing.
pub fn one_fault_is_heard()
    ensures { OneFaultIsHeard }
{}

/// Over L2CAP no request is ignored where each comes behind the response to the one before, unless it has none itself, and
/// nothing comes to the multiplexer: all that the laws above ask of what may come holds then.
pub fn no_request_is_ignored()
    ensures { NoRequestIsIgnored }
{}

/// Over L2CAP, where the channels of the object are pipes between a client of this profile and a server on each link, the requests
/// of the client come in turn: each behind the response to the one before, unless it has none itself.
pub fn requests_come_in_turn()
    ensures { RequestsComeInTurn }
{}

/// So none of them is ignored, and all else holds that the laws above ask of what may come.
pub fn requests_are_heard()
    ensures { RequestsAreHeard }
{}

/// Where calls of the inbox fail, but not for want of memory, none is ignored of a client that wants no single response mode.
pub fn requests_are_taken()
    ensures { RequestsAreTaken }
{}

/// Over RFCOMM, where what the multiplexers of a client of this profile and of its server send comes in its order or not at
/// all: each frame that comes to the server finds room for its answers, and its multiplexer refuses nothing. That is so from
/// the opening of the client's channel on, and push after push from a new server on, whatever becomes of the pushes.
pub fn frames_find_room()
    ensures opened { FramesFit }
    ensures pushed { PushedFramesFit }
{}

/// So of all that the laws of a server ask of what may come over RFCOMM, this is left: what goes is what the server lends, its
/// inbox grants all calls, or fails but not for want of memory, requests come one at a time, and a frame that comes while one of
/// the server's waits may overtake it.
pub fn pushes_may_come()
    ensures granted { PushesMayCome }
    ensures failing { PushesMayFail }
{}

/// A client of this profile has one request under way at most over RFCOMM, so none is ignored, and none is refused for its
/// length: push after push, whatever becomes of the pushes. All that the laws of a server ask of what may come holds then.
pub fn carried_requests_are_heard()
    ensures granted { CarriedAreHeard }
    ensures failing { CarriedAreTaken }
{}

/// A client over RFCOMM keeps the side of its multiplexer, its room and the credits that its peer is to have, whatever it
/// hears and does. Behind a push it also takes packets as long as before, and wants single response mode as before: what the
/// law above asks of these is so of each push where it is so of the first.
pub fn multiplexers_stay()
    ensures always { MultiplexersStay }
    ensures pushed { ClientsStay }
{}

/// A client hears of the service, in its whole push, nothing or the ways that the record of its server names, and opens the channel
/// that this names: over L2CAP PSM 1001, over RFCOMM server channel 9. That is so push after push from a new server on, whatever
/// becomes of the pushes and whatever the inbox answers, where what comes on the channel to the service records was sent there
/// before, on that link: it may be lost, come twice or come late.
pub fn targets_are_served()
    ensures { TargetsAreServed }
{}

/// A client over RFCOMM as it is made opens the multiplexer, gives its peer 1 to 40 credits and wants no single response mode, and
/// its packets have room for any request. It stays so behind each push of an object whose name has at most 100 units and whose
/// length stands in four octets.
pub fn muxed_clients_stay()
    ensures new { NewClientsAreMuxed }
    ensures pushed { MuxedClientsStay }
{}

/// Of such clients no request is ignored, and none is refused for its length: push after push, whatever becomes of the pushes and
/// whatever the two sides take as their maxima. Of what a client hears of the service nothing is asked, since that is what the server's
/// record names; nor of the length of its packets, which is what the server stated in its response to CONNECT; nor of what comes over
/// L2CAP, where it sends nothing. All that the laws of a server ask of what may come holds then.
pub fn pushed_requests_are_heard()
    ensures granted { PushedAreHeard }
    ensures failing { PushedAreTaken }
{}

/// Over L2CAP, push after push, the inbox gains the objects that the packets spell which come, in their order, but for one at most for each fault
/// that its calls used up; so all of them where none failed. That is so of objects of any size, with single response mode or without, whether or not
/// requests are ignored, where the shelf answers with as many octets as it was asked for, the channels of the object are pipes and the inbox does not
/// lack memory.
pub fn pushes_gain_less()
    ensures { PushesGainLess }
{}

/// Where the inbox grants all calls it gains all objects that the packets spell, of any size and in any mode, under the same premises.
pub fn pushes_gain_all()
    ensures { PushesGainAll }
{}

/// Where no more than none is left out, the objects are all there.
pub fn nothing_is_left_out()
    ensures { NothingIsLeftOut }
{}

/// Over either transport, where one packet at most has a Name on each channel, the inbox gains of each object that the packets spell all or nothing, when
/// its last packet comes: all exactly where success is said to that. Where besides no request is ignored, it gains the objects in their order, but for
/// one at most for each fault that its calls used up.
pub fn named_once_gain_less()
    ensures tells { NamedOnceTellEach }
    ensures less { NamedOnceGainLess }
{}

/// So each object tells of itself push after push over L2CAP, of any size and in any mode, under the premises under which it gains less.
pub fn pushes_tell_each()
    ensures { PushesTellEach }
{}

/// So it is push after push over RFCOMM, whatever becomes of the pushes, under the premises under which it gains all where it grants all calls.
pub fn pushed_gain_less()
    ensures { PushedGainLess }
{}

/// Of each push from a shelf that tells what it holds there is spelled to its server the object that the shelf holds under its name, whole and once, or
/// nothing, push after push, whatever becomes of the pushes: over L2CAP whatever the inbox answers, and over RFCOMM where it does not lack memory.
pub fn pushes_spell_once()
    ensures direct { PushesSpellOnce }
    ensures carried { PushedSpellOnce }
{}
