//! Laws of both hosts of a scenario together, on each of their links.
#![tactic(auto)]

ghost use Rattle.pair_laws.specs.Changes.{ChangesAreSeen};
ghost use Rattle.pair_laws.specs.Fronts.{FrontsAreRun};
ghost use Rattle.pair_laws.specs.Enough.{EnoughKeepOrder};
ghost use Rattle.pair_laws.specs.Granted.{GrantedTakeTurns};
ghost use Rattle.pair_laws.specs.GrantedOrder.{GrantedKeepOrder};
ghost use Rattle.pair_laws.specs.Heard.{ForgoneTakesNoFrame, HostsHearFirst};
ghost use Rattle.pair_laws.specs.InTurn.{HostsTakeTurns};
ghost use Rattle.pair_laws.specs.Keeping.{RunsKeepOrder};
ghost use Rattle.pair_laws.specs.Modes.{RunsAreEnhanced};
ghost use Rattle.pair_laws.specs.OnLinks.{HostsArePairs};
ghost use Rattle.pair_laws.specs.PlainPipes.{PlainPairsArePipes};
ghost use Rattle.pair_laws.specs.Served.{HeldTakeTurns, ServedTakeTurns};
ghost use Rattle.pair_laws.specs.ServedOrder.{HeldKeepOrder, ServedKeepOrder};
ghost use Rattle.pair_laws.specs.Seen.{AllDamageIsSeen};
ghost use Rattle.pair_laws.specs.Whole.{PairsAreWhole};
ghost use Rattle.pair_laws.specs.Windows.{RunsHoldWindows, TalksHold};
ghost use Rattle.pair_laws.specs.Within.{HostsSendWithin, PairsAreCarried};

pub mod laws;

/// At each moment of a run, wherever it broke off, the channels of both hosts on each link are the two ends of a pair: what came into one
/// is what the air made of what the other gave, and each SDU, frame and command is what it is read as.
pub fn hosts_are_pairs()
    ensures { HostsArePairs }
{}

/// And their links go side by side: each comes up where the client of host a wants it, no push begins on it, and host b never hears two turns
/// more of its link than host a.
pub fn hosts_take_turns()
    ensures { HostsTakeTurns }
{}

/// A client and a server ask for no SDU to be sent that is longer than the peer takes on its channel.
pub fn hosts_send_within()
    ensures { HostsSendWithin }
{}

/// So each SDU of such a pair is one that the other end takes, and all damage is seen.
pub fn pairs_are_carried()
    ensures { PairsAreCarried }
{}

/// A frame of an enhanced channel that the air changes leaves its endpoint, and its check word does not hold.
pub fn changes_are_seen()
    ensures { ChangesAreSeen }
{}

/// Where both hosts wish the same modes, all damage is seen: what comes to an endpoint with a check word was given as a frame of it.
pub fn all_damage_is_seen()
    ensures { AllDamageIsSeen }
{}

/// So all that comes on the channels of both hosts of such a run is handed up, also of a channel that its retransmission machine closed.
pub fn pairs_are_whole()
    ensures { PairsAreWhole }
{}

/// What happened to the channels of both hosts up to a moment is what happened with the first turns of a pair, and each host is the one to
/// which its part of it happened: so the laws on two channels hold at each moment of the order in which both went through a link.
pub fn fronts_are_run()
    ensures { FrontsAreRun }
{}

/// Where the words of a run lose, cut, repeat and damage nothing, as those of each script over RFCOMM, each way of each link hands over all in
/// its order until it breaks: so the laws on basic channels hold along its pairs.
pub fn runs_keep_order()
    ensures { RunsKeepOrder }
{}

/// On each link of such a run, at each moment: over a basic channel that both talks have, as that for service discovery and that of the
/// multiplexer of RFCOMM, there came up at either host a front of what the channel of the other took of its host, SDU for SDU.
pub fn plain_pairs_are_pipes()
    ensures { PlainPairsArePipes }
{}

/// In a run in which the inbox grants all calls the channels of both hosts are pairs in turn as in any run, and all that host b was given of its inbox are grants.
pub fn granted_take_turns()
    ensures { GrantedTakeTurns }
{}

/// And where besides its words lose, cut, repeat and damage nothing, each way keeps its order.
pub fn granted_keep_order()
    ensures { GrantedKeepOrder }
{}

/// In a run in which the shelf of host a answers in octets and tells how long its objects are, the channels of both hosts are pairs in turn as in any run;
/// all that host a was given are octets, and each length that it was told stands in four octets and is that of the object of that name.
pub fn held_take_turns()
    ensures { HeldTakeTurns }
{}

/// And where besides the inbox grants all calls, all that host b was given of its inbox are grants.
pub fn served_take_turns()
    ensures { ServedTakeTurns }
{}

/// And where besides its words lose, cut, repeat and damage nothing, each way keeps its order.
pub fn held_keep_order()
    ensures { HeldKeepOrder }
{}

/// So it is also where besides the inbox grants all calls.
pub fn served_keep_order()
    ensures { ServedKeepOrder }
{}

/// And where calls of the inbox may fail, but not for want of memory.
pub fn enough_keep_order()
    ensures { EnoughKeepOrder }
{}

/// Where a talk holds the window on each of its enhanced channels, it did so before the last of it was said; and no more frames of its host are
/// unacknowledged than the window, on any channel, closed or not.
pub fn talks_hold()
    ensures { TalksHold }
{}

/// What a host gave up takes no I-frame: where it hears nothing behind that, the frames that passed on each channel by what moved of its talk are those
/// by its own talk.
pub fn forgone_takes_no_frame()
    ensures { ForgoneTakesNoFrame }
{}

/// On each of its links each host of a run hears nothing behind a request that it gave up: it ends its link.
pub fn hosts_hear_first()
    ensures { HostsHearFirst }
{}

/// At each moment of each run, whatever its ports answered and wherever it broke off, and on each link to its end, both hosts hold their windows: no more
/// I-frames are unacknowledged than the window that both state, and none is acknowledged that did not go out. So it is also on channels that were closed,
/// and where requests were given up.
pub fn runs_hold_windows()
    ensures { RunsHoldWindows }
{
    channel_laws::laws::pipes::windows_hold();
}

/// In each run both hosts accept enhanced mode alone of each channel that carries objects over L2CAP and that opened, on each of their links.
pub fn runs_are_enhanced()
    ensures { RunsAreEnhanced }
{}
