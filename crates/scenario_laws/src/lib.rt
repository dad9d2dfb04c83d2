//! Laws of a run of the world of both hosts of a scenario, over its capture alone, whatever shelf and inbox answer and
//! whatever the script says.
#![tactic(auto)]

ghost use Rattle.scenario_laws.specs.Accounts.{BuffersAreKept, ControllersAreHonest, PushesAreInTurn, WindowsAreKept};
ghost use Rattle.scenario_laws.specs.Air.{AirIsKept, AirIsObeyed};
ghost use Rattle.scenario_laws.specs.Alone.{RunsCarryAlone};
ghost use Rattle.scenario_laws.specs.Broken.{CrowdsAreTold, ScenariosBreakOff};
ghost use Rattle.scenario_laws.specs.Captures.{FrontsRan};
ghost use Rattle.scenario_laws.specs.Clauses.{ScenariosEnd};
ghost use Rattle.scenario_laws.specs.Coming.{RestsHaveTalks, RunsHaveTalks};
ghost use Rattle.scenario_laws.specs.Early.{BrokenGoesOn, EarlyEndsGain, FrontsSpellFronts};
ghost use Rattle.scenario_laws.specs.FreeClients.{ClientsAreFree, ClientsLiveOverLinks};
ghost use Rattle.scenario_laws.specs.FreeServers.{ServersAreFree, ServersLiveOverLinks, ServersRestSo};
ghost use Rattle.scenario_laws.specs.Gentle.{FreeRestsAreLived, FreeRunsAreGentle, HostsAreGentle, PdusHaveOneCommand, RestsAreLived, RunsAreFree, RunsHoldBackNothing, RunsRestFree};
ghost use Rattle.scenario_laws.specs.Gains.{FirstServersAreOrderly, GainsExactly, GainsOverEither, ServersAreRead};
ghost use Rattle.scenario_laws.specs.Orderly.{ClientsAskOnce, HostsLiveOverLinks, ServersAreAskedOnce, ServersAreOrderly};
ghost use Rattle.scenario_laws.specs.Keeping.{FreeServersKeepOn};
ghost use Rattle.scenario_laws.specs.OneLink.{PushesHaveOneLink};
ghost use Rattle.scenario_laws.specs.Onward.{PushesGoOnward};
ghost use Rattle.scenario_laws.specs.Outcomes.{OutcomesAreStated};
ghost use Rattle.scenario_laws.specs.Plain.{FreeHostsArePlain};
ghost use Rattle.scenario_laws.specs.PlainRuns.{RunsArePlain};
ghost use Rattle.scenario_laws.specs.Played.{CallsArePlayed, PlaysAreFinished, SetHostsAreHosts};
ghost use Rattle.scenario_laws.specs.PushEnds.{PushesAreOfScenarios, PushesEnd};
ghost use Rattle.scenario_laws.specs.Searched.{RunsSearch};
ghost use Rattle.host_laws.specs.host_model.specs.Circumstances.{Circumstance};
ghost use Rattle.host_laws.specs.world_model.specs.Machines.{Upper};

/// Each front of a capture is the capture of a run. So what is so of captures of runs is so at each moment of them.
pub fn fronts_are_of_runs()
    ensures { FrontsRan }
{}

/// At each moment a host has no more packets outstanding than its controller takes, and no more than 64.
pub fn buffers_are_kept()
    ensures { BuffersAreKept }
{}

/// Wherever all is at rest, a host has no more I-frames unacknowledged on a channel that it has not closed than the window that both
/// hosts state.
pub fn windows_are_kept()
    ensures { WindowsAreKept }
{}

/// A controller says of no handle that more packets were completed than went out on it, and each packet out of a host has
/// the handle of the last link that it was told of.
pub fn controllers_are_honest()
    ensures { ControllersAreHonest }
{}

/// Pushes are in turn, and the links of each lie within it.
pub fn pushes_are_in_turn()
    ensures { PushesAreInTurn }
{}

/// Since a push began each host was told of one link at most, at each moment: a push is not begun on a second link where its own is lost.
pub fn pushes_have_one_link()
    ensures { PushesHaveOneLink }
{}

/// Where the push that goes on ends behind all that happened, each push that began has its end.
pub fn pushes_end()
    ensures { PushesEnd }
{}

/// No more pushes begin than the scenario has objects, and there is one outcome for each object.
pub fn pushes_are_of_scenarios()
    ensures { PushesAreOfScenarios }
{}

/// The air obeyed the script where the scenario ran to its end: what came into the hosts is what the words handed over, and
/// words without an entry found nothing. Timers and check words are read off the capture.
pub fn air_is_obeyed()
    ensures { AirIsObeyed }
{}

/// And wherever the run broke off, each entry keeps to the words that were turned.
pub fn air_is_kept()
    ensures { AirIsKept }
{}

/// What a front of a capture spells are the first objects that all of it spells: so what was stored where a run broke off
/// are the first of these.
pub fn fronts_spell_fronts()
    ensures { FrontsSpellFronts }
{}

/// Where a run broke off with an entry written, the capture with it is that of a run that goes on from both hosts as they
/// were.
pub fn broken_runs_go_on()
    ensures { BrokenGoesOn }
{}

/// At each moment of a run both hosts came to what the capture has of their links by what they were told and said, and by
/// PDUs that they said and that did not move.
pub fn runs_have_talks()
    ensures { RunsHaveTalks }
{}

/// And wherever it is at rest, to what moved on the link that is up.
pub fn rests_have_talks()
    ensures { RestsHaveTalks }
{}

/// Each PDU on the signalling channel that moved on a link of a run has one command.
pub fn pdus_have_one_command()
    ensures { PdusHaveOneCommand }
{}

/// However a host of a run came to what the capture has of its links, it did so gently, where no bound on what it says held a PDU
/// back and its firings said what waits behind them: what came in has one command in a PDU, and what it said is read so.
pub fn hosts_are_gentle()
    ensures { HostsAreGentle }
{}

/// Wherever a run is at rest each host lives so that its own talk on the link that is up is what moved there, but for requests that it gave
/// up, and what it says goes out as its octets; where no bound on what it says held a PDU back and its firings said what waits behind them.
pub fn rests_are_lived()
    ensures { RestsAreLived }
{}

/// At each moment of every run, whatever the ports answer, a host that says nothing next has nothing to give: no bound on what it says, and no
/// number that is no octet, holds a PDU back.
pub fn runs_hold_back_nothing()
    ensures { RunsHoldBackNothing }
{}

/// Wherever a run is at rest host a's channels are steady: none whose end was asked for as often as may be asks for its options more often.
pub fn rests_are_free()
    ensures { RunsRestFree }
{}

/// So both hosts are free wherever a run is at rest.
pub fn runs_are_free()
    ensures { RunsAreFree }
{}

/// Both hosts of a run came gently to what the capture has of their links.
pub fn free_runs_are_gentle()
    ensures { FreeRunsAreGentle }
{}

/// And at rest each came by a talk to what moved on the link that is up, and lives so that what its channels said and heard is that.
pub fn free_rests_are_lived()
    ensures { FreeRestsAreLived }
{}

/// So both hosts are plain wherever a run is at rest, where neither gave up a request and each profile waits for services as its own
/// talk says.
pub fn free_hosts_are_plain()
    ensures { FreeHostsArePlain }
{}

/// A server to which nothing happened yet serves in order.
pub fn first_servers_are_orderly()
    ensures { FirstServersAreOrderly }
{}

/// However a host of a run came to what the capture has, it lived so through it that its talk falls to its links, where no bound on what it
/// says held a PDU back and its firings said what waits behind them.
pub fn hosts_live_over_links()
    ensures { HostsLiveOverLinks }
{}

/// However host a of a run came to what the capture has, it asked for one channel of packets on each link, where no bound on what it says held a
/// PDU back and its firings said what waits behind them. Over RFCOMM that is the channel of its multiplexer.
pub fn clients_ask_once()
    ensures { ClientsAskOnce }
{}

/// So it comes to host b, whatever the air left out and repeated.
pub fn servers_are_asked_once()
    ensures { ServersAreAskedOnce }
{}

/// At each moment of each run over L2CAP host b serves in order, where no call of its inbox fails, no request is ignored and all that comes on its channels is handed up.
pub fn servers_are_orderly()
    ensures { ServersAreOrderly }
{}

/// What host b heard in a run over L2CAP spells what the capture spells of it, whether or not its inbox failed or a request was ignored: where one
/// channel alone carried packets on each link, host b asked for none, and host a gave each endpoint once.
pub fn servers_are_read()
    ensures { ServersAreRead }
{}

/// At each moment of a run, wherever it broke off, the inbox has gained exactly the objects that the packets spell which
/// host b heard, in the order of their last packets, over L2CAP, where host b serves in order.
pub fn gains_exactly()
    ensures { GainsExactly }
{}

/// And so it has over either transport, where on each link what happened to its server is read off what moved.
pub fn gains_over_either()
    ensures { GainsOverEither }
{}

/// The machines of both hosts in code are those of every scenario with their settings, whatever the inbox holds at first.
pub fn set_hosts_are_hosts()
    ensures { SetHostsAreHosts }
{}

/// What a world in code says of its calls is a run of both hosts of the scenario, where its machines are theirs.
pub fn calls_are_played<S, T>()
    ensures { (U : Upper S Circumstance) (V : Upper T Circumstance) → CallsArePlayed U V }
{}

/// Where such a world stands, all words of the script were turned and its end is written behind, the scenario ran to its end.
pub fn plays_are_finished<S, T>()
    ensures { (U : Upper S Circumstance) (V : Upper T Circumstance) → PlaysAreFinished U V }
{}

/// The capture states with which outcome each push ended, in their order, and how many were begun: and where its end is
/// written, all outcomes are those that it states, and the script's end for what was not begun.
pub fn outcomes_are_stated()
    ensures { OutcomesAreStated }
{}

/// Where a run broke off with an entry written, the inbox had gained all that was spelled before: the first objects that the
/// capture spells with that entry.
pub fn early_ends_gain()
    ensures { EarlyEndsGain }
{}

/// What is so of every scenario over L2CAP that ran to its end, over its capture alone: what the inbox gained, the accounts of both
/// hosts, the pushes and how they ended, and that the air obeyed the script; where host b serves.
pub fn scenarios_end()
    ensures { ScenariosEnd }
{}

/// However host b of a run came to what the capture has, nothing was held back where it heard something, and its firings said what waits
/// behind them.
pub fn servers_are_free()
    ensures { ServersAreFree }
{}

/// So host b of every run lives through its talk so that on each of its links its own talk is what moved there, but for what it gave up.
pub fn servers_live_over_links()
    ensures { ServersLiveOverLinks }
{}

/// Nor was anything held back in host a, however it came to what the capture has, and its firings too said what waits behind them.
pub fn clients_are_free()
    ensures { ClientsAreFree }
{}

/// So host a of every run lives through its talk in the same way.
pub fn clients_live_over_links()
    ensures { ClientsLiveOverLinks }
{}

/// Wherever a run is at rest, host b came by a talk to what moved on the link that is up, and lives so that what its channels said and heard
/// is that, but for what it gave up.
pub fn servers_rest_so()
    ensures { ServersRestSo }
{}

/// The server of a run gives up no request while its link goes on, and waits for no services: what is asked of both hosts so that they are plain is asked of the client alone.
pub fn free_servers_keep_on()
    ensures { FreeServersKeepOn }
{}

/// What is so of every scenario over L2CAP that broke off, over its capture so far alone: what the inbox gained by then, the buffers, the
/// pushes, honest controllers, and that each entry keeps to the script; where host b is orderly.
pub fn scenarios_break_off()
    ensures { ScenariosBreakOff }
{}

/// Where more frames wait in a direction of the air, or more octets of them, than memory is reserved for, the capture says so.
pub fn crowds_are_told()
    ensures { CrowdsAreTold }
{}

/// A link comes up only for a push of host a that waits for it, and host a ends it where nothing else is left to its push: wherever a run is at rest with
/// a link up, a push goes on over it.
pub fn pushes_go_onward()
    ensures { PushesGoOnward }
{}

/// At each rest of every run, over L2CAP or over RFCOMM and whatever its ports answered, both hosts are plain: neither gave up a request on the link
/// that is up, and the profile of host a waits for services there as its own talk says.
pub fn runs_are_plain()
    ensures { RunsArePlain }
{}

/// Wherever a run is at rest, what happened on the link that is up, in one order with what host a's client went through there, is the search of the
/// push for which the link came up: its question was a new one, no push began since, all that came in is octets, and it searches in order and with
/// memory.
pub fn runs_search()
    ensures { RunsSearch }
{}

/// So at each moment of each run, over either transport and wherever it broke off, one channel alone carries packets on each link of host b.
pub fn runs_carry_alone()
    ensures { RunsCarryAlone }
{}
