//! Laws of hosts that have what their ports will answer from a tape.
#![tactic(auto)]

ghost use Rattle.std.specs.Prelude.{Option};
ghost use Rattle.inbox_laws.specs.bt_base.specs.Objects.{Contents};
ghost use Rattle.inbox_laws.specs.host_model.specs.Profiles.{Profile};
ghost use Rattle.inbox_laws.specs.host_model.specs.Servers.{ServerProfile};
ghost use Rattle.inbox_laws.specs.push_script.specs.declared.scenario.Scenario.{Scenario};
ghost use Rattle.tape_laws.specs.Once.{ServersHearNewsAlone, ServersSpendOnce};
ghost use Rattle.tape_laws.specs.Own.{OwnServersAreTaped};
ghost use Rattle.tape_laws.specs.OwnGains.{OwnServersGainLess};
ghost use Rattle.tape_laws.specs.OwnPairs.{OwnServersKeepOrder};
ghost use Rattle.tape_laws.specs.Pairs.{TapedKeepOrder, TapedTakeTurns};
ghost use Rattle.tape_laws.specs.Runs.{TapedHostsHearSo, TapedRunsAreRuns};
ghost use Rattle.tape_laws.specs.Talking.{TapedHostsComeSo};
ghost use Rattle.tape_laws.specs.Taped.{Tape, TapedHostsTalkSo};
ghost use Rattle.inbox_laws.specs.world_model.specs.Machines.{Upper};

/// Where a host with a tape lives over the links of its talk, one without a tape lives over the same links, that is given with each thing that it hears
/// what the tape tells; the same happens to the channels of both.
pub fn taped_hosts_talk_so<P, T>()
    ensures { (A : Profile P) (tape : Tape P T) → TapedHostsTalkSo A tape }
{}

/// Such a host hears as one without a tape that is given what the tape tells.
pub fn taped_hosts_hear_so<P, T>()
    ensures { (A : Profile P) (tape : Tape P T) → TapedHostsHearSo A tape }
{}

/// So one without a tape comes to where it is, that is told and says the same over its links.
pub fn taped_hosts_come_so<P, T>()
    ensures { (A : Profile P) (tape : Tape P T) → TapedHostsComeSo A tape }
{}

/// So what happens to it, and to any machine in its world, happens where it has no tape.
pub fn taped_runs_are_runs<S, G, P, T>()
    ensures { (U : Upper S G) (A : Profile P) (tape : Tape P T) → TapedRunsAreRuns U A tape }
{}

/// A server that has from its tape all answers of its inbox with the first thing that it hears, and then what is left of them, uses up no more faults than
/// there are in that list; and where none of them is want of memory, none that it is given is.
pub fn servers_spend_once()
    ensures { ServersSpendOnce }
{}

/// What a server makes of news hangs on the news alone, as these laws ask.
pub fn servers_hear_news_alone()
    ensures { ServersHearNewsAlone }
{}

/// What happens to a server that keeps the answers of its inbox from its first moment on, and to any machine, happens where it has the tape of them.
pub fn own_servers_are_taped<S, G>()
    ensures { (U : Upper S G) → OwnServersAreTaped U }
{}

/// So a server with a tape goes through the links of a run in pairs with the client of host a, and is given what the tape tells.
pub fn taped_take_turns<T>()
    ensures { (scenario : Scenario) (content : Option Contents) (tape : Tape ServerProfile T) → TapedTakeTurns scenario content tape }
{}

/// And where besides the words of the run lose, cut, repeat and damage nothing, each way keeps its order.
pub fn taped_keep_order<T>()
    ensures { (scenario : Scenario) (content : Option Contents) (tape : Tape ServerProfile T) → TapedKeepOrder scenario content tape }
{}

/// So a server that keeps the answers of its inbox goes through the links of such a run in pairs, and its calls use up no more faults than there are in
/// that list.
pub fn own_servers_keep_order()
    ensures { OwnServersKeepOrder }
{}

/// What the inbox of such a server gains are the objects that the capture spells, in their order, but for one at most for each fault among its answers,
/// where none of these is want of memory: over L2CAP, and over RFCOMM where the words of the run lose nothing.
pub fn own_servers_gain_less()
    ensures { OwnServersGainLess }
{}
